//! The flags of the flags register RFLAGS.

ghost use Rattle.std.specs.Prelude.{◌≡◌, ⊤, [], ◌∷◌, codes};
ghost use Rattle.std.specs.Int.RustNames.{bit_or};
ghost use Rattle.x86_flags.specs.RFlags.{rflags_bits, rflags_flags};

use bitflags::{Flag, Flags};
use std::ops::BitOr;

/// What the last instruction found, and how the processor runs.
///
/// Source: AMD64 manual, volume 2, section 3.1.6.
#[derive(Clone, Copy, PartialEq, Eq, PartialOrd, Ord, Hash, Debug)]
pub struct RFlags(u64);

impl RFlags {
    /// The last operation carried or borrowed out of its highest bit.
    pub const CARRY_FLAG: Self = Self(1 << 0);

    /// The low byte of the last result has an even number of bits set.
    pub const PARITY_FLAG: Self = Self(1 << 2);

    /// The last operation carried or borrowed out of bit 3.
    pub const AUXILIARY_CARRY_FLAG: Self = Self(1 << 4);

    /// The last result is zero.
    pub const ZERO_FLAG: Self = Self(1 << 6);

    /// The last result is negative.
    pub const SIGN_FLAG: Self = Self(1 << 7);

    /// A debug exception is raised after each instruction.
    pub const TRAP_FLAG: Self = Self(1 << 8);

    /// Maskable interrupts are taken.
    pub const INTERRUPT_FLAG: Self = Self(1 << 9);

    /// String instructions go down through memory.
    pub const DIRECTION_FLAG: Self = Self(1 << 10);

    /// The last signed result did not fit.
    pub const OVERFLOW_FLAG: Self = Self(1 << 11);

    /// The low bit of the level that may use ports.
    pub const IOPL_LOW: Self = Self(1 << 12);

    /// The high bit of the level that may use ports.
    pub const IOPL_HIGH: Self = Self(1 << 13);

    /// This task was called by another.
    pub const NESTED_TASK: Self = Self(1 << 14);

    /// An instruction breakpoint is passed over once.
    pub const RESUME_FLAG: Self = Self(1 << 16);

    /// Virtual-8086 mode is on.
    pub const VIRTUAL_8086_MODE: Self = Self(1 << 17);

    /// Unaligned user accesses fault, with `Cr0Flags::ALIGNMENT_MASK` set; supervisor code may touch user pages under SMAP.
    pub const ALIGNMENT_CHECK: Self = Self(1 << 18);

    /// The virtual image of the interrupt flag.
    pub const VIRTUAL_INTERRUPT: Self = Self(1 << 19);

    /// A virtual interrupt waits.
    pub const VIRTUAL_INTERRUPT_PENDING: Self = Self(1 << 20);

    /// That this bit can be changed shows that `CPUID` works.
    pub const ID: Self = Self(1 << 21);

    const FLAGS: &'static [Flag<Self>] = flag_rows![
        CARRY_FLAG,
        PARITY_FLAG,
        AUXILIARY_CARRY_FLAG,
        ZERO_FLAG,
        SIGN_FLAG,
        TRAP_FLAG,
        INTERRUPT_FLAG,
        DIRECTION_FLAG,
        OVERFLOW_FLAG,
        IOPL_LOW,
        IOPL_HIGH,
        NESTED_TASK,
        RESUME_FLAG,
        VIRTUAL_8086_MODE,
        ALIGNMENT_CHECK,
        VIRTUAL_INTERRUPT,
        VIRTUAL_INTERRUPT_PENDING,
        ID,
    ];

    /// Each name of the table has the bits of the constant of that name.
    pub fn constants()
        ensures { rflags_flags
            ≡ (codes "CARRY_FLAG", rflags_bits Self.CARRY_FLAG)
            ∷ (codes "PARITY_FLAG", rflags_bits Self.PARITY_FLAG)
            ∷ (codes "AUXILIARY_CARRY_FLAG", rflags_bits Self.AUXILIARY_CARRY_FLAG)
            ∷ (codes "ZERO_FLAG", rflags_bits Self.ZERO_FLAG)
            ∷ (codes "SIGN_FLAG", rflags_bits Self.SIGN_FLAG)
            ∷ (codes "TRAP_FLAG", rflags_bits Self.TRAP_FLAG)
            ∷ (codes "INTERRUPT_FLAG", rflags_bits Self.INTERRUPT_FLAG)
            ∷ (codes "DIRECTION_FLAG", rflags_bits Self.DIRECTION_FLAG)
            ∷ (codes "OVERFLOW_FLAG", rflags_bits Self.OVERFLOW_FLAG)
            ∷ (codes "IOPL_LOW", rflags_bits Self.IOPL_LOW)
            ∷ (codes "IOPL_HIGH", rflags_bits Self.IOPL_HIGH)
            ∷ (codes "NESTED_TASK", rflags_bits Self.NESTED_TASK)
            ∷ (codes "RESUME_FLAG", rflags_bits Self.RESUME_FLAG)
            ∷ (codes "VIRTUAL_8086_MODE", rflags_bits Self.VIRTUAL_8086_MODE)
            ∷ (codes "ALIGNMENT_CHECK", rflags_bits Self.ALIGNMENT_CHECK)
            ∷ (codes "VIRTUAL_INTERRUPT", rflags_bits Self.VIRTUAL_INTERRUPT)
            ∷ (codes "VIRTUAL_INTERRUPT_PENDING", rflags_bits Self.VIRTUAL_INTERRUPT_PENDING)
            ∷ (codes "ID", rflags_bits Self.ID)
            ∷ [] }
    {}
}

impl Flags for RFlags {
    type Bits = u64;

    ghost exact = { ⊤ };

    ghost table = { rflags_flags };

    ghost set_of = { rflags_bits };

    fn flags<'a>() -> &'a [Flag<Self>] {
        Self::FLAGS
    }

    fn bits(&self) -> u64 {
        self.0
    }

    fn from_bits_retain(bits: u64) -> Self {
        Self(bits)
    }
}

impl BitOr for RFlags {
    type Output = Self;

    ghost bitor_gives = { λ left right all. rflags_bits all ≡ bit_or (rflags_bits left) (rflags_bits right) };

    fn bitor(self, other: Self) -> Self {
        Self(self.0 | other.0)
    }
}
