//! The flags of the control register CR0.

ghost use Rattle.std.specs.Prelude.{◌≡◌, ⊤, [], ◌∷◌, codes};
ghost use Rattle.std.specs.Int.RustNames.{bit_or};
ghost use Rattle.x86_flags.specs.Cr0Flags.{cr0_bits, cr0_flags};

use bitflags::{Flag, Flags};
use std::ops::BitOr;

/// How the processor runs: protection, paging, caches and the floating-point unit.
///
/// Source: AMD64 manual, volume 2, section 3.1.1.
#[derive(Clone, Copy, PartialEq, Eq, PartialOrd, Ord, Hash, Debug)]
pub struct Cr0Flags(u64);

impl Cr0Flags {
    /// Protected mode is on.
    pub const PROTECTED_MODE_ENABLE: Self = Self(1 << 0);

    /// `WAIT` and `FWAIT` fault while `TASK_SWITCHED` is set.
    pub const MONITOR_COPROCESSOR: Self = Self(1 << 1);

    /// x87 and SIMD instructions fault, so that software can emulate them.
    pub const EMULATE_COPROCESSOR: Self = Self(1 << 2);

    /// Set by a hardware task switch; the next x87 or SIMD instruction faults.
    pub const TASK_SWITCHED: Self = Self(1 << 3);

    /// Always set: the processor has the x87 instructions of the 387DX.
    pub const EXTENSION_TYPE: Self = Self(1 << 4);

    /// x87 errors are reported as an exception, and not by an external interrupt.
    pub const NUMERIC_ERROR: Self = Self(1 << 5);

    /// Supervisor code, too, faults when it writes to a read-only page.
    pub const WRITE_PROTECT: Self = Self(1 << 16);

    /// Unaligned user accesses fault while `RFlags::ALIGNMENT_CHECK` is set.
    pub const ALIGNMENT_MASK: Self = Self(1 << 18);

    /// Ignored by the processor; to be left clear.
    pub const NOT_WRITE_THROUGH: Self = Self(1 << 29);

    /// The caches take in no new lines.
    pub const CACHE_DISABLE: Self = Self(1 << 30);

    /// Addresses are translated by the page tables.
    pub const PAGING: Self = Self(1 << 31);

    const FLAGS: &'static [Flag<Self>] = flag_rows![
        PROTECTED_MODE_ENABLE,
        MONITOR_COPROCESSOR,
        EMULATE_COPROCESSOR,
        TASK_SWITCHED,
        EXTENSION_TYPE,
        NUMERIC_ERROR,
        WRITE_PROTECT,
        ALIGNMENT_MASK,
        NOT_WRITE_THROUGH,
        CACHE_DISABLE,
        PAGING,
    ];

    /// Each name of the table has the bits of the constant of that name.
    pub fn constants()
        ensures { cr0_flags
            ≡ (codes "PROTECTED_MODE_ENABLE", cr0_bits Self.PROTECTED_MODE_ENABLE)
            ∷ (codes "MONITOR_COPROCESSOR", cr0_bits Self.MONITOR_COPROCESSOR)
            ∷ (codes "EMULATE_COPROCESSOR", cr0_bits Self.EMULATE_COPROCESSOR)
            ∷ (codes "TASK_SWITCHED", cr0_bits Self.TASK_SWITCHED)
            ∷ (codes "EXTENSION_TYPE", cr0_bits Self.EXTENSION_TYPE)
            ∷ (codes "NUMERIC_ERROR", cr0_bits Self.NUMERIC_ERROR)
            ∷ (codes "WRITE_PROTECT", cr0_bits Self.WRITE_PROTECT)
            ∷ (codes "ALIGNMENT_MASK", cr0_bits Self.ALIGNMENT_MASK)
            ∷ (codes "NOT_WRITE_THROUGH", cr0_bits Self.NOT_WRITE_THROUGH)
            ∷ (codes "CACHE_DISABLE", cr0_bits Self.CACHE_DISABLE)
            ∷ (codes "PAGING", cr0_bits Self.PAGING)
            ∷ [] }
    {}
}

impl Flags for Cr0Flags {
    type Bits = u64;

    ghost exact = { ⊤ };

    ghost table = { cr0_flags };

    ghost set_of = { cr0_bits };

    fn flags<'a>() -> &'a [Flag<Self>] {
        Self::FLAGS
    }

    fn bits(&self) -> u64 {
        self.0
    }

    fn from_bits_retain(bits: u64) -> Self {
        Self(bits)
    }
}

impl BitOr for Cr0Flags {
    type Output = Self;

    ghost bitor_gives = { λ left right all. cr0_bits all ≡ bit_or (cr0_bits left) (cr0_bits right) };

    fn bitor(self, other: Self) -> Self {
        Self(self.0 | other.0)
    }
}
