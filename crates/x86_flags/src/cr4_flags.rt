//! The flags of the control register CR4.

ghost use Rattle.std.specs.Prelude.{◌≡◌, ⊤, [], ◌∷◌, codes};
ghost use Rattle.std.specs.Int.RustNames.{bit_or};
ghost use Rattle.x86_flags.specs.Cr4Flags.{cr4_bits, cr4_flags};

use bitflags::{Flag, Flags};
use std::ops::BitOr;

/// Which extensions of the architecture are on.
///
/// Source: AMD64 manual, volume 2, section 3.1.3.
#[derive(Clone, Copy, PartialEq, Eq, PartialOrd, Ord, Hash, Debug)]
pub struct Cr4Flags(u64);

impl Cr4Flags {
    /// Interrupts of virtual-8086 mode need no monitor.
    pub const VIRTUAL_8086_MODE_EXTENSIONS: Self = Self(1 << 0);

    /// Virtual interrupts work in protected mode, too.
    pub const PROTECTED_MODE_VIRTUAL_INTERRUPTS: Self = Self(1 << 1);

    /// `RDTSC` and `RDTSCP` are only for ring 0.
    pub const TIMESTAMP_DISABLE: Self = Self(1 << 2);

    /// Breakpoints on ports work, and the names DR4 and DR5 fault.
    pub const DEBUGGING_EXTENSIONS: Self = Self(1 << 3);

    /// Pages of 4 MiB, if `PHYSICAL_ADDRESS_EXTENSION` is clear.
    pub const PAGE_SIZE_EXTENSION: Self = Self(1 << 4);

    /// Page-table entries of 64 bits; long mode needs it.
    pub const PHYSICAL_ADDRESS_EXTENSION: Self = Self(1 << 5);

    /// Machine checks raise an exception.
    pub const MACHINE_CHECK_EXCEPTION: Self = Self(1 << 6);

    /// Global pages stay in the TLB when CR3 is written.
    pub const PAGE_GLOBAL: Self = Self(1 << 7);

    /// `RDPMC` works in every ring.
    pub const PERFORMANCE_MONITOR_COUNTER: Self = Self(1 << 8);

    /// The system saves SSE state by `FXSAVE`, and SSE instructions work.
    pub const OSFXSR: Self = Self(1 << 9);

    /// Unmasked SIMD floating-point errors raise `#XF`.
    pub const OSXMMEXCPT_ENABLE: Self = Self(1 << 10);

    /// `SGDT`, `SIDT`, `SLDT`, `SMSW` and `STR` fault in user mode.
    pub const USER_MODE_INSTRUCTION_PREVENTION: Self = Self(1 << 11);

    /// Page tables have five levels.
    pub const L5_PAGING: Self = Self(1 << 12);

    /// The VMX instructions work (only Intel).
    pub const VIRTUAL_MACHINE_EXTENSIONS: Self = Self(1 << 13);

    /// The SMX instructions work (only Intel).
    pub const SAFER_MODE_EXTENSIONS: Self = Self(1 << 14);

    /// Every ring may read and write the bases of FS and GS by instructions.
    pub const FSGSBASE: Self = Self(1 << 16);

    /// The low 12 bits of CR3 are a process-context identifier.
    pub const PCID: Self = Self(1 << 17);

    /// `XSAVE` and its kin work, with XCR0.
    pub const OSXSAVE: Self = Self(1 << 18);

    /// Key Locker works (only Intel).
    pub const KEY_LOCKER: Self = Self(1 << 19);

    /// Supervisor code faults when it runs code of a user page.
    pub const SUPERVISOR_MODE_EXECUTION_PROTECTION: Self = Self(1 << 20);

    /// Supervisor code faults when it touches a user page, unless `RFlags::ALIGNMENT_CHECK` is set.
    pub const SUPERVISOR_MODE_ACCESS_PREVENTION: Self = Self(1 << 21);

    /// User pages have protection keys, by PKRU.
    pub const PROTECTION_KEY_USER: Self = Self(1 << 22);

    /// Shadow stacks and indirect-branch tracking can be turned on.
    pub const CONTROL_FLOW_ENFORCEMENT: Self = Self(1 << 23);

    /// Supervisor pages have protection keys, by PKRS (only Intel).
    pub const PROTECTION_KEY_SUPERVISOR: Self = Self(1 << 24);

    const FLAGS: &'static [Flag<Self>] = flag_rows![
        VIRTUAL_8086_MODE_EXTENSIONS,
        PROTECTED_MODE_VIRTUAL_INTERRUPTS,
        TIMESTAMP_DISABLE,
        DEBUGGING_EXTENSIONS,
        PAGE_SIZE_EXTENSION,
        PHYSICAL_ADDRESS_EXTENSION,
        MACHINE_CHECK_EXCEPTION,
        PAGE_GLOBAL,
        PERFORMANCE_MONITOR_COUNTER,
        OSFXSR,
        OSXMMEXCPT_ENABLE,
        USER_MODE_INSTRUCTION_PREVENTION,
        L5_PAGING,
        VIRTUAL_MACHINE_EXTENSIONS,
        SAFER_MODE_EXTENSIONS,
        FSGSBASE,
        PCID,
        OSXSAVE,
        KEY_LOCKER,
        SUPERVISOR_MODE_EXECUTION_PROTECTION,
        SUPERVISOR_MODE_ACCESS_PREVENTION,
        PROTECTION_KEY_USER,
        CONTROL_FLOW_ENFORCEMENT,
        PROTECTION_KEY_SUPERVISOR,
    ];

    /// Each name of the table has the bits of the constant of that name.
    pub fn constants()
        ensures { cr4_flags
            ≡ (codes "VIRTUAL_8086_MODE_EXTENSIONS", cr4_bits Self.VIRTUAL_8086_MODE_EXTENSIONS)
            ∷ (codes "PROTECTED_MODE_VIRTUAL_INTERRUPTS", cr4_bits Self.PROTECTED_MODE_VIRTUAL_INTERRUPTS)
            ∷ (codes "TIMESTAMP_DISABLE", cr4_bits Self.TIMESTAMP_DISABLE)
            ∷ (codes "DEBUGGING_EXTENSIONS", cr4_bits Self.DEBUGGING_EXTENSIONS)
            ∷ (codes "PAGE_SIZE_EXTENSION", cr4_bits Self.PAGE_SIZE_EXTENSION)
            ∷ (codes "PHYSICAL_ADDRESS_EXTENSION", cr4_bits Self.PHYSICAL_ADDRESS_EXTENSION)
            ∷ (codes "MACHINE_CHECK_EXCEPTION", cr4_bits Self.MACHINE_CHECK_EXCEPTION)
            ∷ (codes "PAGE_GLOBAL", cr4_bits Self.PAGE_GLOBAL)
            ∷ (codes "PERFORMANCE_MONITOR_COUNTER", cr4_bits Self.PERFORMANCE_MONITOR_COUNTER)
            ∷ (codes "OSFXSR", cr4_bits Self.OSFXSR)
            ∷ (codes "OSXMMEXCPT_ENABLE", cr4_bits Self.OSXMMEXCPT_ENABLE)
            ∷ (codes "USER_MODE_INSTRUCTION_PREVENTION", cr4_bits Self.USER_MODE_INSTRUCTION_PREVENTION)
            ∷ (codes "L5_PAGING", cr4_bits Self.L5_PAGING)
            ∷ (codes "VIRTUAL_MACHINE_EXTENSIONS", cr4_bits Self.VIRTUAL_MACHINE_EXTENSIONS)
            ∷ (codes "SAFER_MODE_EXTENSIONS", cr4_bits Self.SAFER_MODE_EXTENSIONS)
            ∷ (codes "FSGSBASE", cr4_bits Self.FSGSBASE)
            ∷ (codes "PCID", cr4_bits Self.PCID)
            ∷ (codes "OSXSAVE", cr4_bits Self.OSXSAVE)
            ∷ (codes "KEY_LOCKER", cr4_bits Self.KEY_LOCKER)
            ∷ (codes "SUPERVISOR_MODE_EXECUTION_PROTECTION", cr4_bits Self.SUPERVISOR_MODE_EXECUTION_PROTECTION)
            ∷ (codes "SUPERVISOR_MODE_ACCESS_PREVENTION", cr4_bits Self.SUPERVISOR_MODE_ACCESS_PREVENTION)
            ∷ (codes "PROTECTION_KEY_USER", cr4_bits Self.PROTECTION_KEY_USER)
            ∷ (codes "CONTROL_FLOW_ENFORCEMENT", cr4_bits Self.CONTROL_FLOW_ENFORCEMENT)
            ∷ (codes "PROTECTION_KEY_SUPERVISOR", cr4_bits Self.PROTECTION_KEY_SUPERVISOR)
            ∷ [] }
    {}
}

impl Flags for Cr4Flags {
    type Bits = u64;

    ghost exact = { ⊤ };

    ghost table = { cr4_flags };

    ghost set_of = { cr4_bits };

    fn flags<'a>() -> &'a [Flag<Self>] {
        Self::FLAGS
    }

    fn bits(&self) -> u64 {
        self.0
    }

    fn from_bits_retain(bits: u64) -> Self {
        Self(bits)
    }
}

impl BitOr for Cr4Flags {
    type Output = Self;

    ghost bitor_gives = { λ left right all. cr4_bits all ≡ bit_or (cr4_bits left) (cr4_bits right) };

    fn bitor(self, other: Self) -> Self {
        Self(self.0 | other.0)
    }
}
