//! The flags of the debug status register DR6.

ghost use Rattle.std.specs.Prelude.{◌≡◌, ⊤, [], ◌∷◌, codes, ◌^◌};
ghost use Rattle.std.specs.Int.RustNames.{bit_or};
ghost use Rattle.x86_flags.specs.Dr6Flags.{dr6_bits, dr6_flags};
ghost use Rattle.x86_flags.specs.DebugAddressRegisterNumber.{register_number};

use crate::debug_address_register_number::DebugAddressRegisterNumber;
use bitflags::{Flag, Flags};
use std::ops::BitOr;

/// What the last debug exception was raised by.
///
/// Source: AMD64 manual, volume 2, section 13.1.1.
#[derive(Clone, Copy, PartialEq, Eq, PartialOrd, Ord, Hash, Debug)]
pub struct Dr6Flags(u64);

impl Dr6Flags {
    /// The condition of breakpoint 0 was met.
    pub const TRAP0: Self = Self(1 << 0);

    /// The condition of breakpoint 1 was met.
    pub const TRAP1: Self = Self(1 << 1);

    /// The condition of breakpoint 2 was met.
    pub const TRAP2: Self = Self(1 << 2);

    /// The condition of breakpoint 3 was met.
    pub const TRAP3: Self = Self(1 << 3);

    /// All four breakpoint conditions.
    pub const TRAP: Self = Self(0b1111);

    /// The next instruction accesses a debug register, with `Dr7Flags::GENERAL_DETECT_ENABLE` set.
    pub const ACCESS_DETECTED: Self = Self(1 << 13);

    /// One instruction ran, with `RFlags::TRAP_FLAG` set.
    pub const STEP: Self = Self(1 << 14);

    /// A task was switched to whose debug trap flag is set.
    pub const SWITCH: Self = Self(1 << 15);

    /// Clear if the exception was raised inside a transactional region.
    pub const RTM: Self = Self(1 << 16);

    const FLAGS: &'static [Flag<Self>] = flag_rows![
        TRAP0,
        TRAP1,
        TRAP2,
        TRAP3,
        TRAP,
        ACCESS_DETECTED,
        STEP,
        SWITCH,
        RTM,
    ];

    /// Each name of the table has the bits of the constant of that name.
    pub fn constants()
        ensures { dr6_flags
            ≡ (codes "TRAP0", dr6_bits Self.TRAP0)
            ∷ (codes "TRAP1", dr6_bits Self.TRAP1)
            ∷ (codes "TRAP2", dr6_bits Self.TRAP2)
            ∷ (codes "TRAP3", dr6_bits Self.TRAP3)
            ∷ (codes "TRAP", dr6_bits Self.TRAP)
            ∷ (codes "ACCESS_DETECTED", dr6_bits Self.ACCESS_DETECTED)
            ∷ (codes "STEP", dr6_bits Self.STEP)
            ∷ (codes "SWITCH", dr6_bits Self.SWITCH)
            ∷ (codes "RTM", dr6_bits Self.RTM)
            ∷ [] }
    {}

    /// The flag of the breakpoint in this debug address register.
    pub fn trap(n: DebugAddressRegisterNumber) -> Self
        ensures { dr6_bits result ≡ 2 ^ register_number n }
    {
        match n {
            DebugAddressRegisterNumber::Dr0 => Self::TRAP0,
            DebugAddressRegisterNumber::Dr1 => Self::TRAP1,
            DebugAddressRegisterNumber::Dr2 => Self::TRAP2,
            DebugAddressRegisterNumber::Dr3 => Self::TRAP3,
        }
    }
}

impl Flags for Dr6Flags {
    type Bits = u64;

    ghost exact = { ⊤ };

    ghost table = { dr6_flags };

    ghost set_of = { dr6_bits };

    fn flags<'a>() -> &'a [Flag<Self>] {
        Self::FLAGS
    }

    fn bits(&self) -> u64 {
        self.0
    }

    fn from_bits_retain(bits: u64) -> Self {
        Self(bits)
    }
}

impl BitOr for Dr6Flags {
    type Output = Self;

    ghost bitor_gives = { λ left right all. dr6_bits all ≡ bit_or (dr6_bits left) (dr6_bits right) };

    fn bitor(self, other: Self) -> Self {
        Self(self.0 | other.0)
    }
}
