//! The flags of the debug control register DR7.

ghost use Rattle.std.specs.Prelude.{◌≡◌, ⊤, [], ◌∷◌, codes, ◌^◌, ◌*◌, ◌+◌};
ghost use Rattle.std.specs.Int.RustNames.{bit_or};
ghost use Rattle.x86_flags.specs.Dr7Flags.{dr7_bits, dr7_flags};
ghost use Rattle.x86_flags.specs.DebugAddressRegisterNumber.{register_number};

use crate::debug_address_register_number::DebugAddressRegisterNumber;
use bitflags::{Flag, Flags};
use std::ops::BitOr;

/// Which breakpoints are on; their conditions and sizes are beside these flags, in a `Dr7Value`.
///
/// Source: AMD64 manual, volume 2, section 13.1.1.
#[derive(Clone, Copy, PartialEq, Eq, PartialOrd, Ord, Hash, Debug)]
pub struct Dr7Flags(u64);

impl Dr7Flags {
    /// Breakpoint 0 is on for the current task.
    pub const LOCAL_BREAKPOINT_0_ENABLE: Self = Self(1 << 0);

    /// Breakpoint 1 is on for the current task.
    pub const LOCAL_BREAKPOINT_1_ENABLE: Self = Self(1 << 2);

    /// Breakpoint 2 is on for the current task.
    pub const LOCAL_BREAKPOINT_2_ENABLE: Self = Self(1 << 4);

    /// Breakpoint 3 is on for the current task.
    pub const LOCAL_BREAKPOINT_3_ENABLE: Self = Self(1 << 6);

    /// Breakpoint 0 is on for every task.
    pub const GLOBAL_BREAKPOINT_0_ENABLE: Self = Self(1 << 1);

    /// Breakpoint 1 is on for every task.
    pub const GLOBAL_BREAKPOINT_1_ENABLE: Self = Self(1 << 3);

    /// Breakpoint 2 is on for every task.
    pub const GLOBAL_BREAKPOINT_2_ENABLE: Self = Self(1 << 5);

    /// Breakpoint 3 is on for every task.
    pub const GLOBAL_BREAKPOINT_3_ENABLE: Self = Self(1 << 7);

    /// Data breakpoints of the current task name the exact instruction; AMD64 processors ignore it.
    pub const LOCAL_EXACT_BREAKPOINT_ENABLE: Self = Self(1 << 8);

    /// Data breakpoints of every task name the exact instruction; AMD64 processors ignore it.
    pub const GLOBAL_EXACT_BREAKPOINT_ENABLE: Self = Self(1 << 9);

    /// Transactional regions can be debugged.
    pub const RESTRICTED_TRANSACTIONAL_MEMORY: Self = Self(1 << 11);

    /// An access to a debug register faults.
    pub const GENERAL_DETECT_ENABLE: Self = Self(1 << 13);

    const FLAGS: &'static [Flag<Self>] = flag_rows![
        LOCAL_BREAKPOINT_0_ENABLE,
        LOCAL_BREAKPOINT_1_ENABLE,
        LOCAL_BREAKPOINT_2_ENABLE,
        LOCAL_BREAKPOINT_3_ENABLE,
        GLOBAL_BREAKPOINT_0_ENABLE,
        GLOBAL_BREAKPOINT_1_ENABLE,
        GLOBAL_BREAKPOINT_2_ENABLE,
        GLOBAL_BREAKPOINT_3_ENABLE,
        LOCAL_EXACT_BREAKPOINT_ENABLE,
        GLOBAL_EXACT_BREAKPOINT_ENABLE,
        RESTRICTED_TRANSACTIONAL_MEMORY,
        GENERAL_DETECT_ENABLE,
    ];

    /// Each name of the table has the bits of the constant of that name.
    pub fn constants()
        ensures { dr7_flags
            ≡ (codes "LOCAL_BREAKPOINT_0_ENABLE", dr7_bits Self.LOCAL_BREAKPOINT_0_ENABLE)
            ∷ (codes "LOCAL_BREAKPOINT_1_ENABLE", dr7_bits Self.LOCAL_BREAKPOINT_1_ENABLE)
            ∷ (codes "LOCAL_BREAKPOINT_2_ENABLE", dr7_bits Self.LOCAL_BREAKPOINT_2_ENABLE)
            ∷ (codes "LOCAL_BREAKPOINT_3_ENABLE", dr7_bits Self.LOCAL_BREAKPOINT_3_ENABLE)
            ∷ (codes "GLOBAL_BREAKPOINT_0_ENABLE", dr7_bits Self.GLOBAL_BREAKPOINT_0_ENABLE)
            ∷ (codes "GLOBAL_BREAKPOINT_1_ENABLE", dr7_bits Self.GLOBAL_BREAKPOINT_1_ENABLE)
            ∷ (codes "GLOBAL_BREAKPOINT_2_ENABLE", dr7_bits Self.GLOBAL_BREAKPOINT_2_ENABLE)
            ∷ (codes "GLOBAL_BREAKPOINT_3_ENABLE", dr7_bits Self.GLOBAL_BREAKPOINT_3_ENABLE)
            ∷ (codes "LOCAL_EXACT_BREAKPOINT_ENABLE", dr7_bits Self.LOCAL_EXACT_BREAKPOINT_ENABLE)
            ∷ (codes "GLOBAL_EXACT_BREAKPOINT_ENABLE", dr7_bits Self.GLOBAL_EXACT_BREAKPOINT_ENABLE)
            ∷ (codes "RESTRICTED_TRANSACTIONAL_MEMORY", dr7_bits Self.RESTRICTED_TRANSACTIONAL_MEMORY)
            ∷ (codes "GENERAL_DETECT_ENABLE", dr7_bits Self.GENERAL_DETECT_ENABLE)
            ∷ [] }
    {}

    /// The flag that turns the breakpoint in this debug address register on for the current task.
    pub fn local_breakpoint_enable(n: DebugAddressRegisterNumber) -> Self
        ensures { dr7_bits result ≡ 2 ^ (2 * register_number n) }
    {
        match n {
            DebugAddressRegisterNumber::Dr0 => Self::LOCAL_BREAKPOINT_0_ENABLE,
            DebugAddressRegisterNumber::Dr1 => Self::LOCAL_BREAKPOINT_1_ENABLE,
            DebugAddressRegisterNumber::Dr2 => Self::LOCAL_BREAKPOINT_2_ENABLE,
            DebugAddressRegisterNumber::Dr3 => Self::LOCAL_BREAKPOINT_3_ENABLE,
        }
    }

    /// The flag that turns the breakpoint in this debug address register on for every task.
    pub fn global_breakpoint_enable(n: DebugAddressRegisterNumber) -> Self
        ensures { dr7_bits result ≡ 2 ^ (2 * register_number n + 1) }
    {
        match n {
            DebugAddressRegisterNumber::Dr0 => Self::GLOBAL_BREAKPOINT_0_ENABLE,
            DebugAddressRegisterNumber::Dr1 => Self::GLOBAL_BREAKPOINT_1_ENABLE,
            DebugAddressRegisterNumber::Dr2 => Self::GLOBAL_BREAKPOINT_2_ENABLE,
            DebugAddressRegisterNumber::Dr3 => Self::GLOBAL_BREAKPOINT_3_ENABLE,
        }
    }
}

impl Flags for Dr7Flags {
    type Bits = u64;

    ghost exact = { ⊤ };

    ghost table = { dr7_flags };

    ghost set_of = { dr7_bits };

    fn flags<'a>() -> &'a [Flag<Self>] {
        Self::FLAGS
    }

    fn bits(&self) -> u64 {
        self.0
    }

    fn from_bits_retain(bits: u64) -> Self {
        Self(bits)
    }
}

impl BitOr for Dr7Flags {
    type Output = Self;

    ghost bitor_gives = { λ left right all. dr7_bits all ≡ bit_or (dr7_bits left) (dr7_bits right) };

    fn bitor(self, other: Self) -> Self {
        Self(self.0 | other.0)
    }
}
