//! The flags of the APIC base register.

ghost use Rattle.std.specs.Prelude.{◌≡◌, ⊤, [], ◌∷◌, codes};
ghost use Rattle.std.specs.Int.RustNames.{bit_or};
ghost use Rattle.x86_flags.specs.ApicBaseFlags.{apic_base_bits, apic_base_flags};

use bitflags::{Flag, Flags};
use std::ops::BitOr;

/// How the local interrupt controller is turned on, besides its base address.
///
/// Source: AMD64 manual, volume 2, section 16.3.1.
#[derive(Clone, Copy, PartialEq, Eq, PartialOrd, Ord, Hash, Debug)]
pub struct ApicBaseFlags(u64);

impl ApicBaseFlags {
    /// This is the processor that the machine booted on.
    pub const BSP: Self = Self(1 << 8);

    /// The x2APIC mode is on.
    pub const X2APIC_ENABLE: Self = Self(1 << 10);

    /// The local interrupt controller is on.
    pub const LAPIC_ENABLE: Self = Self(1 << 11);

    const FLAGS: &'static [Flag<Self>] = flag_rows![BSP, X2APIC_ENABLE, LAPIC_ENABLE,];

    /// Each name of the table has the bits of the constant of that name.
    pub fn constants()
        ensures { apic_base_flags
            ≡ (codes "BSP", apic_base_bits Self.BSP)
            ∷ (codes "X2APIC_ENABLE", apic_base_bits Self.X2APIC_ENABLE)
            ∷ (codes "LAPIC_ENABLE", apic_base_bits Self.LAPIC_ENABLE)
            ∷ [] }
    {}
}

impl Flags for ApicBaseFlags {
    type Bits = u64;

    ghost exact = { ⊤ };

    ghost table = { apic_base_flags };

    ghost set_of = { apic_base_bits };

    fn flags<'a>() -> &'a [Flag<Self>] {
        Self::FLAGS
    }

    fn bits(&self) -> u64 {
        self.0
    }

    fn from_bits_retain(bits: u64) -> Self {
        Self(bits)
    }
}

impl BitOr for ApicBaseFlags {
    type Output = Self;

    ghost bitor_gives = { λ left right all. apic_base_bits all ≡ bit_or (apic_base_bits left) (apic_base_bits right) };

    fn bitor(self, other: Self) -> Self {
        Self(self.0 | other.0)
    }
}
