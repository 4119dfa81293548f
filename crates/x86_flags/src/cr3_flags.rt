//! The flags of the control register CR3.

ghost use Rattle.std.specs.Prelude.{◌≡◌, ⊤, [], ◌∷◌, codes};
ghost use Rattle.std.specs.Int.RustNames.{bit_or};
ghost use Rattle.x86_flags.specs.Cr3Flags.{cr3_bits, cr3_flags};

use bitflags::{Flag, Flags};
use std::ops::BitOr;

/// How the top page table is cached.
///
/// Source: AMD64 manual, volume 2, section 3.1.2.
#[derive(Clone, Copy, PartialEq, Eq, PartialOrd, Ord, Hash, Debug)]
pub struct Cr3Flags(u64);

impl Cr3Flags {
    /// The top table is cached with writes going through to memory.
    pub const PAGE_LEVEL_WRITETHROUGH: Self = Self(1 << 3);

    /// The top table is not cached.
    pub const PAGE_LEVEL_CACHE_DISABLE: Self = Self(1 << 4);

    const FLAGS: &'static [Flag<Self>] = flag_rows![
        PAGE_LEVEL_WRITETHROUGH,
        PAGE_LEVEL_CACHE_DISABLE,
    ];

    /// Each name of the table has the bits of the constant of that name.
    pub fn constants()
        ensures { cr3_flags
            ≡ (codes "PAGE_LEVEL_WRITETHROUGH", cr3_bits Self.PAGE_LEVEL_WRITETHROUGH)
            ∷ (codes "PAGE_LEVEL_CACHE_DISABLE", cr3_bits Self.PAGE_LEVEL_CACHE_DISABLE)
            ∷ [] }
    {}
}

impl Flags for Cr3Flags {
    type Bits = u64;

    ghost exact = { ⊤ };

    ghost table = { cr3_flags };

    ghost set_of = { cr3_bits };

    fn flags<'a>() -> &'a [Flag<Self>] {
        Self::FLAGS
    }

    fn bits(&self) -> u64 {
        self.0
    }

    fn from_bits_retain(bits: u64) -> Self {
        Self(bits)
    }
}

impl BitOr for Cr3Flags {
    type Output = Self;

    ghost bitor_gives = { λ left right all. cr3_bits all ≡ bit_or (cr3_bits left) (cr3_bits right) };

    fn bitor(self, other: Self) -> Self {
        Self(self.0 | other.0)
    }
}
