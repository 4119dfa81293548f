//! The flags of the registers U_CET and S_CET of control-flow enforcement.

ghost use Rattle.std.specs.Prelude.{◌≡◌, ⊤, [], ◌∷◌, codes};
ghost use Rattle.std.specs.Int.RustNames.{bit_or};
ghost use Rattle.x86_flags.specs.CetFlags.{cet_bits, cet_flags};

use bitflags::{Flag, Flags};
use std::ops::BitOr;

/// Which parts of control-flow enforcement are on.
///
/// Source: AMD64 manual, volume 2, chapter 18, for the shadow stack; the rest is Intel's alone.
#[derive(Clone, Copy, PartialEq, Eq, PartialOrd, Ord, Hash, Debug)]
pub struct CetFlags(u64);

impl CetFlags {
    /// The shadow stack is on.
    pub const SS_ENABLE: Self = Self(1 << 0);

    /// `WRSS` may write to a shadow stack.
    pub const SS_WRITE_ENABLE: Self = Self(1 << 1);

    /// Indirect branches are tracked.
    pub const IBT_ENABLE: Self = Self(1 << 2);

    /// Pages of the legacy bitmap may be branched to without tracking.
    pub const IBT_LEGACY_ENABLE: Self = Self(1 << 3);

    /// The prefix that turns tracking off for one branch works.
    pub const IBT_NO_TRACK_ENABLE: Self = Self(1 << 4);

    /// Tracking is not suppressed for a branch to a legacy page.
    pub const IBT_LEGACY_SUPPRESS_ENABLE: Self = Self(1 << 5);

    /// Tracking is suppressed.
    pub const IBT_SUPPRESS_ENABLE: Self = Self(1 << 10);

    /// The next instruction has to be a target of indirect branches.
    pub const IBT_TRACKED: Self = Self(1 << 11);

    const FLAGS: &'static [Flag<Self>] = flag_rows![
        SS_ENABLE,
        SS_WRITE_ENABLE,
        IBT_ENABLE,
        IBT_LEGACY_ENABLE,
        IBT_NO_TRACK_ENABLE,
        IBT_LEGACY_SUPPRESS_ENABLE,
        IBT_SUPPRESS_ENABLE,
        IBT_TRACKED,
    ];

    /// Each name of the table has the bits of the constant of that name.
    pub fn constants()
        ensures { cet_flags
            ≡ (codes "SS_ENABLE", cet_bits Self.SS_ENABLE)
            ∷ (codes "SS_WRITE_ENABLE", cet_bits Self.SS_WRITE_ENABLE)
            ∷ (codes "IBT_ENABLE", cet_bits Self.IBT_ENABLE)
            ∷ (codes "IBT_LEGACY_ENABLE", cet_bits Self.IBT_LEGACY_ENABLE)
            ∷ (codes "IBT_NO_TRACK_ENABLE", cet_bits Self.IBT_NO_TRACK_ENABLE)
            ∷ (codes "IBT_LEGACY_SUPPRESS_ENABLE", cet_bits Self.IBT_LEGACY_SUPPRESS_ENABLE)
            ∷ (codes "IBT_SUPPRESS_ENABLE", cet_bits Self.IBT_SUPPRESS_ENABLE)
            ∷ (codes "IBT_TRACKED", cet_bits Self.IBT_TRACKED)
            ∷ [] }
    {}
}

impl Flags for CetFlags {
    type Bits = u64;

    ghost exact = { ⊤ };

    ghost table = { cet_flags };

    ghost set_of = { cet_bits };

    fn flags<'a>() -> &'a [Flag<Self>] {
        Self::FLAGS
    }

    fn bits(&self) -> u64 {
        self.0
    }

    fn from_bits_retain(bits: u64) -> Self {
        Self(bits)
    }
}

impl BitOr for CetFlags {
    type Output = Self;

    ghost bitor_gives = { λ left right all. cet_bits all ≡ bit_or (cet_bits left) (cet_bits right) };

    fn bitor(self, other: Self) -> Self {
        Self(self.0 | other.0)
    }
}
