//! The flags of the extended feature enable register.

ghost use Rattle.std.specs.Prelude.{◌≡◌, ⊤, [], ◌∷◌, codes};
ghost use Rattle.std.specs.Int.RustNames.{bit_or};
ghost use Rattle.x86_flags.specs.EferFlags.{efer_bits, efer_flags};

use bitflags::{Flag, Flags};
use std::ops::BitOr;

/// Which extended features are on.
///
/// Source: AMD64 manual, volume 2, section 3.1.7.
#[derive(Clone, Copy, PartialEq, Eq, PartialOrd, Ord, Hash, Debug)]
pub struct EferFlags(u64);

impl EferFlags {
    /// `SYSCALL` and `SYSRET` work.
    pub const SYSTEM_CALL_EXTENSIONS: Self = Self(1 << 0);

    /// Long mode is on as soon as paging is.
    pub const LONG_MODE_ENABLE: Self = Self(1 << 8);

    /// Long mode is on; the processor sets it.
    pub const LONG_MODE_ACTIVE: Self = Self(1 << 10);

    /// A page-table entry may forbid running code.
    pub const NO_EXECUTE_ENABLE: Self = Self(1 << 11);

    /// The SVM instructions work.
    pub const SECURE_VIRTUAL_MACHINE_ENABLE: Self = Self(1 << 12);

    /// Segment limits are tested in 64-bit mode, too.
    pub const LONG_MODE_SEGMENT_LIMIT_ENABLE: Self = Self(1 << 13);

    /// `FXSAVE` and `FXRSTOR` leave the XMM registers out in ring 0 of 64-bit mode.
    pub const FAST_FXSAVE_FXRSTOR: Self = Self(1 << 14);

    /// `INVLPG` leaves cached upper entries of other pages alone.
    pub const TRANSLATION_CACHE_EXTENSION: Self = Self(1 << 15);

    const FLAGS: &'static [Flag<Self>] = flag_rows![
        SYSTEM_CALL_EXTENSIONS,
        LONG_MODE_ENABLE,
        LONG_MODE_ACTIVE,
        NO_EXECUTE_ENABLE,
        SECURE_VIRTUAL_MACHINE_ENABLE,
        LONG_MODE_SEGMENT_LIMIT_ENABLE,
        FAST_FXSAVE_FXRSTOR,
        TRANSLATION_CACHE_EXTENSION,
    ];

    /// Each name of the table has the bits of the constant of that name.
    pub fn constants()
        ensures { efer_flags
            ≡ (codes "SYSTEM_CALL_EXTENSIONS", efer_bits Self.SYSTEM_CALL_EXTENSIONS)
            ∷ (codes "LONG_MODE_ENABLE", efer_bits Self.LONG_MODE_ENABLE)
            ∷ (codes "LONG_MODE_ACTIVE", efer_bits Self.LONG_MODE_ACTIVE)
            ∷ (codes "NO_EXECUTE_ENABLE", efer_bits Self.NO_EXECUTE_ENABLE)
            ∷ (codes "SECURE_VIRTUAL_MACHINE_ENABLE", efer_bits Self.SECURE_VIRTUAL_MACHINE_ENABLE)
            ∷ (codes "LONG_MODE_SEGMENT_LIMIT_ENABLE", efer_bits Self.LONG_MODE_SEGMENT_LIMIT_ENABLE)
            ∷ (codes "FAST_FXSAVE_FXRSTOR", efer_bits Self.FAST_FXSAVE_FXRSTOR)
            ∷ (codes "TRANSLATION_CACHE_EXTENSION", efer_bits Self.TRANSLATION_CACHE_EXTENSION)
            ∷ [] }
    {}
}

impl Flags for EferFlags {
    type Bits = u64;

    ghost exact = { ⊤ };

    ghost table = { efer_flags };

    ghost set_of = { efer_bits };

    fn flags<'a>() -> &'a [Flag<Self>] {
        Self::FLAGS
    }

    fn bits(&self) -> u64 {
        self.0
    }

    fn from_bits_retain(bits: u64) -> Self {
        Self(bits)
    }
}

impl BitOr for EferFlags {
    type Output = Self;

    ghost bitor_gives = { λ left right all. efer_bits all ≡ bit_or (efer_bits left) (efer_bits right) };

    fn bitor(self, other: Self) -> Self {
        Self(self.0 | other.0)
    }
}
