//! The flags of the extended control register XCR0.

ghost use Rattle.std.specs.Prelude.{◌≡◌, ⊤, [], ◌∷◌, codes};
ghost use Rattle.std.specs.Int.RustNames.{bit_or};
ghost use Rattle.x86_flags.specs.XCr0Flags.{xcr0_bits, xcr0_flags};

use bitflags::{Flag, Flags};
use std::ops::BitOr;

/// Which parts of the processor state `XSAVE` and its kin save.
///
/// Source: AMD64 manual, volume 2, section 11.5.2.
#[derive(Clone, Copy, PartialEq, Eq, PartialOrd, Ord, Hash, Debug)]
pub struct XCr0Flags(u64);

impl XCr0Flags {
    /// The x87 state; always set.
    pub const X87: Self = Self(1 << 0);

    /// The XMM registers and MXCSR.
    pub const SSE: Self = Self(1 << 1);

    /// The high halves of the YMM registers.
    pub const AVX: Self = Self(1 << 2);

    /// The bound registers of MPX.
    pub const BNDREG: Self = Self(1 << 3);

    /// The configuration of MPX.
    pub const BNDCSR: Self = Self(1 << 4);

    /// The mask registers of AVX-512.
    pub const OPMASK: Self = Self(1 << 5);

    /// The high halves of the low sixteen ZMM registers.
    pub const ZMM_HI256: Self = Self(1 << 6);

    /// The high sixteen ZMM registers.
    pub const HI16_ZMM: Self = Self(1 << 7);

    /// The register PKRU of the protection keys.
    pub const MPK: Self = Self(1 << 9);

    /// The state of lightweight profiling.
    pub const LWP: Self = Self(1 << 62);

    const FLAGS: &'static [Flag<Self>] = flag_rows![
        X87, SSE, AVX, BNDREG, BNDCSR, OPMASK, ZMM_HI256, HI16_ZMM, MPK, LWP,
    ];

    /// Each name of the table has the bits of the constant of that name.
    pub fn constants()
        ensures { xcr0_flags
            ≡ (codes "X87", xcr0_bits Self.X87)
            ∷ (codes "SSE", xcr0_bits Self.SSE)
            ∷ (codes "AVX", xcr0_bits Self.AVX)
            ∷ (codes "BNDREG", xcr0_bits Self.BNDREG)
            ∷ (codes "BNDCSR", xcr0_bits Self.BNDCSR)
            ∷ (codes "OPMASK", xcr0_bits Self.OPMASK)
            ∷ (codes "ZMM_HI256", xcr0_bits Self.ZMM_HI256)
            ∷ (codes "HI16_ZMM", xcr0_bits Self.HI16_ZMM)
            ∷ (codes "MPK", xcr0_bits Self.MPK)
            ∷ (codes "LWP", xcr0_bits Self.LWP)
            ∷ [] }
    {}
}

impl Flags for XCr0Flags {
    type Bits = u64;

    ghost exact = { ⊤ };

    ghost table = { xcr0_flags };

    ghost set_of = { xcr0_bits };

    fn flags<'a>() -> &'a [Flag<Self>] {
        Self::FLAGS
    }

    fn bits(&self) -> u64 {
        self.0
    }

    fn from_bits_retain(bits: u64) -> Self {
        Self(bits)
    }
}

impl BitOr for XCr0Flags {
    type Output = Self;

    ghost bitor_gives = { λ left right all. xcr0_bits all ≡ bit_or (xcr0_bits left) (xcr0_bits right) };

    fn bitor(self, other: Self) -> Self {
        Self(self.0 | other.0)
    }
}
