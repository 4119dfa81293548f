//! The flags of the SIMD control and status register MXCSR.

ghost use Rattle.std.specs.Prelude.{◌≡◌, ⊤, [], ◌∷◌, codes};
ghost use Rattle.std.specs.Int.RustNames.{bit_or};
ghost use Rattle.x86_flags.specs.MxCsr.{mxcsr_bits, mxcsr_flags};

use bitflags::{Flag, Flags};
use std::ops::BitOr;

/// What SIMD floating-point instructions met, which errors are masked, and how they round.
///
/// Source: AMD64 manual, volume 1, section 4.2.2.
#[derive(Clone, Copy, PartialEq, Eq, PartialOrd, Ord, Hash, Debug)]
pub struct MxCsr(u32);

impl MxCsr {
    /// An operation was invalid.
    pub const INVALID_OPERATION: Self = Self(1 << 0);

    /// An operand was denormal.
    pub const DENORMAL: Self = Self(1 << 1);

    /// A number was divided by zero.
    pub const DIVIDE_BY_ZERO: Self = Self(1 << 2);

    /// A result was too large.
    pub const OVERFLOW: Self = Self(1 << 3);

    /// A result was too small.
    pub const UNDERFLOW: Self = Self(1 << 4);

    /// A result was rounded.
    pub const PRECISION: Self = Self(1 << 5);

    /// A denormal operand is taken as zero.
    pub const DENORMALS_ARE_ZEROS: Self = Self(1 << 6);

    /// An invalid operation raises no exception.
    pub const INVALID_OPERATION_MASK: Self = Self(1 << 7);

    /// A denormal operand raises no exception.
    pub const DENORMAL_MASK: Self = Self(1 << 8);

    /// A division by zero raises no exception.
    pub const DIVIDE_BY_ZERO_MASK: Self = Self(1 << 9);

    /// A result that is too large raises no exception.
    pub const OVERFLOW_MASK: Self = Self(1 << 10);

    /// A result that is too small raises no exception.
    pub const UNDERFLOW_MASK: Self = Self(1 << 11);

    /// A rounded result raises no exception.
    pub const PRECISION_MASK: Self = Self(1 << 12);

    /// Results are rounded down.
    pub const ROUNDING_CONTROL_NEGATIVE: Self = Self(1 << 13);

    /// Results are rounded up.
    pub const ROUNDING_CONTROL_POSITIVE: Self = Self(1 << 14);

    /// Results are rounded to zero.
    pub const ROUNDING_CONTROL_ZERO: Self = Self(0b11 << 13);

    /// A result that is too small becomes zero.
    pub const FLUSH_TO_ZERO: Self = Self(1 << 15);

    const FLAGS: &'static [Flag<Self>] = flag_rows![
        INVALID_OPERATION,
        DENORMAL,
        DIVIDE_BY_ZERO,
        OVERFLOW,
        UNDERFLOW,
        PRECISION,
        DENORMALS_ARE_ZEROS,
        INVALID_OPERATION_MASK,
        DENORMAL_MASK,
        DIVIDE_BY_ZERO_MASK,
        OVERFLOW_MASK,
        UNDERFLOW_MASK,
        PRECISION_MASK,
        ROUNDING_CONTROL_NEGATIVE,
        ROUNDING_CONTROL_POSITIVE,
        ROUNDING_CONTROL_ZERO,
        FLUSH_TO_ZERO,
    ];

    /// Each name of the table has the bits of the constant of that name.
    pub fn constants()
        ensures { mxcsr_flags
            ≡ (codes "INVALID_OPERATION", mxcsr_bits Self.INVALID_OPERATION)
            ∷ (codes "DENORMAL", mxcsr_bits Self.DENORMAL)
            ∷ (codes "DIVIDE_BY_ZERO", mxcsr_bits Self.DIVIDE_BY_ZERO)
            ∷ (codes "OVERFLOW", mxcsr_bits Self.OVERFLOW)
            ∷ (codes "UNDERFLOW", mxcsr_bits Self.UNDERFLOW)
            ∷ (codes "PRECISION", mxcsr_bits Self.PRECISION)
            ∷ (codes "DENORMALS_ARE_ZEROS", mxcsr_bits Self.DENORMALS_ARE_ZEROS)
            ∷ (codes "INVALID_OPERATION_MASK", mxcsr_bits Self.INVALID_OPERATION_MASK)
            ∷ (codes "DENORMAL_MASK", mxcsr_bits Self.DENORMAL_MASK)
            ∷ (codes "DIVIDE_BY_ZERO_MASK", mxcsr_bits Self.DIVIDE_BY_ZERO_MASK)
            ∷ (codes "OVERFLOW_MASK", mxcsr_bits Self.OVERFLOW_MASK)
            ∷ (codes "UNDERFLOW_MASK", mxcsr_bits Self.UNDERFLOW_MASK)
            ∷ (codes "PRECISION_MASK", mxcsr_bits Self.PRECISION_MASK)
            ∷ (codes "ROUNDING_CONTROL_NEGATIVE", mxcsr_bits Self.ROUNDING_CONTROL_NEGATIVE)
            ∷ (codes "ROUNDING_CONTROL_POSITIVE", mxcsr_bits Self.ROUNDING_CONTROL_POSITIVE)
            ∷ (codes "ROUNDING_CONTROL_ZERO", mxcsr_bits Self.ROUNDING_CONTROL_ZERO)
            ∷ (codes "FLUSH_TO_ZERO", mxcsr_bits Self.FLUSH_TO_ZERO)
            ∷ [] }
    {}
}

impl Flags for MxCsr {
    type Bits = u32;

    ghost exact = { ⊤ };

    ghost table = { mxcsr_flags };

    ghost set_of = { mxcsr_bits };

    fn flags<'a>() -> &'a [Flag<Self>] {
        Self::FLAGS
    }

    fn bits(&self) -> u32 {
        self.0
    }

    fn from_bits_retain(bits: u32) -> Self {
        Self(bits)
    }
}

impl BitOr for MxCsr {
    type Output = Self;

    ghost bitor_gives = { λ left right all. mxcsr_bits all ≡ bit_or (mxcsr_bits left) (mxcsr_bits right) };

    fn bitor(self, other: Self) -> Self {
        Self(self.0 | other.0)
    }
}

/// The value after a reset: every error is masked.
impl Default for MxCsr {
    ghost is_default = { λ value. mxcsr_bits value ≡ 0x1F80 };

    fn default() -> Self {
        Self::INVALID_OPERATION_MASK
            | Self::DENORMAL_MASK
            | Self::DIVIDE_BY_ZERO_MASK
            | Self::OVERFLOW_MASK
            | Self::UNDERFLOW_MASK
            | Self::PRECISION_MASK
    }
}
