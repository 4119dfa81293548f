//! How much a breakpoint watches.

ghost use Rattle.std.specs.Prelude.{◌≡◌, ◌≤◌, ◌↔◌, ◌⊎◌, IsNone, IsSome, IfSome};
ghost use Rattle.x86_flags.specs.BreakpointSize.{size_bits, size_bytes};

/// How many bytes a breakpoint watches.
///
/// Source: AMD64 manual, volume 2, section 13.1.1.
#[derive(Clone, Copy, PartialEq, Eq, Debug)]
pub enum BreakpointSize {
    /// One byte.
    Length1B = 0b00,
    /// Two bytes.
    Length2B = 0b01,
    /// Eight bytes.
    Length8B = 0b10,
    /// Four bytes.
    Length4B = 0b11,
}

impl BreakpointSize {
    /// The size of 1, 2, 4 or 8 bytes, or none.
    pub fn new(size: usize) -> Option<Self>
        ensures some { IsSome result ↔ ((size ≡ 1) ⊎ (size ≡ 2) ⊎ (size ≡ 4) ⊎ (size ≡ 8)) }
        ensures bytes { IfSome result (λ s. size_bytes s ≡ size) }
    {
        match size {
            1 => Some(Self::Length1B),
            2 => Some(Self::Length2B),
            8 => Some(Self::Length8B),
            4 => Some(Self::Length4B),
            _ => None,
        }
    }

    /// The size of two bits of DR7, or none from 4 on.
    pub fn from_bits(bits: u64) -> Option<Self>
        ensures none { IsNone result ↔ (4 ≤ bits) }
        ensures size { IfSome result (λ size. size_bits size ≡ bits) }
    {
        match bits {
            0b00 => Some(Self::Length1B),
            0b01 => Some(Self::Length2B),
            0b10 => Some(Self::Length8B),
            0b11 => Some(Self::Length4B),
            _ => None,
        }
    }
}
