//! The flags of a segment descriptor.

ghost use Rattle.std.specs.Prelude.{◌≡◌, ⊤, [], ◌∷◌, codes};
ghost use Rattle.std.specs.Int.RustNames.{bit_or};
ghost use Rattle.x86_tables.specs.DescriptorFlags.{descriptor_bits, descriptor_flags};

use bitflags::{Flag, Flags};
use std::ops::BitOr;
use x86_flags::flag_rows;

/// The flags and fields of a code or data segment descriptor. Those of the base and the limit are fields,
/// and each stands here with all its bits.
///
/// Source: AMD64 manual, volume 2, sections 4.7.1 and 4.8.
#[derive(Clone, Copy, PartialEq, Eq, PartialOrd, Ord, Hash, Debug)]
pub struct DescriptorFlags(u64);

impl DescriptorFlags {
    /// The segment was loaded; set by the processor.
    pub const ACCESSED: Self = Self(1 << 40);

    /// A data segment can be written, a code segment can be read. Ignored in 64-bit mode.
    pub const WRITABLE: Self = Self(1 << 41);

    /// Code of a less privileged ring may enter a code segment and keep its ring. In a data segment, the
    /// limit is its lower end.
    pub const CONFORMING: Self = Self(1 << 42);

    /// A code segment; if clear, a data segment.
    pub const EXECUTABLE: Self = Self(1 << 43);

    /// A code or data segment; if clear, a system segment or a gate.
    pub const USER_SEGMENT: Self = Self(1 << 44);

    /// The field of the ring that may use the segment: both bits set are ring 3.
    pub const DPL_RING_3: Self = Self(0b11 << 45);

    /// The segment is there.
    pub const PRESENT: Self = Self(1 << 47);

    /// Free for software.
    pub const AVAILABLE: Self = Self(1 << 52);

    /// A code segment of 64-bit code.
    pub const LONG_MODE: Self = Self(1 << 53);

    /// Operands have 32 bits by default, not 16. Clear in a segment of 64-bit code.
    pub const DEFAULT_SIZE: Self = Self(1 << 54);

    /// The limit counts pages of 4096 bytes, not bytes.
    pub const GRANULARITY: Self = Self(1 << 55);

    /// The field of bits 0 to 15 of the limit.
    pub const LIMIT_0_15: Self = Self(0xFFFF);

    /// The field of bits 16 to 19 of the limit.
    pub const LIMIT_16_19: Self = Self(0xF << 48);

    /// The field of bits 0 to 23 of the base.
    pub const BASE_0_23: Self = Self(0xFF_FFFF << 16);

    /// The field of bits 24 to 31 of the base.
    pub const BASE_24_31: Self = Self(0xFF << 56);

    // What the six segments below have in common: they are there, were accessed, can be written or read, and
    // reach over the whole address space.
    const COMMON: Self = Self(
        Self::USER_SEGMENT.0
            | Self::PRESENT.0
            | Self::WRITABLE.0
            | Self::ACCESSED.0
            | Self::LIMIT_0_15.0
            | Self::LIMIT_16_19.0
            | Self::GRANULARITY.0,
    );

    /// A data segment of the kernel.
    pub const KERNEL_DATA: Self = Self(Self::COMMON.0 | Self::DEFAULT_SIZE.0);

    /// A 32-bit code segment of the kernel.
    pub const KERNEL_CODE32: Self = Self(
        Self::COMMON.0 | Self::EXECUTABLE.0 | Self::DEFAULT_SIZE.0,
    );

    /// A 64-bit code segment of the kernel.
    pub const KERNEL_CODE64: Self = Self(Self::COMMON.0 | Self::EXECUTABLE.0 | Self::LONG_MODE.0);

    /// A data segment of user code.
    pub const USER_DATA: Self = Self(Self::KERNEL_DATA.0 | Self::DPL_RING_3.0);

    /// A 32-bit code segment of user code.
    pub const USER_CODE32: Self = Self(Self::KERNEL_CODE32.0 | Self::DPL_RING_3.0);

    /// A 64-bit code segment of user code.
    pub const USER_CODE64: Self = Self(Self::KERNEL_CODE64.0 | Self::DPL_RING_3.0);

    const FLAGS: &'static [Flag<Self>] = flag_rows![
        ACCESSED,
        WRITABLE,
        CONFORMING,
        EXECUTABLE,
        USER_SEGMENT,
        DPL_RING_3,
        PRESENT,
        AVAILABLE,
        LONG_MODE,
        DEFAULT_SIZE,
        GRANULARITY,
        LIMIT_0_15,
        LIMIT_16_19,
        BASE_0_23,
        BASE_24_31,
    ];

    /// Each name of the table has the bits of the constant of that name.
    pub fn constants()
        ensures { descriptor_flags
            ≡ (codes "ACCESSED", descriptor_bits Self.ACCESSED)
            ∷ (codes "WRITABLE", descriptor_bits Self.WRITABLE)
            ∷ (codes "CONFORMING", descriptor_bits Self.CONFORMING)
            ∷ (codes "EXECUTABLE", descriptor_bits Self.EXECUTABLE)
            ∷ (codes "USER_SEGMENT", descriptor_bits Self.USER_SEGMENT)
            ∷ (codes "DPL_RING_3", descriptor_bits Self.DPL_RING_3)
            ∷ (codes "PRESENT", descriptor_bits Self.PRESENT)
            ∷ (codes "AVAILABLE", descriptor_bits Self.AVAILABLE)
            ∷ (codes "LONG_MODE", descriptor_bits Self.LONG_MODE)
            ∷ (codes "DEFAULT_SIZE", descriptor_bits Self.DEFAULT_SIZE)
            ∷ (codes "GRANULARITY", descriptor_bits Self.GRANULARITY)
            ∷ (codes "LIMIT_0_15", descriptor_bits Self.LIMIT_0_15)
            ∷ (codes "LIMIT_16_19", descriptor_bits Self.LIMIT_16_19)
            ∷ (codes "BASE_0_23", descriptor_bits Self.BASE_0_23)
            ∷ (codes "BASE_24_31", descriptor_bits Self.BASE_24_31)
            ∷ [] }
    {}
}

impl Flags for DescriptorFlags {
    type Bits = u64;

    ghost exact = { ⊤ };

    ghost table = { descriptor_flags };

    ghost set_of = { descriptor_bits };

    fn flags<'a>() -> &'a [Flag<Self>] {
        Self::FLAGS
    }

    fn bits(&self) -> u64 {
        self.0
    }

    fn from_bits_retain(bits: u64) -> Self {
        Self(bits)
    }
}

impl BitOr for DescriptorFlags {
    type Output = Self;

    ghost bitor_gives = { λ left right all. descriptor_bits all ≡ bit_or (descriptor_bits left) (descriptor_bits right) };

    fn bitor(self, other: Self) -> Self {
        Self(self.0 | other.0)
    }
}
