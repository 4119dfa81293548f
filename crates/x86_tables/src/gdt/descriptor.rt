//! Segment descriptors.

ghost use Rattle.std.specs.Prelude.{◌≡◌, ◌+◌, ◌≤◌, ◌^◌, max, []};
ghost use Rattle.x86_flags.specs.PrivilegeLevel.{level_number};
ghost use Rattle.x86_tables.specs.Descriptor.{level_of, tss_descriptor, tss_end};
ghost use Rattle.x86_tables.specs.IoMap.{iomap_verdict};

use crate::gdt::descriptor_flags::DescriptorFlags;
use crate::tss::{InvalidIoMap, TaskStateSegment};
use bitflags::Flags;
use paging_core::{VirtAddr, get_bits, set_bits};
use x86_flags::PrivilegeLevel;

/// The greatest length of an I/O permission map: a bit for each port, and the byte that ends it.
const IOMAP_LENGTH: usize = 8193;

/// The greatest distance of an I/O permission map from its task state segment.
const IOMAP_DISTANCE: u64 = 0xdfff;

/// A descriptor of the global descriptor table, by the words that it takes there.
///
/// Source: AMD64 manual, volume 2, section 4.8.
#[derive(Clone, Copy, Debug)]
pub enum Descriptor {
    /// A code or data segment.
    UserSegment(u64),
    /// A system segment, such as a task state segment: its low and its high word.
    SystemSegment(u64, u64),
}

impl Descriptor {
    /// The ring that may use the segment: bits 45 and 46 of the low word.
    pub fn dpl(self) -> PrivilegeLevel
        ensures { level_number result ≡ level_of self }
    {
        let low = match self {
            Self::UserSegment(word) => word,
            Self::SystemSegment(low, _) => low,
        };
        PrivilegeLevel::from_u16(get_bits(low, 45, 47) as u16)
    }

    /// A 64-bit code segment of the kernel.
    pub fn kernel_code_segment() -> Descriptor
        ensures { result ≡ Descriptor.UserSegment 0x00af9b000000ffff }
    {
        Self::UserSegment(DescriptorFlags::KERNEL_CODE64.bits())
    }

    /// A data segment of the kernel.
    pub fn kernel_data_segment() -> Descriptor
        ensures { result ≡ Descriptor.UserSegment 0x00cf93000000ffff }
    {
        Self::UserSegment(DescriptorFlags::KERNEL_DATA.bits())
    }

    /// A data segment of user code.
    pub fn user_data_segment() -> Descriptor
        ensures { result ≡ Descriptor.UserSegment 0x00cff3000000ffff }
    {
        Self::UserSegment(DescriptorFlags::USER_DATA.bits())
    }

    /// A 64-bit code segment of user code.
    pub fn user_code_segment() -> Descriptor
        ensures { result ≡ Descriptor.UserSegment 0x00affb000000ffff }
    {
        Self::UserSegment(DescriptorFlags::USER_CODE64.bits())
    }

    /// The task state segment that lies at `tss_at`, without an I/O permission map.
    pub fn tss_segment(tss_at: VirtAddr, tss: &TaskStateSegment) -> Descriptor
        ensures { result ≡ tss_descriptor tss_at (tss_end tss.now.iomap_base []) }
    {
        Self::tss_segment_raw(tss_at, tss.iomap_base, 0)
    }

    /// The task state segment that lies at `tss_at`, with the I/O permission map that lies at `iomap_at`.
    ///
    /// # Errors
    ///
    /// The first that holds, in this order: `TooLong`, if the map has more than 8193 bytes; `IoMapBeforeTss`, if the
    /// map lies before the segment; `TooFarFromTss`, if it lies more than 0xdfff bytes after the segment;
    /// `InvalidTerminatingByte`, if the map's last byte is not 0xff; `InvalidBase`, if the segment's `iomap_base` is
    /// not the map's distance from the segment.
    pub fn tss_segment_with_iomap(
        tss_at: VirtAddr,
        tss: &TaskStateSegment,
        iomap_at: VirtAddr,
        iomap: &[u8],
    ) -> Result<Descriptor, InvalidIoMap>
        ensures { result ≡ iomap_verdict tss_at tss.now.iomap_base iomap_at iomap.now }
    {
        let len = iomap.len();
        if len > IOMAP_LENGTH {
            return Err(InvalidIoMap::TooLong { len });
        }
        let (from, to) = (tss_at.as_u64(), iomap_at.as_u64());
        if to < from {
            return Err(InvalidIoMap::IoMapBeforeTss);
        }
        if to - from > IOMAP_DISTANCE {
            let distance = (to - from) as usize;
            return Err(InvalidIoMap::TooFarFromTss { distance });
        }
        let byte = if len == 0 { 0xff } else { iomap[len - 1] };
        if byte != 0xff {
            return Err(InvalidIoMap::InvalidTerminatingByte { byte });
        }
        let (expected, got) = ((to - from) as u16, tss.iomap_base);
        if expected != got {
            return Err(InvalidIoMap::InvalidBase { expected, got });
        }
        Ok(Self::tss_segment_raw(tss_at, got, len as u16))
    }

    /// The task state segment that lies at `tss_at`, with an I/O permission map of this length at this
    /// distance.
    fn tss_segment_raw(tss_at: VirtAddr, iomap_base: u16, iomap_len: u16) -> Descriptor
        requires { iomap_base + iomap_len ≤ 2 ^ 16 }
        ensures { result ≡ tss_descriptor tss_at (max 104 (iomap_base + iomap_len)) }
    {
        let base = tss_at.as_u64();
        let end = u64::from(iomap_base) + u64::from(iomap_len);
        let low = set_bits(DescriptorFlags::PRESENT.bits(), 0, 16, end.max(104) - 1);
        let low = set_bits(low, 16, 40, get_bits(base, 0, 24));
        let low = set_bits(low, 40, 44, 0b1001);
        let low = set_bits(low, 56, 64, get_bits(base, 24, 32));
        Self::SystemSegment(low, get_bits(base, 32, 64))
    }
}
