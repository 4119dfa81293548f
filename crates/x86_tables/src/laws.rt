//! Laws above the calls of this crate and those below it. Each function is its law's example: what it
//! answers is what the law says.

ghost use Rattle.std.specs.Prelude.{◌≡◌, ◌<◌};
ghost use Rattle.x86_tables.specs.DescriptorFlags.{descriptor_bits};
ghost use Rattle.x86_tables.specs.ExceptionVector.{vector_number};

use crate::gdt::DescriptorFlags;
use crate::idt::ExceptionVector;
use x86_flags::{PrivilegeLevel, SegmentSelector};

/// A selector that is made from an index below 8192 and a level gives both back.
pub fn selector_gives_back(index: u16, level: PrivilegeLevel) -> (u16, PrivilegeLevel)
    requires { index < 8192 }
    ensures { result ≡ (index, level) }
{
    let selector = SegmentSelector::new(index, level);
    (selector.index(), selector.rpl())
}

/// The bits of the six segments that kernels use.
pub fn default_segments()
    ensures kernel_code64 { descriptor_bits DescriptorFlags.KERNEL_CODE64 ≡ 0x00af9b000000ffff }
    ensures kernel_code32 { descriptor_bits DescriptorFlags.KERNEL_CODE32 ≡ 0x00cf9b000000ffff }
    ensures kernel_data { descriptor_bits DescriptorFlags.KERNEL_DATA ≡ 0x00cf93000000ffff }
    ensures user_code64 { descriptor_bits DescriptorFlags.USER_CODE64 ≡ 0x00affb000000ffff }
    ensures user_code32 { descriptor_bits DescriptorFlags.USER_CODE32 ≡ 0x00cffb000000ffff }
    ensures user_data { descriptor_bits DescriptorFlags.USER_DATA ≡ 0x00cff3000000ffff }
{}

/// The number of an exception's vector, which `as` gives.
pub fn number_of_vector(vector: ExceptionVector) -> u8
    ensures { result ≡ vector_number vector }
{
    vector as u8
}
