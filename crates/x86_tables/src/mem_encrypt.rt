//! The bit of a page table entry that says whether the page is encrypted.

ghost use Rattle.std.specs.Prelude.{◌≡◌, ◌<◌, ◌≢◌};
ghost use Rattle.paging_core.specs.PageTableFlags.{page_table_bits};
ghost use Rattle.x86_tables.specs.MemEncrypt.{bit_place, encryption_bits, no_encryption, is_encrypted_by, encrypted_by};

use bitflags::Flags;
use paging_core::PageTableFlags;

/// The bits of a page table entry that hold the physical address, if no bit says whether the page
/// is encrypted.
const ADDRESS_MASK: u64 = 0x000f_ffff_ffff_f000;

/// Which bit of a page's physical address says whether the page is encrypted.
#[derive(Clone, Copy, Debug)]
pub enum MemoryEncryptionConfiguration {
    /// The page is encrypted if the bit at this place is set (AMD's bit C of SME and SEV).
    ///
    /// Source: AMD64 manual, volume 2, section 7.10.
    EncryptedBit(u8),
    /// The page is shared, and not encrypted, if the bit at this place is set (Intel's TDX).
    SharedBit(u8),
}

/// How the flags of a page table entry say whether its page is encrypted.
///
/// Source: AMD64 manual, volume 2, section 7.10; the type is our own.
#[derive(Clone, Copy, Debug)]
pub struct EncryptionBits {
    /// The bit, or 0 if memory is not encrypted.
    pub mask: u64,
    /// Whether the bit is set in the pages that are not encrypted.
    pub reversed: bool,
    /// The bits of an entry that are left to the physical address.
    pub address_mask: u64,
}

/// Encryption by the bit of the configuration, whose place is below 64.
pub fn enable_memory_encryption(configuration: MemoryEncryptionConfiguration) -> EncryptionBits
    requires { bit_place configuration < 64 }
    ensures { result ≡ encryption_bits configuration }
{
    let (place, reversed) = match configuration {
        MemoryEncryptionConfiguration::EncryptedBit(place) => (place, false),
        MemoryEncryptionConfiguration::SharedBit(place) => (place, true),
    };
    let mask = 1 << place;
    EncryptionBits {
        mask,
        reversed,
        address_mask: ADDRESS_MASK & !mask,
    }
}

impl EncryptionBits {
    /// No page is encrypted, and the physical address has all its bits.
    pub fn none() -> Self
        ensures { result ≡ no_encryption }
    {
        Self {
            mask: 0,
            reversed: false,
            address_mask: ADDRESS_MASK,
        }
    }

    /// Makes the page of these flags encrypted, or shared. There is a bit that says so.
    pub fn set_encrypted(&self, flags: &mut PageTableFlags, encrypted: bool)
        requires { self.now.mask ≢ 0 }
        ensures bits { page_table_bits flags.new ≡ encrypted_by self.now encrypted (page_table_bits flags.old) }
        ensures read_back { is_encrypted_by self.now (page_table_bits flags.new) ≡ encrypted }
    {
        let bit = PageTableFlags::from_bits_retain(self.mask);
        flags.set(bit, encrypted != self.reversed);
    }

    /// Whether the page of these flags is encrypted. Never if there is no bit that says so.
    pub fn is_encrypted(&self, flags: &PageTableFlags) -> bool
        ensures { result ≡ is_encrypted_by self.now (page_table_bits flags.now) }
    {
        let bit = PageTableFlags::from_bits_retain(self.mask);
        self.mask != 0 && flags.contains(bit) != self.reversed
    }
}
