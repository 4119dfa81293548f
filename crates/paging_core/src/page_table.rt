ghost use Rattle.std.specs.Prelude.{◌≡◌, ℕ, ◌+◌, ◌*◌, ◌/◌, ◌%◌, ◌^◌, ◌<◌, ◌≤◌, ◌==◌, not, IsTrue, false, ◌↔◌, bit_and, if◌then◌else◌};
ghost use Rattle.paging_core.specs.PageTableFlags.{page_table_bits};
ghost use Rattle.paging_core.specs.Entry.{has_bit, frame_of, table_entry, page_entry, large_entry};

use crate::addr::PhysAddr;
use crate::page_table_flags::PageTableFlags;
use crate::phys_frames::PhysFrame;
use bitflags::Flags;
use std::marker::Model;

/// What the accesses to a page may do. Reading is always granted.
#[derive(Clone, Copy, PartialEq, Eq, Debug)]
pub struct Rights {
    /// Writes are granted.
    pub write: bool,
    /// Accesses at user level are granted.
    pub user: bool,
    /// Instruction fetches are granted.
    pub fetch: bool,
}

/// The bits of a page's entry: what the accesses may do, and which of the first four types of the processor's table of memory
/// types (PAT) they have: `through` counts 1, and `uncached` 2. A translation by a global entry outlives a new CR3.
#[derive(Clone, Copy, PartialEq, Eq, Debug)]
pub struct PageBits {
    /// Writes are granted.
    pub write: bool,
    /// Accesses at user level are granted.
    pub user: bool,
    /// Instruction fetches are granted.
    pub fetch: bool,
    /// Bit 3, PWT.
    pub through: bool,
    /// Bit 4, PCD.
    pub uncached: bool,
    /// Bit 8, G.
    pub global: bool,
}

impl Rights {
    /// The bits of an entry with these rights, of type 0, and not global. Type 0 is that of usual memory, write-back, if the
    /// PAT was not changed.
    pub fn bits(self) -> PageBits
        ensures { result ≡ record { write = self.write; user = self.user; fetch = self.fetch; through = false; uncached = false; global = false } }
    {
        PageBits {
            write: self.write,
            user: self.user,
            fetch: self.fetch,
            through: false,
            uncached: false,
            global: false,
        }
    }
}

/// The index of an entry in a table: below 512.
#[derive(Clone, Copy, PartialEq, Eq, PartialOrd, Ord, Hash, Debug)]
pub struct PageTableIndex(u16);

impl Model for PageTableIndex {
    ghost Value = { ℕ };

    ghost view = { λ i. i.0 };

    ghost invariant = { λ i. i.0 < 512 };

    ghost inverse = { λ n. record { 0 = n } };
}

impl PageTableIndex {
    /// The index with this number, which is below 512.
    pub fn new(index: u16) -> Self
        requires { index < 512 }
        ensures { result ≡ index }
    {
        PageTableIndex(index)
    }

    /// The number of the index.
    pub fn value(self) -> u16
        ensures value { result ≡ self }
        ensures bounded { result < 512 }
    {
        self.0
    }
}

/// The address field of an entry: bits 12 to 51.
const ADDRESS_FIELD: u64 = 0x000f_ffff_ffff_f000;

/// A word of a page table (AMD64 volume 2, "4-Kbyte Page Translation in Long Mode").
#[derive(Clone, Copy, PartialEq, Eq, PartialOrd, Ord, Hash, Debug)]
pub struct PageTableEntry(u64);

impl Model for PageTableEntry {
    ghost Value = { ℕ };

    ghost view = { λ e. e.0 };

    ghost inverse = { λ n. record { 0 = n } };
}

impl PageTableEntry {
    /// The entry with these bits.
    pub fn from_bits(bits: u64) -> Self
        ensures { result ≡ bits }
    {
        PageTableEntry(bits)
    }

    /// The bits of the entry.
    pub fn bits(&self) -> u64
        ensures { result ≡ self.now }
    {
        self.0
    }

    /// The frame that the address field (bits 12 to 51) names, be the entry present or not.
    pub fn frame(&self) -> PhysFrame
        ensures { result ≡ frame_of self.now }
    {
        PhysFrame::containing_address(PhysAddr::new(self.0 & ADDRESS_FIELD))
    }

    /// Whether the entry is 0.
    pub fn is_unused(&self) -> bool
        ensures { IsTrue result ↔ (self.now ≡ 0) }
    {
        self.0 == 0
    }

    /// The flags of the entry: its bits but for the address field.
    pub fn flags(&self) -> PageTableFlags
        ensures { page_table_bits result ≡ self.now % 2 ^ 12 + self.now / 2 ^ 52 * 2 ^ 52 }
    {
        PageTableFlags::from_bits_truncate(self.0)
    }

    fn has(&self, flag: PageTableFlags) -> bool
        ensures { result ≡ not (bit_and self.now (page_table_bits flag) == 0) }
    {
        self.0 & flag.bits() != 0
    }

    pub(crate) fn is_present(&self) -> bool
        ensures { result ≡ has_bit self.now 0 }
    {
        self.has(PageTableFlags::PRESENT)
    }

    pub(crate) fn is_writable(&self) -> bool
        ensures { result ≡ has_bit self.now 1 }
    {
        self.has(PageTableFlags::WRITABLE)
    }

    pub(crate) fn is_user_accessible(&self) -> bool
        ensures { result ≡ has_bit self.now 2 }
    {
        self.has(PageTableFlags::USER_ACCESSIBLE)
    }

    pub(crate) fn is_through(&self) -> bool
        ensures { result ≡ has_bit self.now 3 }
    {
        self.has(PageTableFlags::WRITE_THROUGH)
    }

    pub(crate) fn is_uncached(&self) -> bool
        ensures { result ≡ has_bit self.now 4 }
    {
        self.has(PageTableFlags::NO_CACHE)
    }

    /// Whether the entry has bit 7: at the third step of a walk it maps a large page.
    pub fn is_huge(&self) -> bool
        ensures { result ≡ has_bit self.now 7 }
    {
        self.has(PageTableFlags::HUGE_PAGE)
    }

    pub(crate) fn is_global(&self) -> bool
        ensures { result ≡ has_bit self.now 8 }
    {
        self.has(PageTableFlags::GLOBAL)
    }

    pub(crate) fn is_no_execute(&self) -> bool
        ensures { result ≡ has_bit self.now 63 }
    {
        self.has(PageTableFlags::NO_EXECUTE)
    }

    /// The entry that names a table: present, writable, user accessible, and accessed already.
    pub(crate) fn to_table(frame: PhysFrame) -> Self
        ensures { result ≡ table_entry frame }
    {
        let flags = PageTableFlags::PRESENT
            | PageTableFlags::WRITABLE
            | PageTableFlags::USER_ACCESSIBLE
            | PageTableFlags::ACCESSED;
        PageTableEntry(frame.number() << 12 | flags.bits())
    }

    /// The entry that maps a page to the frame with the rights. It is accessed and dirty already.
    pub(crate) fn to_page(frame: PhysFrame, rights: PageBits) -> Self
        ensures value { result ≡ page_entry frame rights }
        ensures fits { frame < 2 ^ 40 }
    {
        let there = PageTableFlags::PRESENT | PageTableFlags::ACCESSED | PageTableFlags::DIRTY;
        let low = there.bits()
            | bits_where(rights.write, PageTableFlags::WRITABLE)
            | bits_where(rights.user, PageTableFlags::USER_ACCESSIBLE)
            | bits_where(rights.through, PageTableFlags::WRITE_THROUGH)
            | bits_where(rights.uncached, PageTableFlags::NO_CACHE)
            | bits_where(rights.global, PageTableFlags::GLOBAL);
        let high = bits_where(!rights.fetch, PageTableFlags::NO_EXECUTE);
        PageTableEntry(high | (frame.number() << 12 | low))
    }
}

impl PageTableEntry {
    /// The entry that maps a large page from the frame on with the rights.
    pub(crate) fn to_large(frame: PhysFrame, rights: PageBits) -> Self
        ensures value { result ≡ large_entry frame rights }
        ensures fits { frame < 2 ^ 40 }
    {
        let page = PageTableEntry::to_page(frame, rights);
        PageTableEntry(page.0 + PageTableFlags::HUGE_PAGE.bits())
    }
}

/// The bits of the flag if it is granted, else 0.
fn bits_where(granted: bool, flag: PageTableFlags) -> u64
    ensures { result ≡ (if granted then page_table_bits flag else 0) }
{
    if granted { flag.bits() } else { 0 }
}
