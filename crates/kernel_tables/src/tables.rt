ghost use Rattle.std.specs.Prelude.{◌≡◌, ◌+◌, ◌/◌, ◌<◌, ◌↔◌, true, None, Some, IsSome, IfSome, OnOk, IfOk, length};
ghost use Rattle.std.specs.Option.{option_map};
ghost use Rattle.paging_core.specs.PageBits.{bits_of};
ghost use Rattle.paging_core.specs.Pool.{free_count};
ghost use Rattle.paging_core.specs.Walk.{mapped_place};
ghost use Rattle.kernel_tables.specs.Begun.{IsAreaGiven, AreBegun, AreOthersAsLent};
ghost use Rattle.kernel_tables.specs.Changes.{IsChange, IsPageMapped, IsPageUnmapped, IsPageGranted};
ghost use Rattle.kernel_tables.specs.Faults.{map_fault, entry_fault, protect_fault, split_of};
ghost use Rattle.kernel_tables.specs.Flush.{no_page, page_alone};
ghost use Rattle.kernel_tables.specs.Grants.{all_bits, with_rights, given_by, user_of};
ghost use Rattle.kernel_tables.specs.TableState.{leads, sees_area, IsWalkedAlike, IsPage, misses};

use crate::faults::{EntryFault, MapFault};
use crate::grants::Grant;
use crate::range_checks::slot_at;
use paging_core::{
    FramesAhead, Mapped, Page, PageBits, PhysFrame, PhysicalMemory, Rights, TableArea, WalkEnd,
    end_of_walk, make_root, map_at, map_page, walk,
};
use std::marker::Model;

/// Page tables in an area of frames whose words a kernel lends. Their pages lead to any frames below a limit, and two pages may
/// lead to one frame. No page leads into the area, until the kernel asks for it by `share_area`; and then only pages that users do
/// not reach.
#[derive(Drop)]
pub struct Tables<'a> {
    pub(crate) memory: TableArea<'a>,
    pub(crate) free: FramesAhead,
    pub(crate) root: PhysFrame,
    pub(crate) shared: bool,
}

impl<'a> Model for Tables<'a> {
    ghost use Rattle.kernel_tables.specs.TableState.{TableState, AreSound};

    ghost Value = { TableState };

    ghost view = { λ t. record { words = t.memory.words; area = t.memory.area; root = t.root; free = t.free; shared = t.shared } };

    ghost invariant = { λ t. AreSound (record { words = t.memory.words; area = t.memory.area; root = t.root; free = t.free; shared = t.shared }) };
}

impl<'a> Tables<'a> {
    /// Tables in the area of which these are the words, 512 per frame, from the first frame on. Pages lead to frames
    /// below the limit. No page is mapped, and one frame is taken for the root.
    ///
    /// None exactly if the words are not those of whole frames, or are none; if the area ends after the limit; or if
    /// the limit is not below 2^40, the number of frames that an entry can name.
    pub fn new(words: &'a mut [u64], first: u64, limit: u64) -> Option<Tables<'a>>
        ensures some { IsSome result ↔ IsAreaGiven (length words.entry.now) first limit }
        ensures begun { IfSome result (AreBegun (length words.entry.now) first limit) }
        ensures others { IfSome result (AreOthersAsLent words.entry.now first limit) }
    {
        let count = words.len() as u64 / 512;
        let mut memory = TableArea::over(words, first, limit)?;
        let mut free = FramesAhead::new(first, first + count);
        let Some(root) = make_root(&mut memory, &mut free) else {
            unreachable!()
        };
        Some(Tables {
            memory,
            free,
            root,
            shared: false,
        })
    }

    /// Lets pages that users do not reach lead into the area, from now on and for good: so a kernel may map all frames, and write to
    /// the tables by these pages.
    pub fn share_area(&mut self)
        ensures { self.new ≡ record self.old { shared = true } }
    {
        self.shared = true;
    }

    /// Whether a page may lead into the area.
    pub(crate) fn sees_area(&self, user: bool) -> bool
        ensures { result ≡ sees_area self.now user }
    {
        self.shared && !user
    }

    /// The frame of the root table: CR3 is to have its address. Whatever else the machine's memory holds, a processor then
    /// finds exactly the pages of the tables.
    pub fn root(&self) -> PhysFrame
        ensures root { result ≡ self.now.root }
        ensures processor { IsWalkedAlike self.now }
    {
        self.root
    }

    /// How many frames of the area are free.
    pub fn free_frames(&self) -> u64
        ensures { result ≡ free_count self.now.free }
    {
        self.free.left()
    }

    /// Where the page leads, and with which rights.
    pub fn walk(&self, page: Page) -> Option<Mapped>
        ensures { option_map mapped_place result ≡ leads self.now page }
    {
        walk(&self.memory, self.root, page)
    }

    /// Why a page that is not mapped, and misses `missing` tables, is not mapped to the frame, if it is not.
    #[inline(always)]
    fn map_fault(&self, page: Page, missing: u64, frame: PhysFrame, user: bool) -> Option<MapFault>
        requires unmapped { leads self.now page ≡ None }
        requires missing { missing ≡ misses self.now page }
        ensures fault { result ≡ map_fault self.now page frame user }
        ensures canonical { IsPage page }
    {
        let _canonical = page.number();
        if frame.number() >= self.memory.limit() {
            return Some(MapFault::PastLimit);
        }
        if !self.sees_area(user) && self.memory.contains(frame) {
            return Some(MapFault::InArea);
        }
        let left = self.free.left();
        if missing > left {
            return Some(MapFault::NoFrames {
                wanting: missing - left,
            });
        }
        None
    }

    /// Maps the page to the frame with the rights, with type 0 and not global, and makes the tables that it misses. No entry that was
    /// present changes, so no flush is needed.
    pub fn map(&mut self, page: Page, frame: PhysFrame, rights: Rights) -> Result<(), MapFault>
        ensures change { IsChange (page_alone page) no_page (map_fault self.old page frame rights.user) self.old result self.new }
        ensures mapped { OnOk result (IsPageMapped self.old self.new page frame (bits_of rights)) }
    {
        self.map_with(page, frame, rights.bits())
    }

    /// Does what `map` does, with all bits of the entry.
    pub fn map_with(&mut self, page: Page, frame: PhysFrame, bits: PageBits) -> Result<(), MapFault>
        ensures change { IsChange (page_alone page) no_page (map_fault self.old page frame bits.user) self.old result self.new }
        ensures mapped { OnOk result (IsPageMapped self.old self.new page frame bits) }
    {
        match end_of_walk(&self.memory, self.root, page) {
            WalkEnd::Entry { entry, page: None } => match self.map_fault(
                page, 0, frame, bits.user,
            ) {
                Some(fault) => Err(fault),
                None => {
                    map_at(
                        &mut self.memory,
                        self.root,
                        page,
                        entry.table,
                        entry.index,
                        frame,
                        bits,
                    );
                    Ok(())
                }
            },
            WalkEnd::Missing(tables) => match self.map_fault(page, tables, frame, bits.user) {
                Some(fault) => Err(fault),
                None => {
                    map_page(
                        &mut self.memory,
                        &mut self.free,
                        self.root,
                        page,
                        frame,
                        bits,
                    );
                    Ok(())
                }
            },
            _ => Err(MapFault::IsMapped),
        }
    }

    /// How many frames it takes to give the page an entry of its own.
    fn split_of(&self, page: Page) -> u64
        ensures { result ≡ split_of self.now page }
    {
        if self.large_page(slot_at(page)).is_some() {
            1
        } else {
            0
        }
    }

    /// Why the page's entry is not changed, if it is not.
    fn entry_fault(&self, page: Page) -> Option<EntryFault>
        ensures { result ≡ entry_fault self.now page }
    {
        if walk(&self.memory, self.root, page).is_none() {
            return Some(EntryFault::NotMapped);
        }
        if self.free.left() < self.split_of(page) {
            return Some(EntryFault::NoFrames);
        }
        None
    }

    /// Does what `unmap` does, for any page.
    fn unmap_any(&mut self, page: Page) -> Result<PhysFrame, EntryFault>
        ensures change { IsChange (page_alone page) (page_alone page) (entry_fault self.old page) self.old result self.new }
        ensures unmapped { IfOk result (λ frame. IsPageUnmapped self.old self.new page frame) }
    {
        match self.entry_fault(page) {
            Some(fault) => Err(fault),
            None => {
                self.own_entry(page);
                Ok(self.clear_page(page))
            }
        }
    }

    /// Ends the mapping of the page, and answers the frame to which it led. A large page of which it is part is split in a frame
    /// of the area. The other tables stay. The page is to be flushed before its frame has another use.
    pub fn unmap(&mut self, page: Page) -> Result<PhysFrame, EntryFault>
        ensures change { IsChange (page_alone page) (page_alone page) (entry_fault self.old page) self.old result self.new }
        ensures unmapped { IfOk result (λ frame. IsPageUnmapped self.old self.new page frame) }
    {
        match self.clear_entry(page) {
            Some(frame) => Ok(frame),
            None => self.unmap_any(page),
        }
    }

    /// Why the page is not given new bits, if it is not.
    fn protect_fault(&self, page: Page, grant: Grant) -> Option<EntryFault>
        ensures { result ≡ protect_fault self.now page (user_of grant) }
    {
        let Some(met) = walk(&self.memory, self.root, page) else {
            return Some(EntryFault::NotMapped);
        };
        if grant.user() && self.memory.contains(met.frame) {
            return Some(EntryFault::InArea);
        }
        if self.split_of(page) > self.free.left() {
            return Some(EntryFault::NoFrames);
        }
        None
    }

    /// Does what `grant` does, for any page.
    fn grant_any(&mut self, page: Page, grant: Grant) -> Result<(), EntryFault>
        ensures change { IsChange (page_alone page) (page_alone page) (protect_fault self.old page (user_of grant)) self.old result self.new }
        ensures granted { OnOk result (IsPageGranted self.old self.new page (given_by grant)) }
    {
        match self.protect_fault(page, grant) {
            Some(fault) => Err(fault),
            None => {
                self.own_entry(page);
                self.grant_page(page, grant);
                Ok(())
            }
        }
    }

    /// Gives the page new bits. It keeps its frame.
    #[inline(always)]
    pub fn grant(&mut self, page: Page, grant: Grant) -> Result<(), EntryFault>
        ensures change { IsChange (page_alone page) (page_alone page) (protect_fault self.old page (user_of grant)) self.old result self.new }
        ensures granted { OnOk result (IsPageGranted self.old self.new page (given_by grant)) }
    {
        if self.grant_entry(page, grant) {
            return Ok(());
        }
        self.grant_any(page, grant)
    }

    /// Gives the page these rights. It keeps its frame and its type, and stays global or not. A large page of which it is part is
    /// split in a frame of the area. The page is to be flushed.
    pub fn protect(&mut self, page: Page, rights: Rights) -> Result<(), EntryFault>
        ensures change { IsChange (page_alone page) (page_alone page) (protect_fault self.old page rights.user) self.old result self.new }
        ensures granted { OnOk result (IsPageGranted self.old self.new page (with_rights rights)) }
    {
        self.grant(page, Grant::Only(rights))
    }

    /// Gives the page all bits of its entry. It keeps its frame. A large page of which it is part is split in a frame of the area.
    /// The page is to be flushed.
    pub fn protect_with(&mut self, page: Page, bits: PageBits) -> Result<(), EntryFault>
        ensures change { IsChange (page_alone page) (page_alone page) (protect_fault self.old page bits.user) self.old result self.new }
        ensures granted { OnOk result (IsPageGranted self.old self.new page (all_bits bits)) }
    {
        self.grant(page, Grant::All(bits))
    }
}
