//! Mapping pages.
ghost use Rattle.std.specs.Prelude.{◌/◌, IfOk, OnOk};
ghost use Rattle.address_space.specs.Seen.{tables_of, KeptIfErr};
ghost use Rattle.address_space.specs.Mapping.{ArePagesMapped, IsMapAnswer, IsPlaceAnswer};

use crate::range::{first_page, first_page_below};
use crate::runs;
use crate::space::Space;
use crate::space_fault::SpaceFault;
use paging_core::{Page, Rights};

impl Space {
    /// Maps `pages` pages from the address on, with the rights and bytes that are 0. An `Err` changes nothing.
    pub fn map_at(&mut self, start: u64, pages: u64, rights: Rights) -> Result<(), SpaceFault>
        ensures ok { OnOk result (ArePagesMapped (tables_of self.old) (tables_of self.new) (start / 4096) pages rights) }
        ensures err { KeptIfErr result self.old self.new }
        ensures causes { IsMapAnswer (tables_of self.old) start pages result }
    {
        let Some(first) = first_page(start, pages) else {
            return Err(SpaceFault::BadRange);
        };
        if !self.is_clear(first, pages) {
            return Err(SpaceFault::Overlap);
        }
        if !self.has_frames(first, pages) {
            return Err(SpaceFault::NoFrames);
        }
        match self.map_clear(first, pages, rights) {
            Ok(()) => Ok(()),
            Err(_) => Err(SpaceFault::OutOfMemory),
        }
    }

    /// Maps `pages` pages, with the rights and bytes that are 0, at the lowest address from which that many pages lie
    /// between two addresses and are not mapped, and answers that address. An `Err` changes nothing.
    pub fn place(
        &mut self,
        low: u64,
        high: u64,
        pages: u64,
        rights: Rights,
    ) -> Result<u64, SpaceFault>
        ensures ok { IfOk result (λ at. ArePagesMapped (tables_of self.old) (tables_of self.new) (at / 4096) pages rights) }
        ensures err { KeptIfErr result self.old self.new }
        ensures causes { IsPlaceAnswer (tables_of self.old) low high pages result }
    {
        let Some(base) = first_page_below(low, high) else {
            return Err(SpaceFault::BadRange);
        };
        if pages == 0 {
            return Err(SpaceFault::BadRange);
        }
        let Some(first) = self.lowest_place(base, high / 4096, pages) else {
            return Err(SpaceFault::NoRoom);
        };
        if !self.has_frames(first, pages) {
            return Err(SpaceFault::NoFrames);
        }
        match self.map_clear(first, pages, rights) {
            Ok(()) => Ok(first.start_address().as_u64()),
            Err(_) => Err(SpaceFault::OutOfMemory),
        }
    }
}
