//! Unmapping pages, and changing their rights.
ghost use Rattle.std.specs.Prelude.{◌+◌, ◌-◌, ◌*◌, ◌/◌, ◌^◌, ◌<◌, ◌≤◌, IsSome, IfOk, IfErr, OnOk};
ghost use Rattle.paging_core.specs.Address.{IsCanonicalRange};
ghost use Rattle.address_space.specs.Space.{page_map_of};
ghost use Rattle.address_space.specs.Seen.{tables_of, KeptIfErr};
ghost use Rattle.address_space.specs.Changing.{CanProtect, IsPartUnmapped, IsUnmapped, IsProtected, IsUnmapAnswer, IsProtectAnswer};

use crate::range::{first_page, page_at};
use crate::space::Space;
use crate::space_fault::SpaceFault;
use crate::{run_changes, runs};
use paging_core::{Page, Rights, protect_range, unmap_range};
use std::alloc::AllocError;

/// The end of a range, in which no page is mapped any longer.
#[derive(Clone, Copy)]
struct Part {
    /// Its first page.
    first: u64,
    /// How many of its pages were mapped.
    count: u64,
}

impl Space {
    /// Unmaps the mapped pages of a range, and answers how many they were. Their frames are free again. An `Err`
    /// changes nothing.
    pub fn unmap(&mut self, start: u64, pages: u64) -> Result<u64, SpaceFault>
        ensures ok { IfOk result (λ count. IsUnmapped (tables_of self.old) (tables_of self.new) (start / 4096) pages count) }
        ensures err { KeptIfErr result self.old self.new }
        ensures causes { IsUnmapAnswer start pages result }
    {
        let Some(page) = first_page(start, pages) else {
            return Err(SpaceFault::BadRange);
        };
        let first = page.number();
        let mut end = first + pages;
        let mut count = 0;
        while first < end {
            match self.unmap_last(first, end) {
                Ok(part) => {
                    end = part.first;
                    count += part.count;
                }
                // Memory is needed only if a run goes on after the range, so before any page has left.
                Err(_) => return Err(SpaceFault::OutOfMemory),
            }
        }
        Ok(count)
    }

    /// Unmaps the last run of the pages from `first` up to `end`, as far as it lies among them. An `Err` changes
    /// nothing, and is possible only if the page `end` is mapped.
    fn unmap_last(&mut self, first: u64, end: u64) -> Result<Part, AllocError>
        requires some { first < end }
        requires within { end ≤ 2 ^ 52 }
        requires range { IsCanonicalRange first (end - first) }
        ensures ok { IfOk result (IsPartUnmapped (tables_of self.old) (tables_of self.new) first end) }
        ensures err { KeptIfErr result self.old self.new }
        ensures over { IfErr result (λ error. IsSome ((page_map_of (tables_of self.old)).rights end)) }
    {
        let Some(run) = runs::run_below(&self.runs, end) else {
            return Ok(Part { first, count: 0 });
        };
        if run.end <= first {
            return Ok(Part { first, count: 0 });
        }
        let from = run.start.max(first);
        let count = run.end.min(end) - from;
        run_changes::take(&mut self.runs, self.alloc, from, from + count)?;
        unmap_range(
            &mut self.frames,
            &mut self.pool,
            self.root,
            page_at(from),
            count,
        );
        Ok(Part { first: from, count })
    }

    /// Gives the pages of a range these rights. Their bytes stay. An `Err` changes nothing.
    pub fn protect(&mut self, start: u64, pages: u64, rights: Rights) -> Result<(), SpaceFault>
        ensures ok { OnOk result (IsProtected (tables_of self.old) (tables_of self.new) (start / 4096) pages rights) }
        ensures err { KeptIfErr result self.old self.new }
        ensures causes { IsProtectAnswer (tables_of self.old) start pages result }
    {
        let Some(first) = first_page(start, pages) else {
            return Err(SpaceFault::BadRange);
        };
        let number = first.number();
        if let Some(page) = runs::first_gap(&self.runs, number, number + pages) {
            return Err(SpaceFault::Hole { at: page * 4096 });
        }
        match self.protect_full(first, pages, rights) {
            Ok(()) => Ok(()),
            Err(_) => Err(SpaceFault::OutOfMemory),
        }
    }

    /// Gives pages that are mapped these rights. An `Err` changes nothing.
    fn protect_full(&mut self, first: Page, pages: u64, rights: Rights) -> Result<(), AllocError>
        requires { CanProtect (tables_of self.old) first pages }
        ensures ok { OnOk result (IsProtected (tables_of self.old) (tables_of self.new) first pages rights) }
        ensures err { KeptIfErr result self.old self.new }
    {
        let number = first.number();
        run_changes::set_rights(&mut self.runs, self.alloc, number, number + pages, rights)?;
        protect_range(&mut self.frames, self.root, first, pages, rights.bits());
        Ok(())
    }
}
