//! Copying pages.
ghost use Rattle.std.specs.Prelude.{◌≡◌, ℕ, ◌+◌, ◌/◌, ◌<◌, IsSome, OnOk};
ghost use Rattle.paging_core.specs.Walk.{walk_of};
ghost use Rattle.address_space.specs.Seen.{tables_of, KeptIfErr};
ghost use Rattle.address_space.specs.Changing.{CanDuplicate, IsDuplicated, IsDuplicateAnswer};
ghost use Rattle.address_space.specs.PageCopies.{ArePagesCopied, HasSmallPages, IsMappedRange};

use crate::range::{first_page, page_at};
use crate::space::Space;
use crate::space_fault::SpaceFault;
use crate::{run_changes, runs};
use paging_core::{
    Frames, Page, PageBits, PhysFrame, Rights, copy_page, map_range, protect_page, walk,
};
use std::alloc::AllocError;

/// What pages may be while they wait for the rights of their source.
const NO_RIGHTS: Rights = Rights {
    write: false,
    user: false,
    fetch: false,
};

/// Gives a mapped page the rights and the bytes of another. No page is in a large page.
fn copy_to(frames: &mut Frames, root: PhysFrame, source: Page, target: Page)
    requires tables { HasSmallPages frames.old root }
    requires source { IsSome (walk_of frames.old root source) }
    requires target { IsSome (walk_of frames.old root target) }
    ensures { ArePagesCopied frames.old frames.new root source 1 target }
{
    copy_page(frames, root, source, target);
    let Some(place) = walk(frames, root, source) else {
        unreachable!()
    };
    let bits = PageBits {
        write: place.write,
        user: place.user,
        fetch: place.fetch,
        through: place.through,
        uncached: place.uncached,
        global: place.global,
    };
    protect_page(frames, root, target, bits);
}

/// Gives `pages` mapped pages from `to` on the rights and the bytes of those from `from` on, none of which is among
/// them. No page is in a large page.
fn copy_pages(frames: &mut Frames, root: PhysFrame, from: u64, pages: u64, to: u64)
    requires tables { HasSmallPages frames.old root }
    requires source { IsMappedRange frames.old root from pages }
    requires target { IsMappedRange frames.old root to pages }
    requires apart { (j k : ℕ) → j < pages → k < pages → from + j ≡ to + k → ⊥ }
    ensures { ArePagesCopied frames.old frames.new root from pages to }
{
    for step in 0..pages {
        copy_to(frames, root, page_at(from + step), page_at(to + step));
    }
}

impl Space {
    /// Maps `pages` pages at `to`, each with the rights and the bytes of its page at `from`. An `Err` changes nothing.
    pub fn duplicate(&mut self, from: u64, pages: u64, to: u64) -> Result<(), SpaceFault>
        ensures ok { OnOk result (IsDuplicated (tables_of self.old) (tables_of self.new) (from / 4096) pages (to / 4096)) }
        ensures err { KeptIfErr result self.old self.new }
        ensures causes { IsDuplicateAnswer (tables_of self.old) from pages to result }
    {
        let Some(source) = first_page(from, pages) else {
            return Err(SpaceFault::BadRange);
        };
        let Some(target) = first_page(to, pages) else {
            return Err(SpaceFault::BadRange);
        };
        let number = source.number();
        if let Some(page) = runs::first_gap(&self.runs, number, number + pages) {
            return Err(SpaceFault::Hole { at: page * 4096 });
        }
        if !self.is_clear(target, pages) {
            return Err(SpaceFault::Overlap);
        }
        if !self.has_frames(target, pages) {
            return Err(SpaceFault::NoFrames);
        }
        match self.copy_clear(source, pages, target) {
            Ok(()) => Ok(()),
            Err(_) => Err(SpaceFault::OutOfMemory),
        }
    }

    /// Maps pages that are not mapped, and for which there are frames, with the rights and the bytes of as many that
    /// are. An `Err` changes nothing.
    fn copy_clear(&mut self, source: Page, pages: u64, target: Page) -> Result<(), AllocError>
        requires { CanDuplicate (tables_of self.old) source pages target }
        ensures ok { OnOk result (IsDuplicated (tables_of self.old) (tables_of self.new) source pages target) }
        ensures err { KeptIfErr result self.old self.new }
    {
        let from = source.number();
        let to = target.number();
        run_changes::copy(&mut self.runs, self.alloc, from, pages, to)?;
        map_range(
            &mut self.frames,
            &mut self.pool,
            self.root,
            target,
            pages,
            NO_RIGHTS.bits(),
        );
        copy_pages(&mut self.frames, self.root, from, pages, to);
        Ok(())
    }
}
