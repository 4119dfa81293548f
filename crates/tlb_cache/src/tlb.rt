ghost use Rattle.std.specs.Prelude.{◌≡◌, ℕ, ◌+◌, ◌-◌, ◌*◌, ◌^◌, ◌<◌, ◌≤◌, not, [], ◌∷◌, ◌++◌, length, take, drop, slice_get, filter, Contains, Some, IsTrue, IsFalse, IsSome, is_some, IfOk, OnOk, IfSome};
ghost use Rattle.circular_buffer.specs.Buffer.{keep_last};
ghost use Rattle.paging_core.specs.Address.{is_canonical};
ghost use Rattle.paging_core.specs.Memory.{frame_count};
ghost use Rattle.tlb_cache.specs.Cache.{has_page, cached_pages, IsAgeOf, AreOfDistinctPages, AgreesWithTables, kept, left_by};
ghost use Rattle.tlb_cache.specs.PageIndex.{Indexes};
ghost use Rattle.tlb_cache.specs.Covered.{is_among};

use crate::covered::{Pages, covered};
use crate::entry::{TlbEntry, Translated};
use crate::page_index::PageIndex;
use crate::page_run::PageRun;
use circular_buffer::HeapCircularBuffer;
use paging_core::{Frames, Mapped, Page, PhysFrame, walk};
use std::alloc::{AllocError, Global};
use std::marker::Model;
use x86_instructions::tlb::FlushCommand;

/// The most translations of a cache.
const MOST: u64 = (1 << 31) - 1;

/// The age of a page's entry in a ring, by its index.
fn find(ring: &HeapCircularBuffer<TlbEntry>, index: &PageIndex, page: u64) -> Option<usize>
    requires indexed { Indexes index.now (cached_pages ring.now.items) }
    ensures there { IfSome result (λ age. IsAgeOf ring.now.items page age) }
    ensures some { is_some result ≡ has_page ring.now.items page }
{
    let mut count = index.newest(page, ring.len() as u32);
    while count > 0 {
        let age = count - 1;
        match ring.get(age as usize) {
            Some(entry) => {
                if entry.page.number() == page {
                    return Some(age as usize);
                }
            }
            None => return None,
        }
        count = index.older(age);
    }
    None
}

/// Translations of pages that walks found, as many as the processor has room for. When there is no more room, the oldest
/// leaves. An entry stays what the walk found then, until a command covers its page.
#[derive(Drop)]
pub struct Tlb {
    /// The oldest first.
    ring: HeapCircularBuffer<TlbEntry>,
    index: PageIndex,
}

impl Model for Tlb {
    ghost use Rattle.std.specs.Prelude.{◌≡◌, ◌<◌, length};
    ghost use Rattle.tlb_cache.specs.Cache.{Cache, cached_pages, AreOfDistinctPages};

    ghost Value = { Cache };

    ghost use Rattle.tlb_cache.specs.PageIndex.{Indexes};

    ghost view = { λ tlb. record { entries = tlb.ring.items; capacity = tlb.ring.capacity } };

    ghost invariant = { λ tlb. (length tlb.index.older.items ≡ tlb.ring.capacity) × AreOfDistinctPages tlb.ring.items × Indexes tlb.index (cached_pages tlb.ring.items) };
}

impl Tlb {
    ghost use Rattle.tlb_cache.specs.Translation.{IsKeptAnswer, IsWalkedAnswer, IsTrueAnswer};

    /// A cache with room for `capacity` translations. It takes all its memory now, and has none yet (own). From 2^31
    /// places on it always answers want of memory; below it may too, if the host has too little.
    pub fn new(alloc: Global, capacity: u64) -> Result<Tlb, AllocError>
        requires { 0 < capacity }
        ensures empty { IfOk result (λ tlb. tlb ≡ record { entries = []; capacity = capacity }) }
        ensures few { OnOk result (capacity < 2 ^ 31) }
    {
        if capacity > MOST {
            return Err(AllocError);
        }
        Ok(Tlb {
            ring: HeapCircularBuffer::with_capacity(alloc, capacity as usize)?,
            index: PageIndex::new(alloc, capacity as u32)?,
        })
    }

    /// How many translations there are.
    pub fn len(&self) -> u64
        ensures len { result ≡ length self.now.entries }
        ensures within { result ≤ self.now.capacity }
        ensures distinct { AreOfDistinctPages self.now.entries }
    {
        self.ring.len() as u64
    }

    /// Whether a page has a translation here.
    pub fn contains(&self, page: Page) -> bool
        ensures { result ≡ has_page self.now.entries page }
    {
        self.find(page.number()).is_some()
    }

    /// Where a page is mapped, by its entry if it has one, and else by the walk. What a walk found is the newest entry then,
    /// and the oldest leaves if there was no room. An entry that answers stays where it is in the order (own).
    ///
    /// The root table is in a frame.
    pub fn translate(&mut self, frames: &Frames, root: PhysFrame, page: Page) -> Translated
        requires { root < frame_count frames.now }
        ensures hit { result.hit ≡ has_page self.old.entries page }
        ensures kept { IsTrue result.hit → IsKeptAnswer self.old self.new page result.mapped }
        ensures walked { IsFalse result.hit → IsWalkedAnswer frames.now root self.old self.new page result.mapped }
        // If each entry is what the walk finds, so is the answer, and so is each entry then.
        ensures answer { AgreesWithTables frames.now root self.old.entries → IsTrueAnswer frames.now root self.new page result.mapped }
    {
        match self.kept(page) {
            Some(mapped) => Translated {
                mapped: Some(mapped),
                hit: true,
            },
            None => {
                let mapped = walk(frames, root, page);
                self.keep_found(page, &mapped);
                Translated { mapped, hit: false }
            }
        }
    }

    /// Forgets the entries of the pages that a command covers. The others stay in order.
    pub fn apply(&mut self, command: &FlushCommand)
        ensures { self.new ≡ record self.old { entries = left_by command.now self.old.entries } }
    {
        match covered(command) {
            Pages::All => self.forget_all(),
            Pages::Run(run) => self.forget(run),
        }
    }

    /// The age of a page's entry; the oldest has age 0.
    fn find(&self, page: u64) -> Option<usize>
        ensures there { IfSome result (λ age. IsAgeOf self.now.entries page age) }
        ensures some { is_some result ≡ has_page self.now.entries page }
    {
        find(&self.ring, &self.index, page)
    }

    /// What is kept of a page.
    fn kept(&self, page: Page) -> Option<Mapped>
        ensures answers { IfSome result (λ mapped. Contains self.now.entries (record { page = page; mapped = mapped })) }
        ensures some { is_some result ≡ has_page self.now.entries page }
    {
        let age = self.find(page.number())?;
        let entry = self.ring.get(age)?;
        Some(entry.mapped)
    }

    /// Takes the oldest entry out.
    fn pop(&mut self) -> Option<TlbEntry>
        ensures value { result ≡ slice_get self.old.entries 0 }
        ensures left { self.new ≡ record self.old { entries = drop 1 self.old.entries } }
        ensures room { IsSome result → length self.new.entries < self.new.capacity }
        ensures alone { IfSome result (λ entry. IsFalse (has_page self.new.entries entry.page)) }
    {
        let entry = self.ring.pop_front()?;
        self.index.pop();
        Some(entry)
    }

    /// Puts an entry of another page at the new end.
    fn push(&mut self, entry: TlbEntry)
        requires room { length self.old.entries < self.old.capacity }
        requires other { IsFalse (has_page self.old.entries entry.page) }
        ensures { self.new ≡ record self.old { entries = self.old.entries ++ entry ∷ [] } }
    {
        self.index.push(entry.page.number(), self.ring.len() as u32);
        self.ring.push_back(entry);
    }

    /// Takes the oldest entry out if there is no room for one more.
    fn make_room(&mut self)
        ensures left { self.new ≡ record self.old { entries = drop (length self.old.entries + 1 - self.old.capacity) self.old.entries } }
        ensures room { length self.new.entries < self.new.capacity }
    {
        if self.ring.is_full() {
            self.pop();
        }
    }

    /// Puts an entry of another page at the new end. The oldest leaves if there is no room.
    fn keep(&mut self, entry: TlbEntry)
        requires { IsFalse (has_page self.old.entries entry.page) }
        ensures { self.new ≡ record self.old { entries = keep_last self.old.capacity (self.old.entries ++ entry ∷ []) } }
    {
        self.make_room();
        self.push(entry);
    }

    /// Keeps what the walk found of a page that has no entry, if it found it.
    fn keep_found(&mut self, page: Page, found: &Option<Mapped>)
        requires { IsFalse (has_page self.old.entries page) }
        ensures kept { self.new ≡ kept self.old page found.now }
        ensures canonical { IsTrue (is_canonical (page * 4096)) }
    {
        let _canonical = page.number();
        match found {
            Some(mapped) => self.keep(TlbEntry {
                page,
                mapped: *mapped,
            }),
            None => {}
        }
    }

    /// Forgets each entry.
    fn forget_all(&mut self)
        ensures { self.new ≡ record self.old { entries = [] } }
    {
        self.ring.clear();
    }

    /// Whether some of the pages may have entries: fewer than there are entries are looked up.
    fn may_have(&self, run: PageRun) -> bool
        ensures { IsFalse result → (page : ℕ) → IsTrue (is_among run.first run.pages page) → IsFalse (has_page self.now.entries page) }
    {
        if run.pages > self.ring.len() as u64 {
            return true;
        }
        for k in 0..run.pages {
            if self.find(run.first + k).is_some() {
                return true;
            }
        }
        false
    }

    /// Takes the oldest entry out, and puts it back at the new end unless its page is one of these.
    fn turn(&mut self, run: PageRun)
        ensures { self.new ≡ record self.old { entries = drop 1 self.old.entries ++ filter (λ (entry : TlbEntry). not (is_among run.first run.pages entry.page)) (take 1 self.old.entries) } }
    {
        match self.pop() {
            Some(entry) => {
                if !run.has(entry.page.number()) {
                    self.push(entry);
                }
            }
            None => {}
        }
    }

    /// Forgets the entries of these pages: each entry has its turn.
    fn forget_each(&mut self, run: PageRun)
        ensures { self.new ≡ record self.old { entries = filter (λ (entry : TlbEntry). not (is_among run.first run.pages entry.page)) self.old.entries } }
    {
        for _turn in 0..self.ring.len() {
            self.turn(run);
        }
    }

    /// Forgets the entries of these pages, if there are any.
    fn forget(&mut self, run: PageRun)
        ensures { self.new ≡ record self.old { entries = filter (λ (entry : TlbEntry). not (is_among run.first run.pages entry.page)) self.old.entries } }
    {
        if self.may_have(run) {
            self.forget_each(run);
        }
    }
}
