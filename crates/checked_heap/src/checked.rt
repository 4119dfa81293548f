// A heap over words of the caller, whose calls look at what they are given.
ghost use Rattle.std.specs.Prelude.{◌≡◌, ◌*◌, ◌%◌, ◌<◌, ◌≤◌, true, false, IsTrue, length};
ghost use Rattle.heap_memory.specs.Regions.{is_granted};
ghost use Rattle.heap_arena.specs.Arena.{regions_of};
ghost use Rattle.checked_heap.specs.Marks.{is_marked};
ghost use Rattle.checked_heap.specs.Marking.{AreCounted, IsMarkSet};
ghost use Rattle.checked_heap.specs.Checked.{table_in};

use crate::marks::Marks;
use dlmalloc::ExtentList;
use heap_arena::Arena;
use sound_heap::{Heap, HeapError};
use std::alloc::{AllocError, Global};
use std::marker::Model;

/// The granularity of a heap for which none is given, in bytes.
pub const GRANULARITY: u64 = 65536;

/// A heap over words of the caller. Its marks stand where blocks begin, and nowhere else.
#[derive(Drop)]
pub struct CheckedHeap<'a> {
    heap: Heap<Arena<'a>>,
    marks: Marks<'a>,
}

impl<'a> Model for CheckedHeap<'a> {
    ghost use Rattle.dlmalloc.specs.declared.heap.Dlmalloc.{Dlmalloc};
    ghost use Rattle.heap_arena.specs.declared.arena.Arena.{Arena};
    ghost use Rattle.checked_heap.specs.Checked.{IsMarked};

    ghost Value = { Dlmalloc Arena };

    ghost view = { λ h. h.heap };

    ghost invariant = { λ h. IsMarked h.marks.base h.marks.words.now h.marks.count h.heap };
}

/// Marks a block that was handed out.
fn mark<'a>(marks: &mut Marks<'a>, heap: &Heap<Arena<'a>>, address: u64)
    requires granted { IsTrue (is_granted (regions_of heap.now.system) address) }
    requires aligned { address % 16 ≡ 0 }
    requires base { heap.now.system.base ≡ marks.old.base }
    requires room { length heap.now.system.words.now ≤ 128 * length marks.old.words.now }
    requires some { 0 < marks.old.base }
    requires unmarked { is_marked marks.old.base marks.old.words.now address ≡ false }
    requires counted { AreCounted marks.old }
    ensures { IsMarkSet marks.old address true marks.new }
{
    heap.system().law_grants_inside();
    marks.set(address);
}

/// How many of the words beside the marks are for the table: two for each granularity of bytes that the others have.
fn words_for_table(rest: usize, granularity: u64) -> usize
    ensures { result ≡ table_in granularity rest }
{
    let places = rest.div_ceil((granularity / 8) as usize + 2);
    places.saturating_mul(2).min(rest)
}

impl<'a> CheckedHeap<'a> {
    ghost use Rattle.std.specs.Prelude.{◌≡◌, ◌↔◌, ◌+◌, ◌-◌, ◌*◌, ◌/◌, ◌%◌, ◌<◌, ◌≤◌, min, true, false, if◌then◌else◌, Some, None, IfOk, IfSome, IfNone, IsTrue, length, take, drop};
    ghost use Rattle.dlmalloc.specs.State.{countdown_from};
    ghost use Rattle.dlmalloc.specs.Heap.{IsGranularity};
    ghost use Rattle.dlmalloc.specs.Blocks.{ArePlaced, BlocksAreApart};
    ghost use Rattle.dlmalloc.specs.AfterFree.{IsFreed};
    ghost use Rattle.dlmalloc.specs.Shortened.{IsTrimmed};
    ghost use Rattle.dlmalloc.specs.Served.{IsListed};
    ghost use Rattle.heap_arena.specs.Arena.{regions_of, word_of, IsAbove, IsWordPut};
    ghost use Rattle.checked_heap.specs.Begun.{FitsAt, IsBegunOver, IsBegun};
    ghost use Rattle.checked_heap.specs.Answers.{IsRequestAnswered, IsResizeAnswered, IsOnlySet};
    ghost use Rattle.checked_heap.specs.Library.{HasWord};
    ghost use Rattle.sound_heap.specs.Heap.{HasBlock, usable, IsIntact, StaysInState};
    ghost use Rattle.checked_heap.specs.Counted.{HasBlocks};
    ghost use Rattle.checked_heap.specs.Checked.{arena_follows, arena_heap_state, table_in, table_of, left_for_words, words_for_blocks, words_for_table, IsCleared, KeepsWordsOutside};
    ghost use Rattle.checked_heap.specs.Marking.{AreUnset};

    /// An empty heap over words, the first of them at the address `base`. It has a bit of `marks` for each 16 bytes, which
    /// have to be enough; in `table` it notes what it was granted, in two words for each grant. Words and table are as they
    /// were given.
    pub fn new(
        words: &'a mut [u64],
        marks: &'a mut [u64],
        table: &'a mut [u64],
        base: u64,
    ) -> CheckedHeap<'a>
        requires fits { FitsAt base (length words.now) }
        requires room { length words.now ≤ 128 * length marks.now }
        ensures begun { IsBegunOver base words.entry.now table.entry.now result }
    {
        let marks = Marks::new(marks, base);
        CheckedHeap::with_marks(words, marks, table, base)
    }

    /// An empty heap over one memory, the first word of it at the address `base`. Its last words are for the marks, and
    /// those before them for the table, which has a place for each 64 KiB of the others. All but the marks are as they
    /// were given.
    #[tactic(auto, using(crate::proofs::MemoryParts::blocks_of_front, crate::proofs::MemoryParts::table_of_front))]
    pub fn over(memory: &'a mut [u64], base: u64) -> CheckedHeap<'a>
        requires fits { FitsAt base (length memory.now) }
        ensures begun { IsBegun memory.entry.now base 65536 result }
    {
        let count = memory.len();
        let (front, marks) = memory.split_at_mut(count - count.div_ceil(128));
        CheckedHeap::over_front(front, Marks::new(marks, base), base, GRANULARITY)
    }

    /// As `over`, with a granularity, if the words for the marks are 0 already. So words, table and marks are as they
    /// were given. The table has a place for each granularity of bytes.
    pub fn over_cleared(memory: &'a mut [u64], base: u64, granularity: u64) -> CheckedHeap<'a>
        requires fits { FitsAt base (length memory.now) }
        requires cleared { IsCleared memory.now }
        requires granularity { IsGranularity granularity }
        ensures begun { IsBegun memory.entry.now base granularity result }
    {
        let mut heap = CheckedHeap::over_zeros(memory, base, granularity);
        heap.set_granularity(granularity);
        heap
    }

    /// As `over_cleared`, but the heap still has the granularity of a new one. The table has its length.
    #[tactic(auto, using(crate::proofs::Cleared::clear_rest, crate::proofs::MemoryParts::blocks_of_front, crate::proofs::MemoryParts::table_of_front))]
    fn over_zeros(memory: &'a mut [u64], base: u64, granularity: u64) -> CheckedHeap<'a>
        requires fits { FitsAt base (length memory.now) }
        requires cleared { IsCleared memory.now }
        ensures begun { IsBegunOver base (words_for_blocks granularity memory.entry.now) (words_for_table granularity memory.entry.now) result }
        ensures len { length result.system.words.now ≡ left_for_words granularity (length memory.entry.now) }
        ensures table_len { length result.system.table.words.now ≡ table_of granularity (length memory.entry.now) }
    {
        let count = memory.len();
        let (front, zeros) = memory.split_at_mut(count - count.div_ceil(128));
        CheckedHeap::over_front(front, Marks::over_zeros(zeros, base), base, granularity)
    }

    /// An empty heap over words and a table, in this order, and marks of which none is set.
    #[tactic(auto, using(crate::proofs::MemoryParts::blocks_of_parts, crate::proofs::MemoryParts::table_of_parts))]
    fn over_front(
        front: &'a mut [u64],
        marks: Marks<'a>,
        base: u64,
        granularity: u64,
    ) -> CheckedHeap<'a>
        requires fits { FitsAt base (length front.now) }
        requires unset { AreUnset base marks }
        requires room { length front.now ≤ 128 * length marks.words.now }
        ensures begun { IsBegunOver base (take (length front.entry.now - table_in granularity (length front.entry.now)) front.entry.now) (drop (length front.entry.now - table_in granularity (length front.entry.now)) front.entry.now) result }
        ensures len { length result.system.words.now ≡ length front.entry.now - table_in granularity (length front.entry.now) }
        ensures table_len { length result.system.table.words.now ≡ table_in granularity (length front.entry.now) }
    {
        let rest = front.len();
        let (words, table) = front.split_at_mut(rest - words_for_table(rest, granularity));
        CheckedHeap::with_marks(words, marks, table, base)
    }

    /// An empty heap over words for which there are marks, of which none is set.
    fn with_marks(
        words: &'a mut [u64],
        marks: Marks<'a>,
        table: &'a mut [u64],
        base: u64,
    ) -> CheckedHeap<'a>
        requires fits { FitsAt base (length words.now) }
        requires unset { AreUnset base marks }
        requires room { length words.now ≤ 128 * length marks.words.now }
        ensures begun { IsBegunOver base words.entry.now table.entry.now result }
    {
        let arena = Arena::new(words, table, base);
        CheckedHeap {
            heap: Heap::new(arena),
            marks,
        }
    }

    /// Sets the granularity: the arena is asked for multiples of it. True exactly for a power of two of at least 16; any
    /// other number changes nothing.
    pub fn set_granularity(&mut self, granularity: u64) -> bool
        ensures answer { IsTrue result ↔ IsGranularity granularity }
        ensures set { IsOnlySet (record (arena_heap_state self.old) { granularity = if result then granularity else self.old.granularity }) self.old self.new }
    {
        self.heap.set_granularity(granularity)
    }

    /// Sets how many large chunks are freed between two release passes, and begins to count them anew. 0 stands for the
    /// greatest number, 2^64 - 1.
    pub fn set_release_rate(&mut self, rate: u64)
        ensures { IsOnlySet (record (arena_heap_state self.old) { rate = rate; countdown = countdown_from rate }) self.old self.new }
    {
        self.heap.set_release_rate(rate);
    }

    /// Whether a block begins at an address, which may be any.
    pub fn has_block(&self, address: u64) -> bool
        ensures { IsTrue result ↔ HasBlock (arena_heap_state self.now) address }
    {
        self.marks.has(address)
    }

    /// The address of a block of `size` bytes, at a multiple of `align` and of 16.
    pub fn malloc(&mut self, size: u64, align: u64) -> Result<u64, HeapError>
        ensures { IsRequestAnswered self.old size align false result self.new }
    {
        match self.heap.malloc(size, align) {
            Ok(address) => {
                mark(&mut self.marks, &self.heap, address);
                Ok(address)
            }
            Err(error) => Err(error),
        }
    }

    /// As `malloc`; the bytes of the block are 0.
    pub fn calloc(&mut self, size: u64, align: u64) -> Result<u64, HeapError>
        ensures { IsRequestAnswered self.old size align true result self.new }
    {
        match self.heap.calloc(size, align) {
            Ok(address) => {
                mark(&mut self.marks, &self.heap, address);
                Ok(address)
            }
            Err(error) => Err(error),
        }
    }

    /// Gives the block at `from` another size, and answers where it is then, at a multiple of 16. It keeps as many of
    /// its bytes as both sizes have. `NoBlock` if none begins there; then nothing changes.
    pub fn realloc(&mut self, from: u64, size: u64) -> Result<u64, HeapError>
        ensures { IsResizeAnswered self.old from size result self.new }
    {
        if !self.has_block(from) {
            self.heap.law_blocks_apart();
            return Err(HeapError::NoBlock);
        }
        match self.heap.realloc(from, size) {
            Ok(to) => {
                self.marks.clear(from);
                mark(&mut self.marks, &self.heap, to);
                Ok(to)
            }
            Err(error) => Err(HeapError::Refused(error)),
        }
    }

    /// Gives the block at an address back. False if none begins there; then nothing changes.
    pub fn free(&mut self, address: u64) -> bool
        ensures answer { IsTrue result ↔ HasBlock (arena_heap_state self.old) address }
        ensures freed { result ≡ true → IsFreed regions_of word_of arena_follows true true 1 self.old address self.new }
        ensures same { result ≡ false → self.new ≡ self.old }
        ensures outside { KeepsWordsOutside (regions_of self.old.system) self.old.system self.new.system }
    {
        if !self.has_block(address) {
            return false;
        }
        self.marks.clear(address);
        self.heap.free(address);
        true
    }

    /// Gives memory back to the arena that no block needs: the top keeps more than `pad` bytes. True exactly if bytes
    /// went back.
    pub fn trim(&mut self, pad: u64) -> bool
        ensures trimmed { IsTrimmed regions_of word_of arena_follows true true 1 self.old pad result self.new }
        ensures outside { KeepsWordsOutside (regions_of self.old.system) self.old.system self.new.system }
    {
        self.heap.trim(pad)
    }

    /// The bytes of the block at an address, if one begins there: those that were asked for, and at most 71 more.
    pub fn usable_size(&self, address: u64) -> Option<u64>
        ensures some { IfSome result (λ size. HasBlock (arena_heap_state self.now) address × (size ≡ usable (arena_heap_state self.now) address)) }
        ensures none { IfNone result (HasBlock (arena_heap_state self.now) address → ⊥) }
    {
        if self.has_block(address) {
            Some(self.heap.usable_size(address))
        } else {
            None
        }
    }

    /// Whether a block begins at an address and has a whole word at an offset, which is a multiple of 8.
    fn has_word(&self, address: u64, offset: u64) -> bool
        ensures { IsTrue result ↔ HasWord (arena_heap_state self.now) address offset }
    {
        match self.usable_size(address) {
            Some(size) => offset % 8 == 0 && size >= 8 && offset <= size - 8,
            None => false,
        }
    }

    /// The word at an offset of the block at an address; None if there is none. The offset is a multiple of 8.
    pub fn load(&self, address: u64, offset: u64) -> Option<u64>
        ensures some { IfSome result (λ word. HasWord (arena_heap_state self.now) address offset × (word ≡ word_of self.now.system (address + offset))) }
        ensures none { IfNone result (HasWord (arena_heap_state self.now) address offset → ⊥) }
    {
        if self.has_word(address, offset) {
            Some(self.heap.load(address, offset))
        } else {
            None
        }
    }

    /// Puts a word at an offset of the block at an address, and changes nothing else. False if there is none; then
    /// nothing changes. The offset is a multiple of 8.
    pub fn store(&mut self, address: u64, offset: u64, value: u64) -> bool
        ensures answer { IsTrue result ↔ HasWord (arena_heap_state self.old) address offset }
        ensures put { result ≡ true → IsWordPut (address + offset) value self.old.system self.new.system }
        ensures stays { StaysInState regions_of word_of arena_follows self.old self.new }
        ensures same { result ≡ false → self.new ≡ self.old }
    {
        if !self.has_word(address, offset) {
            return false;
        }
        self.heap.law_blocks_placed();
        self.heap.system().law_grants_inside();
        self.heap.store(address, offset, value);
        true
    }

    /// How many blocks there are.
    pub fn blocks(&self) -> u64
        ensures { HasBlocks (arena_heap_state self.now) result }
    {
        self.heap.law_intact();
        self.marks.count()
    }

    /// How many words of the arena from its front are in use: each granted byte is in them.
    pub fn used(&self) -> usize
        ensures top { self.now.system.base + 8 * result ≡ self.now.system.top }
        ensures above { IsAbove self.now.system (self.now.system.base + 8 * result) }
    {
        self.heap.system().used()
    }

    /// How many words of the arena from its front were ever in use: those after them are as they were when the heap began.
    pub fn touched(&self) -> usize
        ensures { self.now.system.base + 8 * result ≡ self.now.system.peak }
    {
        self.heap.system().touched()
    }

    /// The extents of the heap, by ascending address.
    pub fn extents(&self, alloc: Global) -> Result<ExtentList, AllocError>
        ensures { IfOk result (λ list. IsListed word_of self.now list) }
    {
        self.heap.extents(alloc)
    }

    /// The heap is sound, and its bins hold its free extents. With this the clauses about the order of free chunks begin.
    pub fn law_intact(&self)
        ensures { IsIntact regions_of word_of self.now }
    {
        self.heap.law_intact();
    }

    /// Each block is at a multiple of 16, and its bytes are granted; if it has none, one is.
    pub fn law_blocks_placed(&self)
        ensures { ArePlaced (regions_of self.now.system) (arena_heap_state self.now) }
    {
        self.heap.law_blocks_placed();
    }

    /// Two blocks have no byte in common, with one byte for a block that has none.
    pub fn law_blocks_apart(&self)
        ensures { BlocksAreApart (arena_heap_state self.now) }
    {
        self.heap.law_blocks_apart();
    }
}
