ghost use Rattle.std.specs.Prelude.{◌≡◌, ℕ, ◌+◌, ◌*◌, ◌^◌, ◌<◌, ◌≤◌, ◌↔◌, IsSome, IfSome, IsTrue, List, Bool, Some, true, false, length, IsFalse};
ghost use Rattle.std.specs.Option.{option_map};
ghost use Rattle.paging_core.specs.Address.{is_canonical};
ghost use Rattle.paging_core.specs.Area.{in_area, Whole};
ghost use Rattle.paging_core.specs.Memory.{frame_count};
ghost use Rattle.paging_core.specs.Walk.{reach, large_of, mapped_place};
ghost use Rattle.paging_core.specs.Pool.{is_frame_free, free_count, IsOut};
ghost use Rattle.paging_core.specs.Runs.{IsRunFree};
ghost use Rattle.paging_core.specs.Moments.{IsChangedIn, IsStill};
ghost use Rattle.paging_core.specs.Large.{slot_of, missing_above, IsSlotEmpty, IsLargeAdded, AreFramesCleared, IsLargeEntry, IsLargeCleared};
ghost use Rattle.paging_core.specs.Outcomes.{IsTreeAndPool, KeepsOtherSlots, IsSlotMapped, IsTreeAndFlags, IsSlotPut, IsSlotCleared, IsSlotCut, IsTableFilled};
ghost use Rattle.paging_core.specs.EntryPlace.{IsEntryIn, IsRoot};
ghost use Rattle.paging_core.specs.Premises.{IsLargePage, IsSlotMappable};

use crate::frame_allocator::{FrameAllocator, FrameDeallocator};
use crate::memory::Frames;
use crate::page_table::{PageBits, PageTableEntry};
use crate::page_walk::{Mapped, descend, large_at};
use crate::pages::{Page, Size2MiB, index_after};
use crate::phys_frames::PhysFrame;
use crate::physical_memory::PhysicalMemory;
use crate::pool::FramePool;
use crate::table_frames::TableFrames;
use crate::tables::ensure_tables;

/// The first page of the slot.
fn first_page(page: Page<Size2MiB>) -> Page
    ensures { result ≡ 512 * page }
{
    Page::containing_address(page.start_address())
}

/// The first frame of the run.
fn first_frame(frame: PhysFrame<Size2MiB>) -> PhysFrame
    ensures first { result ≡ 512 * frame }
    ensures fits { result + 512 ≤ 2 ^ 40 }
{
    let _fits = frame.number();
    PhysFrame::containing_address(frame.start_address())
}

/// Maps the slot of the page to the run of frames with the rights, by one entry. The tables above it that are missing
/// are made, each in a frame from the pool.
///
/// No page of the slot is mapped, and it has no table. In a whole memory the frames are neither free nor those of tables,
/// and no page leads to them; if the tables lie in an area, a page may lead to any frame, to a table's too. The pool has
/// the frames for the missing tables.
pub fn map_large<M: PhysicalMemory, P: TableFrames>(
    frames: &mut M,
    pool: &mut P,
    root: PhysFrame,
    page: Page<Size2MiB>,
    frame: PhysFrame<Size2MiB>,
    rights: PageBits,
)
    requires standing { IsTreeAndPool (M.area frames.old) (M.words frames.old) root (P.free pool.old) }
    requires mappable { IsSlotMappable (M.area frames.old) (M.words frames.old) root page frame }
    requires used { M.area frames.old ≡ Whole → (k : ℕ) → k < 512 → is_frame_free (P.free pool.old) (512 * frame + k) ≡ false }
    requires room { missing_above (M.words frames.old) root page ≤ free_count (P.free pool.old) }
    requires before { (now : List ℕ) → IsStill (M.area frames.old) (M.words frames.old) root now → M.allows now }
    requires seen { (now : List ℕ) (free : List Bool) → IsLargeAdded (M.words frames.old) now (P.free pool.old) free root page frame rights → M.allows now }
    ensures put { IsSlotPut (M.area frames.old) (M.area frames.new) (M.words frames.old) (M.words frames.new) (P.free pool.old) (P.free pool.new) root page frame rights }
{
    let first = first_page(page);
    let table = ensure_tables(frames, pool, root, first, 2);
    let entry = PageTableEntry::to_large(first_frame(frame), rights);
    frames.set_word(table, index_after(first, 2), entry.bits());
}

/// Makes the frames in a row 0.
fn clear_frames(frames: &mut Frames, first: PhysFrame, count: u64)
    requires inside { first + count ≤ frame_count frames.old }
    requires bounded { first + count ≤ 2 ^ 40 }
    ensures { AreFramesCleared frames.old frames.new first count }
{
    for step in 0..count {
        frames.clear_frame(first.after(step));
    }
}

/// Maps the slot with the rights to the lowest run of frames that are all free, which is cleared. False exactly if
/// there is none; then nothing is changed.
///
/// No page of the slot is mapped, and it has no table. The pool has the frames of a run and for the missing tables.
pub fn map_slot(
    frames: &mut Frames,
    pool: &mut FramePool,
    root: PhysFrame,
    page: Page<Size2MiB>,
    rights: PageBits,
) -> bool
    requires standing { IsTreeAndPool Whole frames.old root pool.old }
    requires empty { IsSlotEmpty frames.old root page }
    requires room { 512 + missing_above frames.old root page ≤ free_count pool.old }
    ensures standing { IsTreeAndPool Whole frames.new root pool.new }
    ensures full { IsFalse result → ((run : ℕ) → IsRunFree pool.old run → ⊥) × (frames.new ≡ frames.old) × (pool.new ≡ pool.old) }
    ensures mapped { IsTrue result → IsSlotMapped frames.old frames.new pool.old pool.new root page rights }
    ensures others { KeepsOtherSlots Whole frames.old frames.new root page }
{
    let run: Option<PhysFrame<Size2MiB>> = pool.allocate_frame();
    let Some(run) = run else {
        return false;
    };
    clear_frames(frames, first_frame(run), 512);
    map_large(frames, pool, root, page, run, rights);
    true
}

/// The large page of the slot, by its first frame. None exactly if the slot is not mapped by one entry.
pub fn large_page<M: PhysicalMemory>(
    frames: &M,
    root: PhysFrame,
    page: Page<Size2MiB>,
) -> Option<Mapped>
    requires root { IsRoot (M.words frames.now) root }
    ensures { option_map mapped_place result ≡ large_of (M.words frames.now) root (slot_of page) }
{
    let first = first_page(page);
    let at = descend(frames, root, first, 2)?;
    large_at(frames, at, index_after(first, 2))
}

/// Whether the slot has a table, whose entries map its pages.
pub fn has_table<M: PhysicalMemory>(frames: &M, root: PhysFrame, page: Page<Size2MiB>) -> bool
    requires root { IsRoot (M.words frames.now) root }
    ensures { IsTrue result ↔ IsSome (reach (M.words frames.now) root 3 (slot_of page)) }
{
    descend(frames, root, first_page(page), 3).is_some()
}

/// The entry that maps a slot: its table, its index there, and the large page.
#[derive(Clone, Copy)]
pub(crate) struct LargeEntry {
    pub(crate) table: PhysFrame,
    pub(crate) index: u16,
    pub(crate) large: Mapped,
}

/// The entry of the slot, which is mapped by one.
pub(crate) fn large_entry<M: PhysicalMemory>(
    frames: &M,
    root: PhysFrame,
    page: Page<Size2MiB>,
) -> LargeEntry
    requires page { IsLargePage (M.words frames.now) root page }
    ensures entry { IsLargeEntry (M.words frames.now) root page result.table result.index (mapped_place result.large) }
    ensures place { IsEntryIn (M.area frames.now) (M.words frames.now) result.table result.index }
    ensures bounded { result.large.frame + 512 < 2 ^ 40 }
    ensures canonical { IsTrue (is_canonical (512 * page * 4096)) }
{
    let first = first_page(page);
    let Some(at) = descend(frames, root, first, 2) else {
        unreachable!()
    };
    let table = at.frame;
    let index = index_after(first, 2);
    let Some(large) = large_at(frames, at, index) else {
        unreachable!()
    };
    LargeEntry {
        table,
        index,
        large,
    }
}

/// Unmaps the slot of the page: its entry becomes 0, and no other word is changed. The answer is the run of frames to
/// which the slot led.
///
/// The slot is mapped by one entry. The tables stay, and the frames are still handed out.
pub fn unmap_large<M: PhysicalMemory>(
    frames: &mut M,
    root: PhysFrame,
    page: Page<Size2MiB>,
) -> PhysFrame<Size2MiB>
    requires page { IsLargePage (M.words frames.old) root page }
    requires seen { (now : List ℕ) → IsLargeCleared (M.words frames.old) now root page → M.allows now }
    ensures frame { IfSome (large_of (M.words frames.old) root (slot_of page)) (λ large. 512 * result ≡ large.frame) }
    ensures below { 512 * result + 511 < frame_count (M.words frames.new) }
    ensures cleared { IsSlotCleared (M.area frames.old) (M.area frames.new) (M.words frames.old) (M.words frames.new) root page }
{
    let LargeEntry {
        table,
        index,
        large,
    } = large_entry(frames, root, page);
    frames.set_word(table, index, 0);
    PhysFrame::containing_address(large.frame.start_address())
}

/// Writes the entries of a table that map its first pages to frames in a row, in ascending order.
pub(crate) fn fill_table<M: PhysicalMemory>(
    frames: &mut M,
    table: PhysFrame,
    first: PhysFrame,
    count: u16,
    rights: PageBits,
)
    requires inside { in_area (M.area frames.old) table ≡ true }
    requires table { table < frame_count (M.words frames.old) }
    requires count { count ≤ 512 }
    requires first { first + 512 < 2 ^ 40 }
    requires seen { (now : List ℕ) → IsChangedIn (M.words frames.old) now table → M.allows now }
    ensures area { M.area frames.new ≡ M.area frames.old }
    ensures filled { IsTableFilled (M.words frames.old) (M.words frames.new) table first count rights }
{
    for index in 0..count {
        let entry = PageTableEntry::to_page(first.after(u64::from(index)), rights);
        frames.set_word(table, index, entry.bits());
    }
}

/// Gives frames in a row back.
fn free_frames(pool: &mut FramePool, first: PhysFrame, count: u64)
    requires first { first + count < 2 ^ 40 }
    requires out { (k : ℕ) → k < count → IsOut pool.old (first + k) }
    ensures flags { length pool.new ≡ length pool.old }
    ensures given { (k : ℕ) → k < count → is_frame_free pool.new (first + k) ≡ true }
    ensures kept { (f : ℕ) → ((k : ℕ) → k < count → f ≡ first + k → ⊥) → is_frame_free pool.new f ≡ is_frame_free pool.old f }
    ensures count { free_count pool.new ≡ free_count pool.old + count }
{
    for step in 0..count {
        pool.deallocate_frame(first.after(step));
    }
}

/// Cuts the large page of the slot: its first `keep` pages keep their frames and rights, by a table of single entries. The
/// first frame given up becomes that table, and the others are free.
///
/// The slot is mapped by one entry, and its frames were handed out. At least one page is kept, and not all are.
pub fn cut_large(
    frames: &mut Frames,
    pool: &mut FramePool,
    root: PhysFrame,
    page: Page<Size2MiB>,
    keep: u16,
)
    requires standing { IsTreeAndFlags frames.old root pool.old }
    requires page { IsLargePage frames.old root page }
    requires some { 0 < keep }
    requires part { keep < 512 }
    ensures cut { IsSlotCut frames.old frames.new pool.old pool.new root page keep }
{
    let LargeEntry {
        table,
        index,
        large,
    } = large_entry(frames, root, page);
    let made = large.frame.after(u64::from(keep));
    frames.clear_frame(made);
    fill_table(frames, made, large.frame, keep, large.bits());
    frames.set_word(table, index, PageTableEntry::to_table(made).bits());
    free_frames(pool, made.after(1), 511 - u64::from(keep));
}
