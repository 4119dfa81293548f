// The record at the end of a segment that is not the head.
ghost use Rattle.std.specs.Prelude.{◌≡◌, ℕ, ◌+◌, ◌%◌, ◌^◌, ◌<◌, ◌≤◌, ◌⊎◌, true, [], ◌∷◌};
ghost use Rattle.heap_memory.specs.Regions.{IsWordOf};
ghost use Rattle.dlmalloc_chunks.specs.Chunk.{StoresWords};
ghost use Rattle.dlmalloc_chunks.specs.Head.{head_of};
ghost use Rattle.dlmalloc.specs.Record.{IsRecordAt};
ghost use Rattle.dlmalloc.specs.Stored.{KeepsWords, CanHoldRecord};

use crate::layout::{BLOCK, CINUSE, FENCE, FENCES, HEAD, PINUSE, RECORD_CHUNK};
use heap_memory::{Links, Steps};
use std::sync::ledger::Ledger;

/// What a record says (dlmalloc: `Segment`).
#[derive(Clone, Copy)]
pub(crate) struct SegmentRecord {
    /// The first address of the segment.
    pub(crate) base: u64,
    /// The number of its bytes.
    pub(crate) size: u64,
    /// Where the payload of the next record begins, 0 if there is none.
    pub(crate) next: u64,
    /// The segment's flags.
    pub(crate) flags: u32,
}

/// The head of a record's chunk; the chunk before it is in use, or free.
fn record_head(is_behind_used: bool) -> u64
    ensures { result ≡ head_of 48 is_behind_used true }
{
    RECORD_CHUNK + CINUSE + if is_behind_used { PINUSE } else { 0 }
}

/// Puts the record of a segment from an address up to the segment's end: its head, its payload, and fences after it.
pub(crate) fn put_record<M: Links, L: Ledger>(
    memory: &mut M,
    at: u64,
    end: u64,
    is_behind_used: bool,
    told: &SegmentRecord,
    steps: &mut Steps<L>,
)
    requires { CanHoldRecord (M.regions memory.old) at end }
    ensures told { IsRecordAt (M.word memory.new) at told.now end is_behind_used }
    ensures rest { KeepsWords M.Links (λ k. (k ≤ at) ⊎ (end ≤ k)) memory.old memory.new }
{
    put_fences(memory, at + FENCES, end, steps);
    put_payload(memory, at, record_head(is_behind_used), told, steps);
}

/// Puts the head of a record, and its payload.
fn put_payload<M: Links, L: Ledger>(
    memory: &mut M,
    at: u64,
    head: u64,
    told: &SegmentRecord,
    steps: &mut Steps<L>,
)
    requires high { at + 48 < 2 ^ 64 }
    requires granted { (k : ℕ) → at < k → k < at + 48 → k % 8 ≡ 0 → IsWordOf (M.regions memory.old) k }
    requires aligned { at % 8 ≡ 0 }
    ensures { StoresWords M.Links
        ((at + 8, head) ∷ (at + 16, told.now.base) ∷ (at + 16 + 8, told.now.size) ∷ (at + 16 + 16, told.now.next) ∷ (at + 16 + 24, told.now.flags) ∷ []) memory.old memory.new }
{
    let payload = at + BLOCK;
    memory.store_counted(at + HEAD, head, steps);
    memory.store_counted(payload, told.base, steps);
    memory.store_counted(payload + 8, told.size, steps);
    memory.store_counted(payload + 16, told.next, steps);
    memory.store_counted(payload + 24, u64::from(told.flags), steps);
}

/// Puts a fence into each word from an address up to another.
fn put_fences<M: Links, L: Ledger>(memory: &mut M, from: u64, to: u64, steps: &mut Steps<L>)
    requires aligned { from % 8 ≡ 0 }
    requires end_aligned { to % 8 ≡ 0 }
    requires ordered { from ≤ to }
    requires granted { (k : ℕ) → from ≤ k → k < to → k % 8 ≡ 0 → IsWordOf (M.regions memory.old) k }
    ensures fences { (k : ℕ) → from ≤ k → k < to → k % 8 ≡ 0 → M.word memory.new k ≡ 11 }
    ensures rest { KeepsWords M.Links (λ k. (k < from) ⊎ (to ≤ k)) memory.old memory.new }
{
    let mut at = from;
    while at < to {
        memory.store_counted(at, FENCE, steps);
        at += 8;
    }
}
