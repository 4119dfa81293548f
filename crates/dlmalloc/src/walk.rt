// Walking over the chunks before the top, and choosing the one that serves a request.
ghost use Rattle.std.specs.Prelude.{◌≡◌, ◌≢◌, ◌+◌, ◌-◌, ◌<◌, ◌≤◌, if◌then◌else◌, option_map, Some, None, IfSome};
ghost use Rattle.dlmalloc_chunks.specs.declared.extent.Extent.{Extent};
ghost use Rattle.dlmalloc_chunks.specs.declared.extent.Kind.TheVariants.{Used, Free, Top};
ghost use Rattle.dlmalloc_chunks.specs.Chunk.{HasHead};
ghost use Rattle.dlmalloc.specs.Extents.{extent_at};
ghost use Rattle.dlmalloc.specs.State.{is_free_below_top, extents_in};
ghost use Rattle.dlmalloc.specs.Choice.{least_fit, goes_first, chosen, IsChosen};
ghost use Rattle.dlmalloc.specs.Stored.{LiesInItsSegment};
ghost use Rattle.dlmalloc.specs.Walk.{chunk_told};
ghost use Rattle.dlmalloc.specs.Binned.{IsIntactBy, IsMember};
ghost use Rattle.dlmalloc.specs.declared.walk.Place.{Place};
ghost use Rattle.dlmalloc.specs.declared.walk.Choice.TheVariants.{Chunk, Top as OfTop};
ghost use Rattle.dlmalloc.specs.declared.walk.Tail.TheVariants.{OneRecord};
ghost use Rattle.dlmalloc.specs.Heap.{state_of};

use crate::heap::Dlmalloc;
use crate::layout::{BLOCK, LEAST_LARGE};
use dlmalloc_chunks::{Extent, Kind, chunk};
use heap_memory::{Allocator, Steps};
use std::sync::ledger::Ledger;

/// A free chunk before the top.
#[derive(Clone, Copy)]
pub(crate) struct Place {
    /// Its address.
    pub(crate) at: u64,
    /// The number of its bytes.
    pub(crate) size: u64,
}

/// What stands after the chunks of a segment.
#[derive(Clone, Copy)]
pub(crate) enum Tail {
    /// The top and its foot.
    TopAndFoot,
    /// A record of this many bytes.
    OneRecord(u64),
}

/// A segment, as its chunks and what stands after them.
#[derive(Clone, Copy)]
pub(crate) struct Span {
    /// Where its chunks begin.
    pub(crate) from: u64,
    /// Where they end.
    pub(crate) to: u64,
    /// What stands after them.
    pub(crate) tail: Tail,
    /// The payload of the next segment's record, 0 if there is none.
    pub(crate) next: u64,
}

/// What serves a request.
#[derive(Clone, Copy)]
pub(crate) enum Choice {
    /// A free chunk before the top: one in a bin, or the victim.
    Chunk(Place),
    /// The top.
    Top,
}

/// The kind of a chunk that is in use, or is not.
fn kind_where(inuse: bool) -> Kind
    ensures { result ≡ (if inuse then Used else Free) }
{
    if inuse { Kind::Used } else { Kind::Free }
}

/// Whether an extent is free and not the top.
pub(crate) fn is_free_below_top(kind: Kind) -> bool
    ensures { result ≡ is_free_below_top kind }
{
    matches!(kind, Kind::Free | Kind::Victim)
}

impl<A: Allocator> Dlmalloc<A> {
    /// The chunk that begins at an address, as its head describes it.
    pub(crate) fn chunk_at<L: Ledger>(&self, at: u64, steps: &mut Steps<L>) -> Extent
        requires { HasHead (A.regions self.now.system) at }
        ensures { result ≡ chunk_told (A.word self.now.system) at }
    {
        Extent {
            at,
            size: chunk::size(&self.system, at, steps),
            kind: kind_where(chunk::inuse(&self.system, at, steps)),
        }
    }

    /// The segment whose record has its payload at an address.
    pub(crate) fn span_at<L: Ledger>(&self, payload: u64, steps: &mut Steps<L>) -> Span
        requires { LiesInItsSegment (A.regions self.now.system) (A.word self.now.system) payload }
        ensures { result ≡ record { from = A.word self.now.system payload; to = payload - 16; tail = OneRecord (A.word self.now.system payload + A.word self.now.system (payload + 8) - (payload - 16)); next = A.word self.now.system (payload + 16) } }
    {
        let from = self.system.load_counted(payload, steps);
        let size = self.system.load_counted(payload + 8, steps);
        let next = self.system.load_counted(payload + 16, steps);
        let to = payload - BLOCK;
        Span {
            from,
            to,
            tail: Tail::OneRecord(from + size - to),
            next,
        }
    }

    /// The least chunk in a bin that has at least `n` bytes.
    pub(crate) fn find_free<L: Ledger>(&self, n: u64, steps: &mut Steps<L>) -> Option<Place>
        requires intact { IsIntactBy A.Links self.now }
        ensures least { least_fit (state_of A.word self.now) n ≡ option_map (λ place. place.size) result }
        ensures there { IfSome result (λ place. extent_at place.at (extents_in (state_of A.word self.now)) ≡ Some (record { at = place.at; size = place.size; kind = Free })) }
        ensures other { IfSome result (λ place. place.at ≢ self.now.victim) }
        ensures fits { IfSome result (λ place. n ≤ place.size) }
        ensures member { IfSome result (λ place. IsMember A.regions A.word self.now n place.at) }
        ensures counted { steps.new ≤ steps.old + 367 }
    {
        match self.bins.least_fit(&self.system, n, steps) {
            Some(at) => Some(Place {
                at,
                size: chunk::size(&self.system, at, steps),
            }),
            None => None,
        }
    }

    /// Whether a chunk in a bin that is the least for `n` bytes goes before the victim: if the victim is too small;
    /// else if it fits exactly, and for a large request if it is smaller.
    fn goes_first(&self, n: u64, size: u64) -> bool
        ensures { result ≡ goes_first n self.now.victim_size size }
    {
        self.victim_size < n
            || if n < LEAST_LARGE {
                size == n
            } else {
                size < self.victim_size
            }
    }

    /// What serves a request of `n` bytes (dlmalloc: `malloc`).
    pub(crate) fn choose<L: Ledger>(&self, n: u64, steps: &mut Steps<L>) -> Option<Choice>
        requires intact { IsIntactBy A.Links self.now }
        requires there { 0 < self.now.size }
        requires least { 32 ≤ n }
        ensures none { result ≡ None → chosen (state_of A.word self.now) n ≡ None }
        ensures chunk { (place : Place) → result ≡ Some (Chunk place) → IsChosen (state_of A.word self.now) n (record { at = place.at; size = place.size; kind = Free }) }
        ensures fits { (place : Place) → result ≡ Some (Chunk place) → n ≤ place.size }
        ensures top { result ≡ Some OfTop → IsChosen (state_of A.word self.now) n (record { at = self.now.top; size = self.now.top_size; kind = Top }) }
        ensures top_fits { result ≡ Some OfTop → n < self.now.top_size }
        ensures member { (place : Place) → result ≡ Some (Chunk place) → place.at ≢ self.now.victim → IsMember A.regions A.word self.now n place.at }
        ensures counted { steps.new ≤ steps.old + 367 }
    {
        let fit = self.find_free(n, steps);
        let victim = Place {
            at: self.victim,
            size: self.victim_size,
        };
        match fit {
            Some(place) if self.goes_first(n, place.size) => Some(Choice::Chunk(place)),
            Some(_) => Some(Choice::Chunk(victim)),
            None if n <= victim.size => Some(Choice::Chunk(victim)),
            None if n < self.top_size => Some(Choice::Top),
            None => None,
        }
    }
}
