ghost use Rattle.std.specs.Prelude.{◌≡◌, ◌↔◌, if◌then◌else◌, IsTrue};
ghost use Rattle.dlmalloc.specs.State.{new_heap, countdown_from};
ghost use Rattle.dlmalloc.specs.Heap.{state_of, IsSoundBy, IsGranularity};
ghost use Rattle.dlmalloc.specs.Order.{KeepsIndex};
ghost use Rattle.dlmalloc.specs.Binned.{IsBinnedBy};

use bins::Bins;
use heap_memory::Allocator;

/// The granularity of a new heap, in bytes.
const DEFAULT_GRANULARITY: u64 = 65536;

/// The number of large chunks that a new heap frees between two release passes.
const DEFAULT_RATE: u64 = 4095;

/// A heap over a system (dlmalloc: `Dlmalloc`).
#[derive(Drop)]
pub struct Dlmalloc<A: Allocator> {
    pub(crate) system: A,
    /// The head segment: its first address, its bytes, of which there are none before the first grant, and its flags.
    pub(crate) base: u64,
    pub(crate) size: u64,
    pub(crate) flags: u32,
    /// Where the payload of the next segment's record begins, 0 if there is no other segment.
    pub(crate) next: u64,
    /// The free chunk at the end of the head segment.
    pub(crate) top: u64,
    pub(crate) top_size: u64,
    /// The free chunk that is cut first for small requests. It has no bytes if there is none.
    pub(crate) victim: u64,
    pub(crate) victim_size: u64,
    /// The other free chunks but the top, by size.
    pub(crate) bins: Bins,
    pub(crate) granularity: u64,
    pub(crate) rate: u64,
    pub(crate) countdown: u64,
    /// The bytes of the top above which a free is to give some of it back.
    pub(crate) trim_check: u64,
}

/// A countdown that begins.
pub(crate) fn countdown_from(rate: u64) -> u64
    ensures { result ≡ countdown_from rate }
{
    if rate == 0 { u64::MAX } else { rate }
}

/// Whether a system may be asked for multiples of this number of bytes (own).
pub fn is_granularity(granularity: u64) -> bool
    ensures { IsTrue result ↔ IsGranularity granularity }
{
    granularity.is_power_of_two() && granularity >= 16
}

impl<A: Allocator> Dlmalloc<A> {
    ghost use Rattle.std.specs.Borrow.{Lends, sem};
    ghost use Rattle.dlmalloc.specs.contracts.heap.Dlmalloc.{the_row};

    /// An empty heap over a system (dlmalloc: `Dlmalloc::new_with_allocator`).
    pub fn new_with_allocator(system: A) -> Dlmalloc<A>
        ensures state { state_of A.word result ≡ new_heap }
        ensures system { result.system ≡ system }
        ensures sound { IsSoundBy A.Links result }
        ensures linked { IsBinnedBy A.Links result }
    {
        Dlmalloc {
            system,
            base: 0,
            size: 0,
            flags: 0,
            next: 0,
            top: 0,
            top_size: 0,
            victim: 0,
            victim_size: 0,
            bins: Bins::new(),
            granularity: DEFAULT_GRANULARITY,
            rate: DEFAULT_RATE,
            countdown: 0,
            trim_check: 0,
        }
    }

    /// Sets how many large chunks are freed between two release passes, and begins to count them anew. 0 stands for the
    /// greatest number.
    pub fn set_max_release_check_rate(&mut self, rate: u64)
        ensures state { state_of A.word self.new ≡ record (state_of A.word self.old) { rate = rate; countdown = countdown_from rate } }
        ensures system { self.new.system ≡ self.old.system }
        ensures sound { IsSoundBy A.Links self.old → IsSoundBy A.Links self.new }
        ensures linked { IsBinnedBy A.Links self.old → IsBinnedBy A.Links self.new }
        ensures index { KeepsIndex A.regions A.word self.old self.new }
    {
        self.rate = rate;
        self.countdown = countdown_from(rate);
    }

    /// How many large chunks are freed between two release passes; 0 stands for the greatest number (own).
    pub fn max_release_check_rate(&self) -> u64
        ensures { result ≡ (state_of A.word self.now).rate }
    {
        self.rate
    }

    /// How many large chunks are freed before the next release pass (own).
    pub fn release_checks(&self) -> u64
        ensures { result ≡ (state_of A.word self.now).countdown }
    {
        self.countdown
    }

    /// How long the top may be, in bytes, before a free gives some of it back (own).
    pub fn trim_check(&self) -> u64
        ensures { result ≡ (state_of A.word self.now).trim_check }
    {
        self.trim_check
    }

    /// Sets the granularity: the system is asked for multiples of it. True exactly for a power of two of at least 16;
    /// any other number changes nothing.
    pub fn set_granularity(&mut self, granularity: u64) -> bool
        ensures answer { IsTrue result ↔ IsGranularity granularity }
        ensures state { state_of A.word self.new ≡ record (state_of A.word self.old) { granularity = if result then granularity else self.old.granularity } }
        ensures system { self.new.system ≡ self.old.system }
        ensures sound { IsSoundBy A.Links self.old → IsSoundBy A.Links self.new }
        ensures linked { IsBinnedBy A.Links self.old → IsBinnedBy A.Links self.new }
        ensures index { KeepsIndex A.regions A.word self.old self.new }
    {
        let accepted = is_granularity(granularity);
        if accepted {
            self.granularity = granularity;
        }
        accepted
    }

    /// The system, to be changed. The heap stays sound, and in its state, and its bins linked, if what is done leaves
    /// as they are the regions of its segments, and every word of the segments outside of blocks: `law_rests_outside`.
    pub fn allocator_mut(&mut self) -> &mut A
        ensures* lends { sem 𝓛 (Lends (the_row A.row) A.row self.entry result (λ w. record self.old { system = w })) }
        ensures value { result.now ≡ self.old.system }
    {
        &mut self.system
    }

    /// The system.
    pub fn allocator(&self) -> &A
        ensures { result.now ≡ self.now.system }
    {
        &self.system
    }

    /// The granularity, in bytes.
    pub fn granularity(&self) -> u64
        ensures { result ≡ self.now.granularity }
    {
        self.granularity
    }
}
