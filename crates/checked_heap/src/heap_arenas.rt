// A heap over several arenas.
ghost use Rattle.std.specs.Prelude.{◌≡◌};
ghost use Rattle.dlmalloc.specs.Heap.{state_of};
ghost use Rattle.heap_arena.specs.Arenas.{regions_of_all, word_among};
ghost use Rattle.checked_heap.specs.Answers.{IsArenaAnswered};
ghost use Rattle.sound_heap.specs.Heap.{IsIntact};

use dlmalloc::Dlmalloc;
use heap_arena::{AddFault, Arena, Arenas};
use sound_heap::Heap;

/// Has the system of a heap take a further arena.
fn add<'a, const N: usize>(
    heap: &mut Dlmalloc<Arenas<'a, N>>,
    arena: Arena<'a>,
) -> Result<(), (AddFault, Arena<'a>)>
    requires { IsIntact (λ a. regions_of_all a.arenas.items) (λ a at. word_among a.arenas.items at) heap.old }
    ensures answered { IsArenaAnswered (λ a. a.arenas.items) N heap.old arena.entry result heap.new }
    ensures state { state_of (λ a at. word_among a.arenas.items at) heap.new ≡ state_of (λ a at. word_among a.arenas.items at) heap.old }
    ensures intact { IsIntact (λ a. regions_of_all a.arenas.items) (λ a at. word_among a.arenas.items at) heap.new }
{
    heap.law_rests_outside();
    heap.allocator_mut().add(arena)
}

/// Has a heap take a further arena. What the heap asks for is granted by the first arena, by ascending address, that has
/// room for it: one at a low address is asked before those that the heap already had above it. Blocks stay where they are,
/// and keep their bytes, and all of the heap but its arenas is as it was. An arena that is not taken comes back with the
/// reason, and nothing changes then.
pub fn add_arena<'a, const N: usize>(
    heap: &mut Heap<Arenas<'a, N>>,
    arena: Arena<'a>,
) -> Result<(), (AddFault, Arena<'a>)>
    ensures answered { IsArenaAnswered (λ a. a.arenas.items) N heap.old arena.entry result heap.new }
    ensures state { state_of (λ a at. word_among a.arenas.items at) heap.new ≡ state_of (λ a at. word_among a.arenas.items at) heap.old }
{
    add(&mut heap.heap, arena)
}
