// What a C program holds of a heap.
ghost use Rattle.std.specs.Prelude.{◌≡◌};
ghost use Rattle.std.specs.Borrow.{full_share, Lends, sem};
ghost use Rattle.std.specs.Ptr.{lies_at};
ghost use denote.Signature.{static_lft};
ghost use Rattle.dlmalloc.specs.declared.heap.Dlmalloc.{Dlmalloc};
ghost use Rattle.heap_arena.specs.declared.arena.Arena.{Arena};
ghost use Rattle.checked_heap.specs.contracts.checked.CheckedHeap.{the_row as heap_row};

use checked_heap::CheckedHeap;
use std::marker::Model;

/// A heap behind a pointer. Whoever has the handle has the heap, and all of the memory that the heap was given.
#[repr(C)]
#[derive(Drop)]
pub struct Handle {
    pub(crate) room: *mut u8,
    pub ghost heap: { Dlmalloc Arena },
}

impl Model for Handle {
    ghost also_owns = { λ h. lies_at (heap_row static_lft) full_share h.room h.heap };
}

// What it owns, the heap with its words, is no thread's own.
unsafe impl Send for Handle {}

impl Handle {
    ghost use Rattle.limzhur_c.specs.contracts.handle.Handle.{the_row};

    /// The heap. When the borrow ends, the handle has what was done to it.
    pub(crate) fn open(&mut self) -> &mut CheckedHeap<'static>
        ensures* lends { sem 𝓛 (Lends the_row (heap_row static_lft) self.entry result (λ w. record self.old { heap = w })) }
        ensures heap { result.now ≡ self.old.heap }
    {
        unsafe { &mut *(self.room as *mut CheckedHeap<'static>) }
    }
}
