// Where a heap begins: in memory that C gives for good.
ghost use Rattle.std.specs.Prelude.{◌≡◌, ℕ, ◌*◌, ◌^◌, ◌<◌, List, length};
ghost use types.Logic.{sem};
ghost use base.Fraction.{full_share};
ghost use denote.Array.{Array};
ghost use denote.Builtin.{u64};
ghost use denote.RawPtr.{lies_at, room_at};
ghost use denote.Signature.{static_lft};
ghost use Rattle.dlmalloc.specs.Heap.{IsGranularity};
ghost use Rattle.dlmalloc.specs.declared.heap.Dlmalloc.{Dlmalloc};
ghost use Rattle.heap_arena.specs.declared.arena.Arena.{Arena};
ghost use Rattle.checked_heap.specs.contracts.checked.CheckedHeap.{the_row as heap_row};
ghost use Rattle.checked_heap.specs.Checked.{IsCleared};
ghost use Rattle.checked_heap.specs.Begun.{FitsAt, IsBegun};
ghost use Rattle.std.specs.Mem.{type_size};

use checked_heap::CheckedHeap;

/// How many bytes the room of a heap has to have.
#[unsafe(no_mangle)]
pub extern "C" fn limzhur_room() -> usize
    ensures { result ≡ type_size (heap_row static_lft) }
{
    size_of::<CheckedHeap<'static>>()
}

/// An empty heap of a granularity over a memory, whose first word is at an address.
fn begin(memory: &'static mut [u64], address: u64, granularity: u64) -> CheckedHeap<'static>
    requires fits { FitsAt address (length memory.now) }
    requires cleared { IsCleared memory.now }
    requires granularity { IsGranularity granularity }
    ensures begun { IsBegun memory.entry.now address granularity result }
{
    CheckedHeap::over_cleared(memory, address, granularity)
}

/// The words at a pointer. Whoever gives them has them no longer.
pub(crate) unsafe fn words_at(memory: *mut u64, count: usize) -> &'static mut [u64]
    ghost words: { List ℕ }
    requires* memory { sem 𝓛 (lies_at (Array u64 count) full_share memory words) }
    requires few { count < 2 ^ 60 }
    ensures words { (result.now ≡ words) × (length result.now ≡ count) }
{
    std::slice::from_raw_parts_mut(memory, count)
}

/// Makes an empty heap of a granularity in a room, over `count` words of memory, the first of them at `address`. Room and
/// memory are then the heap's; a handle that leads to the room has both.
#[unsafe(no_mangle)]
pub unsafe extern "C" fn limzhur_init_with(
    room: *mut u8,
    memory: *mut u64,
    count: usize,
    address: u64,
    granularity: u64,
)
    ghost words: { List ℕ }
    requires* room { sem 𝓛 (room_at (heap_row static_lft) room) }
    requires* memory { sem 𝓛 (lies_at (Array u64 count) full_share memory words) }
    requires few { count < 2 ^ 60 }
    requires cleared { IsCleared words }
    requires fits { FitsAt address count }
    requires granularity { IsGranularity granularity }
    ensures* heap { ∃ₛ (λ (heap : Dlmalloc Arena). sem 𝓛 (lies_at (heap_row static_lft) full_share room heap) ∗ ⌜ IsBegun words address granularity heap ⌝) }
{
    let heap = begin(words_at(memory, count), address, granularity);
    (room as *mut CheckedHeap<'static>).write(heap);
}

/// The same, with a granularity of 64 KiB.
#[unsafe(no_mangle)]
pub unsafe extern "C" fn limzhur_init(room: *mut u8, memory: *mut u64, count: usize, address: u64)
    ghost words: { List ℕ }
    requires* room { sem 𝓛 (room_at (heap_row static_lft) room) }
    requires* memory { sem 𝓛 (lies_at (Array u64 count) full_share memory words) }
    requires few { count < 2 ^ 60 }
    requires cleared { IsCleared words }
    requires fits { FitsAt address count }
    ensures* heap { ∃ₛ (λ (heap : Dlmalloc Arena). sem 𝓛 (lies_at (heap_row static_lft) full_share room heap) ∗ ⌜ IsBegun words address 65536 heap ⌝) }
{
    limzhur_init_with(room, memory, count, address, 65536);
}
