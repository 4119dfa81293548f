// What is done to the system of a heap beside the heap: it stays in its state, with its regions and the order of its bins.
ghost use Rattle.std.specs.Prelude.{◌≡◌, [], IfErr, OnOk, length};
ghost use Rattle.machine_model.specs.Slots.{listed_slots};
ghost use Rattle.sound_heap.specs.Heap.{AreInBlock};
ghost use Rattle.paged_systems.specs.Beside.{IsUserMapped, IsMapDenied, IsUserUnmapped, IsUnmapDenied};
ghost use Rattle.kernel_heap.specs.Heap.{heap_state};
ghost use Rattle.kernel_heap.specs.Moves.{IsKeptBeside};
ghost use Rattle.paged_systems.specs.System.{paged};
ghost use Rattle.paged_systems.specs.Written.{AreBytesWritten};

use machine_model::{Rights, SlotList};
use mapped_regions::{MapFault, UnmapFault};
use paged_systems::PagedSystem;
use sound_heap::Heap;

/// Maps pages as a region of the user.
pub(crate) fn map(
    heap: &mut Heap<PagedSystem>,
    start: u64,
    pages: u64,
    rights: Rights,
) -> Result<(), MapFault>
    ensures ok { OnOk result (IsUserMapped (paged heap.old.system) (paged heap.new.system) start pages rights) }
    ensures err { IfErr result (λ fault. IsMapDenied (paged heap.old.system) (paged heap.new.system) start pages fault) }
    ensures kept { IsKeptBeside heap.old heap.new }
{
    heap.heap.law_rests_outside();
    heap.heap.law_order_rests_outside();
    heap.heap.allocator_mut().map(start, pages, rights)
}

/// Unmaps a region of the user.
pub(crate) fn unmap(heap: &mut Heap<PagedSystem>, start: u64, pages: u64) -> Result<(), UnmapFault>
    ensures ok { OnOk result (IsUserUnmapped (paged heap.old.system) (paged heap.new.system) start pages) }
    ensures err { IfErr result (λ fault. IsUnmapDenied (paged heap.old.system) (paged heap.new.system) start pages fault) }
    ensures kept { IsKeptBeside heap.old heap.new }
{
    heap.heap.law_rests_outside();
    heap.heap.law_order_rests_outside();
    heap.heap.allocator_mut().unmap(start, pages)
}

/// Hands out the slots that the region which joined last has in large pages, if they were not handed out yet.
pub(crate) fn take_slots(heap: &mut Heap<PagedSystem>) -> Option<SlotList>
    ensures slots { result ≡ listed_slots (paged heap.old.system).slots }
    ensures others { paged heap.new.system ≡ record (paged heap.old.system) { slots = [] } }
    ensures kept { IsKeptBeside heap.old heap.new }
{
    heap.heap.law_rests_outside();
    heap.heap.law_order_rests_outside();
    heap.heap.allocator_mut().take_slots()
}

/// Puts bytes at an address of a block, and changes nothing else.
pub(crate) fn write_bytes(heap: &mut Heap<PagedSystem>, address: u64, bytes: &[u8])
    requires inside { AreInBlock (heap_state heap.old) address (length bytes.now) }
    ensures written { AreBytesWritten (paged heap.old.system) (paged heap.new.system) address bytes.now (length bytes.now) }
    ensures kept { IsKeptBeside heap.old heap.new }
{
    heap.heap.law_blocks_placed();
    heap.heap.law_rests_outside();
    heap.heap.law_order_rests_outside();
    heap.heap.allocator_mut().write_bytes(address, bytes);
}
