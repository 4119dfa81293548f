// Calls of a heap over several arenas: nothing is proved by hand.
use super::*;
use dlmalloc::MallocError;
use heap_arena::{Arena, Arenas};
use heap_memory::GrantFault;
use std::test::Fail;

/// A heap that has no memory yet, and a place for two arenas.
fn heap_without_memory<'a>() -> Heap<Arenas<'a, 2>> {
    Heap::new(Arenas::new())
}

/// The address of a block of 100 bytes, and a word of it that is read after a further arena was taken.
fn word_kept_by_add<'a>(heap: &mut Heap<Arenas<'a, 2>>, arena: Arena<'a>) -> (u64, u64) {
    let Ok(address) = heap.malloc(100, 8) else {
        return (0, 0);
    };
    heap.store(address, 88, 7);
    if add_arena(heap, arena).is_err() {
        return (0, 0);
    }
    (address, heap.load(address, 88))
}

/// The address of a block of 4000 bytes, and its first word and its last one after it got 5000 bytes.
fn words_of_a_long_block(heap: &mut Heap<Arenas<'_, 2>>) -> [u64; 3] {
    let Ok(address) = heap.malloc(4000, 8) else {
        return [0; 3];
    };
    heap.store(address, 0, 8);
    heap.store(address, 3992, 9);
    let Ok(to) = heap.realloc(address, 5000) else {
        return [0; 3];
    };
    let told = [address, heap.load(to, 0), heap.load(to, 3992)];
    heap.free(to);
    told
}

#[test]
fn memory_is_added_as_it_is_found(rt: HostRuntime) -> Result<(), Fail> {
    let mut first = [0u64; 512];
    let mut first_table = [0u64; 4];
    let mut second = [0u64; 2048];
    let mut second_table = [0u64; 4];
    let mut heap = heap_without_memory();
    assert!(rt; heap.set_granularity(4096));
    let no_space = Err(HeapError::Refused(MallocError::System(GrantFault::NoSpace)));
    assert_eq!(rt; heap.malloc(100, 8), no_space);
    assert!(rt; add_arena(&mut heap, Arena::new(&mut first, &mut first_table, 0x10000)).is_ok());
    let arena = Arena::new(&mut second, &mut second_table, 0x11000);
    assert_eq!(rt; word_kept_by_add(&mut heap, arena), (0x10010, 7));
    assert_eq!(rt; heap.system().len(), 2);
    // 3904 bytes are left in the first. The second is beside it, so this block has bytes of both.
    assert_eq!(rt; words_of_a_long_block(&mut heap), [0x10080, 8, 9]);
    // The end of the top goes back to both arenas.
    assert!(rt; heap.trim(0));
    assert_eq!(rt; heap.extents(rt.alloc())?.len(), 3);
    Ok(())
}
