use super::*;
use dlmalloc::MallocError;
use heap_memory::GrantFault;
use std::test::Fail;

/// A call of a heap, and the answer that it gets.
#[derive(Clone, Copy)]
enum Call {
    /// Asks for a block of a size at an alignment.
    Malloc(u64, u64, Result<u64, HeapError>),
    /// Asks for a cleared block.
    Calloc(u64, u64, Result<u64, HeapError>),
    /// Gives the block at an address another size.
    Realloc(u64, u64, Result<u64, HeapError>),
    /// Gives the block at an address back.
    Free(u64, bool),
    /// Asks for the bytes of the block at an address.
    UsableSize(u64, Option<u64>),
    /// Puts a word at an offset of the block at an address.
    Store(u64, u64, u64, bool),
    /// Reads a word at an offset of the block at an address.
    Load(u64, u64, Option<u64>),
    /// Trims the heap down to this many bytes.
    Trim(u64, bool),
    /// Asks how many blocks there are.
    Blocks(u64),
    /// Asks how many words are in use.
    Used(usize),
    /// Asks how many words ever were in use.
    Touched(usize),
}

/// Makes a call, and says whether it is answered so.
fn is_answered(heap: &mut CheckedHeap<'_>, call: Call) -> bool {
    match call {
        Call::Malloc(size, align, answer) => heap.malloc(size, align) == answer,
        Call::Calloc(size, align, answer) => heap.calloc(size, align) == answer,
        Call::Realloc(address, size, answer) => heap.realloc(address, size) == answer,
        Call::Free(address, answer) => heap.free(address) == answer,
        Call::UsableSize(address, answer) => heap.usable_size(address) == answer,
        Call::Store(address, offset, value, answer) => {
            heap.store(address, offset, value) == answer
        }
        Call::Load(address, offset, answer) => heap.load(address, offset) == answer,
        Call::Trim(pad, answer) => heap.trim(pad) == answer,
        Call::Blocks(answer) => heap.blocks() == answer,
        Call::Used(answer) => heap.used() == answer,
        Call::Touched(answer) => heap.touched() == answer,
    }
}

#[test]
fn addresses_are_looked_at(rt: HostRuntime) -> Result<(), Fail> {
    let mut words = [7u64; 4096];
    let mut marks = [7u64; 32];
    let mut table = [0u64; 16];
    let mut heap = CheckedHeap::new(&mut words, &mut marks, &mut table, 0x10000);
    assert!(rt; heap.set_granularity(4096));
    let no_space = HeapError::Refused(MallocError::System(GrantFault::NoSpace));
    let rows = [
        ("no block yet", Call::Free(0x10010, false)),
        ("no word yet", Call::Touched(0)),
        ("the first", Call::Malloc(100, 8, Ok(0x10010))),
        ("one page", Call::Used(512)),
        (
            "no power of two",
            Call::Malloc(100, 24, Err(HeapError::BadAlign)),
        ),
        ("all of its chunk", Call::UsableSize(0x10010, Some(104))),
        ("its last word", Call::Store(0x10010, 96, 77, true)),
        ("behind it", Call::Store(0x10010, 104, 77, false)),
        ("no multiple of 8", Call::Load(0x10010, 92, None)),
        ("behind the first", Call::Calloc(50, 16, Ok(0x10080))),
        ("cleared", Call::Load(0x10080, 48, Some(0))),
        (
            "inside a block",
            Call::Realloc(0x10020, 10, Err(HeapError::NoBlock)),
        ),
        (
            "too large",
            Call::Realloc(
                0x10010,
                u64::MAX,
                Err(HeapError::Refused(MallocError::TooLarge)),
            ),
        ),
        (
            "too large, where none begins",
            Call::Realloc(0x10020, u64::MAX, Err(HeapError::NoBlock)),
        ),
        ("no room", Call::Malloc(40000, 16, Err(no_space))),
        ("another place", Call::Realloc(0x10010, 9000, Ok(0x100c0))),
        ("with its words", Call::Load(0x100c0, 96, Some(77))),
        ("no longer there", Call::Free(0x10010, false)),
        ("as many blocks", Call::Blocks(2)),
        ("more pages", Call::Used(2048)),
        ("a free", Call::Free(0x100c0, true)),
        ("a second one", Call::Free(0x100c0, false)),
        ("the end goes back", Call::Trim(0, true)),
        ("once", Call::Trim(0, false)),
        ("one page again", Call::Used(512)),
        ("four once", Call::Touched(2048)),
    ];
    for (rule, call) in rows {
        assert!(rt; is_answered(&mut heap, call), "{rule}");
    }
    Ok(())
}

#[test]
fn words_that_no_block_needs_stay(rt: HostRuntime) -> Result<(), Fail> {
    let mut words = [7u64; 1024];
    let mut marks = [7u64; 8];
    let mut table = [7u64; 4];
    {
        let mut heap = CheckedHeap::new(&mut words, &mut marks, &mut table, 0x10000);
        assert!(rt; heap.set_granularity(4096));
        assert_eq!(rt; heap.malloc(100, 8), Ok(0x10010));
        assert_eq!(rt; heap.touched(), 512);
    }
    assert!(rt; words[512..].iter().all(|word| *word == 7));
    // A word for blocks, two for the table, and one for the marks.
    let mut memory = [7, 8, 9, 0];
    {
        let heap = CheckedHeap::over_cleared(&mut memory, 0x10000, 4096);
        assert_eq!(rt; heap.touched(), 0);
    }
    assert_eq!(rt; memory, [7, 8, 9, 0]);
    Ok(())
}
