// Blocks of a heap over plain words, which no walk reaches.
use crate::counted::Counted;
use heap_memory::{Allocator, FlatStep, FlatSystem};
use measuring::Watch;
use sound_heap::Heap;
use std::alloc::{AllocError, Global};
use std::io;

/// A system that gives room for this number of blocks of 100 bytes, and 1 MiB more.
fn system_for(alloc: Global, blocks: u32) -> Result<FlatSystem, AllocError> {
    let mut script = Vec::new(alloc);
    script.push(FlatStep::Give {
        base: 0x40_0000,
        size: 112 * u64::from(blocks) + (1 << 20),
        flags: 0,
    })?;
    FlatSystem::new(alloc, script, true, true, 4096)
}

/// Asks for this number of blocks of 100 bytes, and answers how many were given.
fn give<A: Allocator>(heap: &mut Heap<A>, blocks: u32) -> u32 {
    let mut given = 0u32;
    for _ in 0..blocks {
        if heap.malloc(100, 16).is_ok() {
            given = given.saturating_add(1);
        }
    }
    given
}

/// Asks for blocks of 16 to 527 bytes, frees each at once, and answers how many were given.
fn give_and_free<A: Allocator>(heap: &mut Heap<A>, rounds: u32) -> u32 {
    let mut given = 0u32;
    for round in 0..rounds {
        if let Ok(address) = heap.malloc(16 + u64::from(round % 512), 16) {
            heap.free(address);
            given = given.saturating_add(1);
        }
    }
    given
}

/// How many words a block is given and freed by, beside this number of others.
fn words_of_a_pair(alloc: Global, blocks: u32) -> Result<u64, AllocError> {
    const ROUNDS: u32 = 512;
    let mut heap = Heap::new(Counted::new(system_for(alloc, blocks)?));
    give(&mut heap, blocks);
    let before = heap.system().words();
    give_and_free(&mut heap, ROUNDS);
    let words = heap.system().words().saturating_sub(before);
    Ok(words / u64::from(ROUNDS))
}

/// Measures beside this number of live blocks.
pub(crate) fn measure(rt: &HostRuntime, blocks: u32) -> io::Result<()> {
    let rounds = 1_000;
    let mut heap = Heap::new(system_for(rt.alloc(), blocks)?);
    let live = give(&mut heap, blocks);
    let watch = Watch::start(rt)?;
    let given = give_and_free(&mut heap, rounds);
    let both = watch.mean(rt, rounds)?;
    let words = words_of_a_pair(rt.alloc(), blocks)?;
    println!(rt;
        "{live} blocks over plain words: {given} given, with {words} words loaded or stored"
    )?;
    eprintln!(rt; "{live} blocks over plain words: malloc and free {both:?}")
}
