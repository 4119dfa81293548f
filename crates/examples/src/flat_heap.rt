//! A heap over words of your own, which looks at each address that it is given.
use checked_heap::CheckedHeap;

pub(crate) fn run(rt: &HostRuntime) -> anyhow::Result<()> {
    let mut memory = [0u64; 4096];
    let mut heap = CheckedHeap::over(&mut memory, 0x10000);
    heap.set_granularity(0x4000);
    serve(rt, &mut heap)
}

// Has a heap serve requests, and prints where the blocks are.
fn serve(rt: &HostRuntime, heap: &mut CheckedHeap<'_>) -> anyhow::Result<()> {
    let squares = heap.malloc(100, 16)?;
    let name = heap.malloc(40, 16)?;
    let page = heap.calloc(4096, 4096)?;
    println!(rt; "blocks at {squares:#x}, {name:#x} and {page:#x}")?;
    for i in 0..12 {
        heap.store(squares, 8 * i, i * i);
    }
    // The name lies right after the squares, so they move, and their words with them.
    let moved = heap.realloc(squares, 1000)?;
    if let Some(word) = heap.load(moved, 88) {
        println!(rt; "the last square at {moved:#x} is {word}")?;
    }
    for address in [squares, page.wrapping_add(16), moved, moved] {
        if heap.free(address) {
            println!(rt; "{address:#x} is free")?;
        } else {
            println!(rt; "no block begins at {address:#x}")?;
        }
    }
    println!(rt;
        "{} blocks are left, and {} words are in use",
        heap.blocks(),
        heap.used()
    )?;
    Ok(())
}
