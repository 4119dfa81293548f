//! What a system with a cache says when it refuses to unmap.
use crate::checks::same;
use kernel_heap::UnmapFault;
use std::test::Fail;
use tlb_cache::CachedFault;

#[test]
fn refused_unmaps_have_their_words(rt: HostRuntime) -> Result<(), Fail> {
    let table = [
        (
            CachedFault::Unmap(UnmapFault::HeapRegion),
            "the pages meet a region of the heap",
        ),
        (CachedFault::OutOfMemory, "out of memory"),
    ];
    for (fault, words) in table.iter() {
        same(&rt, format!(in rt.alloc(); "{fault}")?.as_str(), *words);
    }
    Ok(())
}
