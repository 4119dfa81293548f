//! What regions of the user say when a call on them is refused.
use crate::checks::same;
use mapped_regions::{MapFault, UnmapFault};
use std::test::Fail;

#[test]
fn refused_maps_have_their_words(rt: HostRuntime) -> Result<(), Fail> {
    let table = [
        (
            MapFault::BadRange,
            "the range has no pages, is off a page, or leaves its canonical half",
        ),
        (MapFault::HeapRegion, "the pages meet a region of the heap"),
        (MapFault::Overlap, "the pages meet a region of the user"),
        (MapFault::NoFrames, "there are too few free frames"),
        (MapFault::OutOfMemory, "out of memory"),
    ];
    for (fault, words) in table.iter() {
        same(&rt, format!(in rt.alloc(); "{fault}")?.as_str(), *words);
    }
    Ok(())
}

#[test]
fn refused_unmaps_have_their_words(rt: HostRuntime) -> Result<(), Fail> {
    let table = [
        (
            UnmapFault::BadRange,
            "the range has no pages, is off a page, or leaves its canonical half",
        ),
        (
            UnmapFault::HeapRegion,
            "the pages meet a region of the heap",
        ),
        (
            UnmapFault::UnknownRegion,
            "no region of the user has just these pages",
        ),
    ];
    for (fault, words) in table.iter() {
        same(&rt, format!(in rt.alloc(); "{fault}")?.as_str(), *words);
    }
    Ok(())
}
