//! What a kernel's page tables say when they refuse a call.
use crate::checks::same;
use kernel_tables::{EntryFault, MapFault, RangeFault};
use paging_core::{Page, VirtAddr};
use std::test::Fail;

#[test]
fn refused_maps_have_their_words(rt: HostRuntime) -> Result<(), Fail> {
    let table = [
        (MapFault::IsMapped, "the page is mapped already"),
        (MapFault::HasTable, "the large page's slot has a table"),
        (MapFault::PastLimit, "the frame is past the limit"),
        (MapFault::InArea, "the frame lies in the area of the tables"),
        (
            MapFault::NoFrames { wanting: 3 },
            "no frames for 3 of the missing tables",
        ),
    ];
    for (fault, words) in table.iter() {
        same(&rt, format!(in rt.alloc(); "{fault}")?.as_str(), *words);
    }
    Ok(())
}

#[test]
fn refused_changes_have_their_words(rt: HostRuntime) -> Result<(), Fail> {
    let table = [
        (EntryFault::NotMapped, "the page is not mapped"),
        (
            EntryFault::InArea,
            "the page leads into the area of the tables",
        ),
        (
            EntryFault::NoFrames,
            "no frame for the table that splits the large page",
        ),
    ];
    for (fault, words) in table.iter() {
        same(&rt, format!(in rt.alloc(); "{fault}")?.as_str(), *words);
    }
    Ok(())
}

fn first_page() -> Page {
    Page::containing_address(VirtAddr::zero())
}

#[test]
fn refused_ranges_have_their_words(rt: HostRuntime) -> Result<(), Fail> {
    let table = [
        (
            RangeFault::NotCanonical,
            "the range leaves its canonical half",
        ),
        (
            RangeFault::IsMapped(first_page()),
            "a page of the range is mapped already",
        ),
        (
            RangeFault::NotMapped(first_page()),
            "a page of the range is not mapped",
        ),
        (RangeFault::PastLimit, "a frame is past the limit"),
        (RangeFault::InArea, "a frame lies in the area of the tables"),
        (
            RangeFault::LeadsIntoArea(first_page()),
            "a page of the range leads into the area of the tables",
        ),
        (
            RangeFault::NoFrames { wanting: 2 },
            "2 frames are wanting for tables",
        ),
    ];
    for (fault, words) in table.iter() {
        same(&rt, format!(in rt.alloc(); "{fault}")?.as_str(), *words);
    }
    Ok(())
}
