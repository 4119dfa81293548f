//! Rows whose answers are known, and a tree beside a plain list.
ghost use Rattle.std.specs.Prelude.{◌≡◌, ◌+◌, ◌*◌, ◌^◌, ◌<◌, ◌≤◌};

use crate::checks::same;
use machine_model::{Region, RegionList};
use mapped_regions::RegionTree;
use paging_core::Rights;
use std::alloc::{AllocError, Global};
use std::process::Abort;
use std::test::Fail;

/// The number of pages of the address space.
const TOP: u64 = 0x10_0000_0000_0000;

fn region(page: u64, pages: u64, heap: bool) -> Region
    requires { page < 2 ^ 52 }
    ensures start { result.start ≡ 4096 * page }
    ensures pages { result.pages ≡ pages }
{
    Region {
        start: page * 4096,
        pages,
        heap,
        rights: Rights {
            write: heap,
            user: !heap,
            fetch: false,
        },
    }
}

// Adds a region, unless it meets one. Answers whether it was added.
fn put(
    tree: &mut RegionTree,
    alloc: Global,
    page: u64,
    pages: u64,
    heap: bool,
) -> Result<bool, AllocError>
    requires some { 0 < pages }
    requires within { page + pages ≤ 2 ^ 52 }
{
    match tree.lowest_met(page, pages) {
        Some(_) => Ok(false),
        None => {
            tree.add(alloc, region(page, pages, heap))?;
            Ok(true)
        }
    }
}

fn listed(tree: &RegionTree, alloc: Global) -> Result<RegionList, AllocError> {
    Ok(tree.list(Vec::with_capacity(alloc, tree.count())?))
}

// The first page of a region, and 0 for none.
fn start_page(met: Option<Region>) -> u64 {
    met.map_or(0, |region| region.start / 4096)
}

// The user has 1028 to 1030, 1042 and 1080 to 1100, the heap has 1031 to 1040.
fn four_regions(alloc: Global) -> Result<RegionTree, AllocError> {
    let mut tree = RegionTree::new(1024);
    for (page, pages, heap) in [
        (1042, 1, false),
        (1028, 2, false),
        (1080, 20, false),
        (1031, 9, true),
    ] {
        put(&mut tree, alloc, page, pages, heap)?;
    }
    Ok(tree)
}

/// The lowest place of `n` pages, if `n` is not 0.
fn place(tree: &RegionTree, base: u32, pages: u32, n: u64) -> Option<u64> {
    if n == 0 {
        return None;
    }
    tree.lowest_place(base.into(), pages.into(), n)
}

/// Looks for places beside the four regions.
fn look_for_places(rt: &impl Abort, tree: &RegionTree) {
    for (base, pages, n, want) in [
        (1024, 64, 1, Some(1024)),
        (1024, 64, 4, Some(1024)),
        (1024, 64, 5, Some(1043)),
        (1024, 64, 37, Some(1043)),
        (1024, 64, 38, None),
        (1024, 4, 4, Some(1024)),
        (1024, 4, 5, None),
        (1029, 59, 1, Some(1030)),
        (1029, 59, 2, Some(1040)),
        (1029, 59, 3, Some(1043)),
        (1030, 1, 1, Some(1030)),
        (1030, 1, 2, None),
        (1081, 19, 1, None),
        (1081, 20, 1, Some(1100)),
    ] {
        let found = place(tree, base, pages, n);
        assert_eq!(rt; found, want, "{n} from {base} on");
    }
}

#[test]
fn places_among_regions(rt: HostRuntime) -> Result<(), Fail> {
    let tree = four_regions(rt.alloc())?;
    look_for_places(&rt, &tree);
    Ok(())
}

/// Looks for the lowest of the four regions that pages meet.
fn look_for_met(rt: &impl Abort, tree: &RegionTree) {
    for (first, pages, any, heap) in [
        (1024u32, 4u32, 0, 0),
        (1024, 5, 1028, 0),
        (1029, 2, 1028, 0),
        (1029, 3, 1028, 1031),
        (1030, 1, 0, 0),
        (1030, 60, 1031, 1031),
        (1039, 10, 1031, 1031),
        (1040, 2, 0, 0),
        (1041, 60, 1042, 0),
        (1099, 1, 1080, 0),
        (1100, 5, 0, 0),
    ] {
        let met = tree.lowest_met(first.into(), pages.into());
        assert_eq!(rt; start_page(met), any, "{pages} from {first} on");
        let met = tree.lowest_heap_met(first.into(), pages.into());
        assert_eq!(rt; start_page(met), heap, "{pages} from {first} on");
    }
}

#[test]
fn regions_that_are_met(rt: HostRuntime) -> Result<(), Fail> {
    let tree = four_regions(rt.alloc())?;
    look_for_met(&rt, &tree);
    Ok(())
}

/// Adds and cuts regions at the end of the address space.
fn change_at_the_end(rt: &impl Abort, alloc: Global, tree: &mut RegionTree) -> Result<(), Fail> {
    assert!(rt; put(tree, alloc, TOP - 16, 16, false)?);
    assert!(rt; !put(tree, alloc, TOP - 17, 2, true)?);
    same(rt, tree.lowest_place(TOP - 32, 32, 16), Some(TOP - 32));
    same(rt, tree.lowest_place(TOP - 32, 32, 17), None);
    same(
        rt,
        tree.lowest_met(TOP - 1, 1),
        Some(region(TOP - 16, 16, false)),
    );
    tree.cut(TOP - 8, 8);
    same(rt, tree.lowest_met(TOP - 8, 8), None);
    same(rt, tree.lowest_place(TOP - 20, 20, 8), Some(TOP - 8));
    same(
        rt,
        listed(tree, alloc)?.get(0).copied(),
        Some(region(TOP - 16, 8, false)),
    );
    Ok(())
}

// A region that ends with the address space ends at 2^64.
#[test]
fn the_last_pages(rt: HostRuntime) -> Result<(), Fail> {
    let mut tree = RegionTree::new(1024);
    change_at_the_end(&rt, rt.alloc(), &mut tree)
}

/// Removes and cuts some of the four regions.
fn change_four(rt: &impl Abort, alloc: Global, tree: &mut RegionTree) -> Result<(), Fail> {
    // No region of this length is there, and then one is.
    tree.remove(&region(1042, 2, false));
    same(rt, tree.count(), 4);
    tree.remove(&region(1042, 1, false));
    same(rt, tree.count(), 3);
    // From the middle of one region to the end of the next.
    tree.cut(1029, 11);
    same(
        rt,
        listed(tree, alloc)?.get(0).copied(),
        Some(region(1028, 1, false)),
    );
    same(rt, tree.count(), 2);
    same(rt, tree.lowest_place(1024, 56, 40), Some(1029));
    Ok(())
}

#[test]
fn changes_of_one_region(rt: HostRuntime) -> Result<(), Fail> {
    let mut tree = four_regions(rt.alloc())?;
    change_four(&rt, rt.alloc(), &mut tree)
}

/// Pages that a region has, in a plain list.
#[derive(Clone, Copy)]
struct Span {
    first: u32,
    pages: u32,
    heap: bool,
}

fn is_met(span: Span, first: u64, pages: u64) -> bool {
    let start = u64::from(span.first);
    let end = start + u64::from(span.pages);
    first < end && start < first.saturating_add(pages)
}

fn plain_met(spans: &[Span], first: u64, pages: u64, heap: bool) -> u64 {
    for span in spans {
        if is_met(*span, first, pages) && (span.heap || !heap) {
            return span.first.into();
        }
    }
    0
}

fn plain_place(spans: &[Span], base: u64, pages: u64, n: u64) -> Option<u64> {
    let end = base.saturating_add(pages);
    for page in base..end {
        if page.saturating_add(n) <= end && plain_met(spans, page, n, false) == 0 {
            return Some(page);
        }
    }
    None
}

fn with_span(alloc: Global, spans: &[Span], new: Span) -> Result<Vec<Span>, AllocError> {
    let mut list = Vec::new(alloc);
    let mut waits = true;
    for span in spans {
        if waits && new.first < span.first {
            list.push(new)?;
            waits = false;
        }
        list.push(*span)?;
    }
    if waits {
        list.push(new)?;
    }
    Ok(list)
}

fn without_pages(
    alloc: Global,
    spans: &[Span],
    first: u32,
    pages: u32,
) -> Result<Vec<Span>, AllocError> {
    let mut list = Vec::new(alloc);
    for span in spans {
        if !is_met(*span, first.into(), pages.into()) {
            list.push(*span)?;
        } else if span.first < first {
            list.push(Span {
                pages: first - span.first,
                ..*span
            })?;
        }
    }
    Ok(list)
}

/// Changes both as a draw says, unless the tree has a region in the way. Answers the draw's first page.
fn change_both(
    rt: &impl Abort,
    alloc: Global,
    tree: &mut RegionTree,
    spans: &mut Vec<Span>,
    turn: u32,
    draw: u32,
) -> Result<u32, Fail> {
    let first = 1024 + (draw >> 16) % 64;
    let pages = 1 + (draw >> 22) % 8;
    let heap = (draw >> 13) % 2 == 0;
    if (draw >> 28) < 12 {
        let free = plain_met(spans, first.into(), pages.into(), false) == 0;
        let added = put(tree, alloc, first.into(), pages.into(), heap)?;
        assert_eq!(rt; added, free, "turn {turn}");
        if added {
            *spans = with_span(alloc, spans, Span { first, pages, heap })?;
        }
    } else {
        tree.cut(first.into(), pages.into());
        *spans = without_pages(alloc, spans, first, pages)?;
    }
    Ok(first)
}

/// Checks that the tree answers as the plain list does.
fn compare(
    rt: &impl Abort,
    alloc: Global,
    tree: &RegionTree,
    spans: &[Span],
    turn: u32,
    first: u32,
) -> Result<(), Fail> {
    for n in 1..6 {
        let place = tree.lowest_place(1024, 72, n);
        assert_eq!(rt;
            place,
            plain_place(spans, 1024, 72, n),
            "turn {turn}, {n} pages"
        );
    }
    let met = tree.lowest_heap_met(first.into(), 20);
    assert_eq!(rt;
        start_page(met),
        plain_met(spans, first.into(), 20, true),
        "turn {turn}"
    );
    let list = listed(tree, alloc)?;
    assert_eq!(rt; list.len(), spans.len() as u64, "turn {turn}");
    for (i, span) in spans.iter().enumerate() {
        let want = region(span.first.into(), span.pages.into(), span.heap);
        assert_eq!(rt;
            list.get(i as u64).copied(),
            Some(want),
            "turn {turn}, region {i}"
        );
    }
    Ok(())
}

/// Changes both in turns, and compares them after each.
fn change_in_turns(
    rt: &impl Abort,
    alloc: Global,
    tree: &mut RegionTree,
    spans: &mut Vec<Span>,
) -> Result<(), Fail> {
    let mut draw = 1u32;
    for turn in 0..300 {
        draw = draw.wrapping_mul(1_664_525).wrapping_add(1_013_904_223);
        let first = change_both(rt, alloc, tree, spans, turn, draw)?;
        compare(rt, alloc, tree, spans, turn, first)?;
    }
    Ok(())
}

#[test]
fn a_tree_beside_a_plain_list(rt: HostRuntime) -> Result<(), Fail> {
    let mut tree = RegionTree::new(1024);
    let mut spans = Vec::new(rt.alloc());
    change_in_turns(&rt, rt.alloc(), &mut tree, &mut spans)
}
