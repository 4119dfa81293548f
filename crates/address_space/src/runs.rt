//! Runs of pages in an interval tree.
ghost use Rattle.std.specs.Prelude.{◌≡◌, ℕ, ◌+◌, ◌*◌, ◌^◌, ◌<◌, ◌≤◌, ◌↔◌, None, IsTrue, IfOk, IfSome, IfNone, MatchOption, OnOk, OnErr};
ghost use Rattle.meminterval.specs.Tree.{entries};
ghost use Rattle.address_space.specs.Runs.{AreRuns, rights_in, area_of, areas_of};
ghost use Rattle.address_space.specs.RunChanges.{AreInRuns, HasNoneBelow, HoldsPage, IsGap, IsLastBelow, MayChange};
ghost use Rattle.address_space.specs.Joining.{IsMeeting, AreRunsJoined, IsRunAdded};
ghost use Rattle.address_space.specs.PageMap.{IsPagePlace, HasNoPagePlace};

use crate::area::{Area, AreaList};
use meminterval::{Interval, IntervalTree};
use paging_core::Rights;
use std::alloc::{AllocError, Global};

/// The area of a run.
fn area(pages: &Interval<u64>, rights: Rights) -> Area
    requires some { pages.now.start ≤ pages.now.end }
    requires below { pages.now.start < 2 ^ 52 }
    ensures { result ≡ area_of (pages.now, rights) }
{
    Area {
        start: pages.start * 4096,
        pages: pages.end - pages.start,
        rights,
    }
}

/// The areas of the runs, by ascending address.
pub(crate) fn list(runs: &IntervalTree<u64, Rights>, alloc: Global) -> Result<AreaList, AllocError>
    requires { AreRuns (entries runs.now) }
    ensures { IfOk result (λ list. list ≡ areas_of (entries runs.now)) }
{
    let mut list = Vec::new(alloc);
    let mut at = 0;
    while let Some(entry) = runs.first_from(&at) {
        list.push(area(entry.interval, *entry.value))?;
        at = entry.interval.end;
    }
    Ok(AreaList::from_vec(list))
}

/// Whether no page from `first` up to `end`, `end` excluded, is in a run.
pub(crate) fn is_clear(runs: &IntervalTree<u64, Rights>, first: u64, end: u64) -> bool
    requires follow { AreRuns (entries runs.now) }
    requires some { first < end }
    requires within { end ≤ 2 ^ 52 }
    ensures { IsTrue result ↔ ((page : ℕ) → first ≤ page → page < end → rights_in (entries runs.now) page ≡ None) }
{
    match runs.last_before(&end) {
        Some(entry) => entry.interval.end <= first,
        None => true,
    }
}

/// Makes one run of two with equal rights that meet at the page.
pub(crate) fn join(runs: &mut IntervalTree<u64, Rights>, page: u64)
    requires follow { AreRuns (entries runs.old) }
    requires within { page ≤ 2 ^ 52 }
    ensures { AreRunsJoined (entries runs.old) (entries runs.new) page }
{
    let Some((start, last)) = around(runs, page) else {
        return;
    };
    runs.delete(&Interval::new(page, last));
    runs.shorten(&Interval::new(start, page), last);
}

/// Where the run begins that ends at the page, and where the one ends that begins there, if their rights are equal.
fn around(runs: &IntervalTree<u64, Rights>, page: u64) -> Option<(u64, u64)>
    requires follow { AreRuns (entries runs.now) }
    requires within { page ≤ 2 ^ 52 }
    ensures { IsMeeting (entries runs.now) page result }
{
    let Some(left) = runs.last_before(&page) else {
        return None;
    };
    let Some(right) = runs.first_from(&page) else {
        return None;
    };
    if left.interval.end != page {
        return None;
    }
    if right.interval.start != page {
        return None;
    }
    if *left.value != *right.value {
        return None;
    }
    Some((left.interval.start, right.interval.end))
}

/// Puts in a run of pages that are in none, and joins it with those beside it. An `Err` changes nothing.
pub(crate) fn add(
    runs: &mut IntervalTree<u64, Rights>,
    alloc: Global,
    first: u64,
    end: u64,
    rights: Rights,
) -> Result<(), AllocError>
    requires span { MayChange (entries runs.old) first end }
    requires clear { (page : ℕ) → first ≤ page → page < end → rights_in (entries runs.old) page ≡ None }
    ensures ok { OnOk result (IsRunAdded (entries runs.old) (entries runs.new) first end rights) }
    ensures err { OnErr result (runs.new ≡ runs.old) }
{
    runs.insert(alloc, Interval::new(first, end), rights)?;
    join(runs, end);
    join(runs, first);
    Ok(())
}

/// The lowest page from `base` on, from which `pages` pages up to `end` are in no run.
pub(crate) fn lowest_place(
    runs: &IntervalTree<u64, Rights>,
    base: u64,
    end: u64,
    pages: u64,
) -> Option<u64>
    requires follow { AreRuns (entries runs.now) }
    requires some { 0 < pages }
    requires window { end ≤ 2 ^ 52 }
    ensures place { IfSome result (IsPagePlace (rights_in (entries runs.now)) base end pages) }
    ensures none { IfNone result (HasNoPagePlace (rights_in (entries runs.now)) base end pages) }
{
    let mut at = base;
    while at <= end && pages <= end - at {
        match runs.last_before(&(at + pages)) {
            None => return Some(at),
            Some(entry) => {
                if entry.interval.end <= at {
                    return Some(at);
                }
                at = entry.interval.end;
            }
        }
    }
    None
}

/// A run: consecutive pages with equal rights.
#[derive(Clone, Copy)]
pub(crate) struct Run {
    pub(crate) start: u64,
    pub(crate) end: u64,
    pub(crate) rights: Rights,
}

/// The last run that begins below a page.
pub(crate) fn run_below(runs: &IntervalTree<u64, Rights>, page: u64) -> Option<Run>
    requires follow { AreRuns (entries runs.now) }
    requires within { page ≤ 2 ^ 52 }
    ensures { MatchOption result (HasNoneBelow (entries runs.now) page) (IsLastBelow (entries runs.now) page) }
{
    let Some(entry) = runs.last_before(&page) else {
        return None;
    };
    Some(Run {
        start: entry.interval.start,
        end: entry.interval.end,
        rights: *entry.value,
    })
}

/// The run that holds a page.
pub(crate) fn run_at(runs: &IntervalTree<u64, Rights>, page: u64) -> Option<Run>
    requires follow { AreRuns (entries runs.now) }
    requires page { page < 2 ^ 52 }
    ensures { MatchOption result (rights_in (entries runs.now) page ≡ None) (HoldsPage (entries runs.now) page) }
{
    let Some(run) = run_below(runs, page + 1) else {
        return None;
    };
    if run.end <= page {
        return None;
    }
    Some(run)
}

/// The lowest page from `first` up to `end` that is in no run. It goes from run to run.
pub(crate) fn first_gap(runs: &IntervalTree<u64, Rights>, first: u64, end: u64) -> Option<u64>
    requires follow { AreRuns (entries runs.now) }
    requires within { end ≤ 2 ^ 52 }
    ensures gap { IfSome result (IsGap (entries runs.now) first end) }
    ensures none { IfNone result (AreInRuns (entries runs.now) first end) }
{
    let mut page = first;
    while page < end {
        let Some(run) = run_at(runs, page) else {
            return Some(page);
        };
        page = run.end;
    }
    None
}
