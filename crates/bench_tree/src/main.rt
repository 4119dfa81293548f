//! Measures the tree of intervals: for each number of the command line, the calls on a tree of so many intervals.
//!
//! Standard output says what the calls found, standard error what processor time each took.
#![tactic(auto)]

ghost use Rattle.std.specs.Prelude.{◌^◌, ◌<◌};

use measuring::{Watch, numbers};
use meminterval::{Interval, IntervalTree};
use std::alloc::{AllocError, Global};
use std::io;

/// How long each interval is, and each query.
const LENGTH: u64 = 40_000;

const QUERY_LENGTH: u64 = 10_000;

/// The start of an interval: scattered over 2^32 numbers, each at its own.
fn start_of(number: u32) -> u64
    ensures { result < 2 ^ 32 }
{
    u64::from(number.wrapping_mul(2_654_435_761))
}

fn interval_of(number: u32) -> Interval<u64> {
    let start = start_of(number);
    Interval::new(start, start + LENGTH)
}

/// Puts so many intervals into a tree.
fn fill(alloc: Global, tree: &mut IntervalTree<u64, u32>, count: u32) -> Result<(), AllocError> {
    for number in 0..count {
        if tree.size() < usize::MAX / 4 {
            tree.insert(alloc, interval_of(number), number)?;
        }
    }
    Ok(())
}

/// How many of the intervals have their own number.
fn find(tree: &IntervalTree<u64, u32>, count: u32) -> u32 {
    let mut found = 0u32;
    for number in 0..count {
        if tree.find(&interval_of(number)) == Some(&number) {
            found = found.saturating_add(1);
        }
    }
    found
}

/// How many pairs overlap a query at the start of each interval.
fn query(alloc: Global, tree: &IntervalTree<u64, u32>, count: u32) -> Result<u32, AllocError> {
    let mut met = 0u32;
    for number in 0..count {
        let start = start_of(number);
        for _ in tree.query(alloc, Interval::new(start, start + QUERY_LENGTH))? {
            met = met.saturating_add(1);
        }
    }
    Ok(met)
}

/// Takes the intervals out.
fn empty(tree: &mut IntervalTree<u64, u32>, count: u32) {
    for number in 0..count {
        tree.delete(&interval_of(number));
    }
}

fn measure(rt: &HostRuntime, count: u32) -> io::Result<()> {
    let alloc = rt.alloc();
    let mut tree = IntervalTree::new();
    let watch = Watch::start(rt)?;
    fill(alloc, &mut tree, count)?;
    let insert = watch.mean(rt, count)?;
    let height = tree.height();
    let watch = Watch::start(rt)?;
    let found = find(&tree, count);
    let look = watch.mean(rt, count)?;
    let watch = Watch::start(rt)?;
    let met = query(alloc, &tree, count)?;
    let ask = watch.mean(rt, count)?;
    let watch = Watch::start(rt)?;
    empty(&mut tree, count);
    let delete = watch.mean(rt, count)?;
    let left = tree.size();
    println!(rt; "{count} intervals: height {height}, {found} found, {met} met, {left} left")?;
    eprintln!(rt;
        "{count} intervals: insert {insert:?}, find {look:?}, query {ask:?}, delete {delete:?}"
    )
}

fn main(rt: HostRuntime) -> io::Result<()> {
    for count in numbers(&rt, rt.alloc())? {
        measure(&rt, count)?;
    }
    Ok(())
}
