//! Runs whose pages leave, get other rights, or are copied.
ghost use Rattle.std.specs.Prelude.{◌≡◌, ◌+◌, ◌^◌, ◌<◌, ◌≤◌, false, IsSome, IfOk, IfErr, OnOk, OnErr};
ghost use Rattle.meminterval.specs.Tree.{entries};
ghost use Rattle.address_space.specs.Runs.{AreRuns, IsAmong, rights_in, crosses};
ghost use Rattle.address_space.specs.Joining.{IsRunAdded};
ghost use Rattle.address_space.specs.RunChanges.{IsCut, AreTaken, IsOwnRun, IsSet, IsParted, AreRightsCopied, AreInRuns, MayChange, MayCopy};

use crate::runs::{Run, add, join, run_at, run_below};
use meminterval::{Interval, IntervalTree};
use paging_core::Rights;
use std::alloc::{AllocError, Global};

/// A page after every other.
const BEYOND: u64 = 1 << 53;

/// Lets a run end at a page of it, or takes it out if it begins there.
fn cut(runs: &mut IntervalTree<u64, Rights>, run: Run, from: u64)
    requires run { IsAmong (entries runs.old) run }
    requires from { run.start ≤ from }
    requires below { from < run.end }
    ensures { IsCut (entries runs.old) (entries runs.new) from run.end }
{
    let pages = Interval::new(run.start, run.end);
    if run.start < from {
        runs.shorten(&pages, from);
    } else {
        runs.delete(&pages);
    }
}

/// Makes the pages of a run from one of them on a run of their own, with these rights. An `Err` changes nothing.
fn split(
    runs: &mut IntervalTree<u64, Rights>,
    alloc: Global,
    run: Run,
    page: u64,
    rights: Rights,
) -> Result<(), AllocError>
    requires run { IsAmong (entries runs.old) run }
    requires above { run.start < page }
    requires below { page < run.end }
    ensures ok { OnOk result (IsSet (entries runs.old) (entries runs.new) page run.end rights) }
    ensures err { OnErr result (runs.new ≡ runs.old) }
{
    runs.insert(alloc, Interval::new(page, run.end), rights)?;
    runs.shorten(&Interval::new(run.start, run.end), page);
    Ok(())
}

/// Gives a run other rights. An `Err` changes nothing.
fn set_run(
    runs: &mut IntervalTree<u64, Rights>,
    alloc: Global,
    run: Run,
    rights: Rights,
) -> Result<(), AllocError>
    requires run { IsAmong (entries runs.old) run }
    ensures ok { OnOk result (IsSet (entries runs.old) (entries runs.new) run.start run.end rights) }
    ensures err { OnErr result (runs.new ≡ runs.old) }
{
    // Too long at first, so that no run has its ends.
    runs.insert(alloc, Interval::new(run.start, BEYOND), rights)?;
    runs.delete(&Interval::new(run.start, run.end));
    runs.shorten(&Interval::new(run.start, BEYOND), run.end);
    Ok(())
}

/// Makes the pages from `first` to the end of their run a run of their own, with these rights, and answers its end. An
/// `Err` changes nothing.
fn set_from(
    runs: &mut IntervalTree<u64, Rights>,
    alloc: Global,
    first: u64,
    rights: Rights,
) -> Result<u64, AllocError>
    requires follow { AreRuns (entries runs.old) }
    requires page { first < 2 ^ 52 }
    requires held { IsSome (rights_in (entries runs.old) first) }
    ensures ok { IfOk result (λ end. IsSet (entries runs.old) (entries runs.new) first end rights) }
    ensures err { OnErr result (runs.new ≡ runs.old) }
{
    let Some(run) = run_at(runs, first) else {
        unreachable!()
    };
    if run.start < first {
        split(runs, alloc, run, first, rights)?;
    } else {
        set_run(runs, alloc, run, rights)?;
    }
    Ok(run.end)
}

/// Lets a run begin at a page if one goes on over it. An `Err` changes nothing, and is possible only then.
fn part(runs: &mut IntervalTree<u64, Rights>, alloc: Global, page: u64) -> Result<(), AllocError>
    requires follow { AreRuns (entries runs.old) }
    requires within { page ≤ 2 ^ 52 }
    ensures ok { OnOk result (IsParted (entries runs.old) (entries runs.new) page) }
    ensures err { OnErr result (runs.new ≡ runs.old) }
    ensures over { IfErr result (λ error. IsSome (rights_in (entries runs.old) page)) }
{
    let Some(run) = run_below(runs, page) else {
        return Ok(());
    };
    if run.end <= page {
        return Ok(());
    }
    split(runs, alloc, run, page, run.rights)?;
    Ok(())
}

/// Takes the pages from `first` up to `end` out of all runs. No run goes on over `end`.
fn take_out(runs: &mut IntervalTree<u64, Rights>, first: u64, end: u64)
    requires follow { AreRuns (entries runs.old) }
    requires order { first ≤ end }
    requires within { end ≤ 2 ^ 52 }
    requires apart { crosses (entries runs.old) end ≡ false }
    ensures { IsCut (entries runs.old) (entries runs.new) first end }
{
    let mut at = end;
    while let Some(run) = run_below(runs, at) {
        if run.end <= first {
            return;
        }
        let from = run.start.max(first);
        cut(runs, run, from);
        at = from;
    }
}

/// Takes the pages from `first` up to `end` out of all runs. An `Err` changes nothing, and is possible only if the page
/// `end` is in one.
pub(crate) fn take(
    runs: &mut IntervalTree<u64, Rights>,
    alloc: Global,
    first: u64,
    end: u64,
) -> Result<(), AllocError>
    requires { MayChange (entries runs.old) first end }
    ensures ok { OnOk result (AreTaken (entries runs.old) (entries runs.new) first end) }
    ensures err { OnErr result (runs.new ≡ runs.old) }
    ensures over { IfErr result (λ error. IsSome (rights_in (entries runs.old) end)) }
{
    part(runs, alloc, end)?;
    take_out(runs, first, end);
    Ok(())
}

/// Lets a run go on up to a page, in the place of the runs after it, none of which goes on over that page.
fn spread(runs: &mut IntervalTree<u64, Rights>, run: Run, end: u64)
    requires run { IsAmong (entries runs.old) run }
    requires order { run.end ≤ end }
    requires within { end ≤ 2 ^ 52 }
    requires apart { crosses (entries runs.old) end ≡ false }
    requires begins { crosses (entries runs.old) run.start ≡ false }
    ensures { IsOwnRun (entries runs.old) (entries runs.new) run.start end run.rights }
{
    take_out(runs, run.end, end);
    runs.shorten(&Interval::new(run.start, run.end), end);
}

/// Gives the pages from `first` up to `end` these rights: each is in a run. An `Err` changes nothing.
pub(crate) fn set_rights(
    runs: &mut IntervalTree<u64, Rights>,
    alloc: Global,
    first: u64,
    end: u64,
    rights: Rights,
) -> Result<(), AllocError>
    requires span { MayChange (entries runs.old) first end }
    requires held { AreInRuns (entries runs.old) first end }
    ensures ok { OnOk result (IsRunAdded (entries runs.old) (entries runs.new) first end rights) }
    ensures err { OnErr result (entries runs.new ≡ entries runs.old) }
{
    part(runs, alloc, end)?;
    match set_from(runs, alloc, first, rights) {
        Ok(stop) => {
            let run = Run {
                start: first,
                end: stop,
                rights,
            };
            spread(runs, run, end);
            join(runs, end);
            join(runs, first);
            Ok(())
        }
        Err(error) => {
            join(runs, end);
            Err(error)
        }
    }
}

/// Gives `pages` pages from `to` on the rights of those from `from` on. Each page from `from` on is in a run, and no
/// page from `to` on is. An `Err` changes nothing.
pub(crate) fn copy(
    runs: &mut IntervalTree<u64, Rights>,
    alloc: Global,
    from: u64,
    pages: u64,
    to: u64,
) -> Result<(), AllocError>
    requires { MayCopy (entries runs.old) from pages to }
    ensures ok { OnOk result (AreRightsCopied (entries runs.old) (entries runs.new) from pages to) }
    ensures err { OnErr result (entries runs.new ≡ entries runs.old) }
{
    let mut done = 0;
    while done < pages {
        let Some(run) = run_at(runs, from + done) else {
            unreachable!()
        };
        let count = (run.end - (from + done)).min(pages - done);
        match add(runs, alloc, to + done, to + done + count, run.rights) {
            Ok(()) => {}
            Err(error) => {
                take_out(runs, to, to + done);
                return Err(error);
            }
        }
        done += count;
    }
    Ok(())
}
