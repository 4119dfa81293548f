ghost use Rattle.std.specs.Prelude.{◌≡◌, ◌+◌, ◌-◌, ◌*◌, ◌/◌, ◌%◌, ◌^◌, ◌<◌, ◌≤◌, None, IsSome, if◌then◌else◌, count_by};
ghost use Rattle.paging_core.specs.Address.{IsCanonicalRange};
ghost use Rattle.paging_core.specs.Prefix.{prefixes_from};
ghost use Rattle.paging_core.specs.Walk.{reach};
ghost use Rattle.paging_core.specs.Missing.{is_missing, missing_of};
ghost use Rattle.paging_core.specs.Premises.{ArePrefixes};
ghost use Rattle.paging_core.specs.EntryPlace.{IsRoot};

use crate::page_walk::{Mapped, next};
use crate::phys_frames::PhysFrame;
use crate::physical_memory::PhysicalMemory;

/// How many tables the walk along the prefix meets below the root before one is missing.
fn depth<M: PhysicalMemory>(frames: &M, root: PhysFrame, level: u32, prefix: u64) -> u32
    requires root { IsRoot (M.words frames.now) root }
    requires level { level < 4 }
    requires prefix { prefix < 2 ^ (9 * level) }
    ensures bounded { result ≤ level }
    ensures there { result ≡ level → IsSome (reach (M.words frames.now) root level prefix) }
    ensures absent { result < level → reach (M.words frames.now) root (result + 1) (prefix / 2 ^ (9 * (level - (result + 1)))) ≡ None }
{
    let mut at = Mapped::full(root);
    for met in 0..level {
        let index = (prefix >> (9 * (level - (met + 1))) & 0x1ff) as u16;
        match next(frames, met, at, index) {
            Some(to) => at = to,
            None => return met,
        }
    }
    level
}

/// Prefixes in a row that all have a table, or all have none.
#[derive(Clone, Copy)]
struct Run {
    end: u64,
    is_missing: bool,
}

/// The run that begins at the prefix: as far as one missing table above it shows.
fn run_from<M: PhysicalMemory>(frames: &M, root: PhysFrame, level: u32, from: u64, last: u64) -> Run
    requires prefixes { ArePrefixes (M.words frames.now) root level from last }
    ensures more { from < result.end }
    ensures within { result.end ≤ last + 1 }
    ensures count { count_by (is_missing (M.words frames.now) root) (prefixes_from level from (result.end - from)) ≡ (if result.is_missing then result.end - from else 0) }
{
    let met = depth(frames, root, level, from);
    if met == level {
        return Run {
            end: from + 1,
            is_missing: false,
        };
    }
    let shift = 9 * (level - (met + 1));
    let block = 1u64 << shift;
    let end = from - from % block + block;
    Run {
        end: end.min(last + 1),
        is_missing: true,
    }
}

/// How many of the prefixes have no table.
fn missing_of_level<M: PhysicalMemory>(
    frames: &M,
    root: PhysFrame,
    level: u32,
    first: u64,
    last: u64,
) -> u64
    requires prefixes { ArePrefixes (M.words frames.now) root level first last }
    ensures count { result ≡ count_by (is_missing (M.words frames.now) root) (prefixes_from level first (last + 1 - first)) }
    ensures bounded { result ≤ last + 1 - first }
{
    let mut from = first;
    let mut missing = 0;
    while from <= last {
        let run = run_from(frames, root, level, from, last);
        if run.is_missing {
            missing += run.end - from;
        }
        from = run.end;
    }
    missing
}

/// How many tables are missing for the pages with these numbers: for how many index prefixes of one,
/// two and three indices the walk meets no table. The cost is that of the tables that are there.
pub fn missing_tables<M: PhysicalMemory>(frames: &M, root: PhysFrame, first: u64, pages: u64) -> u64
    requires root { IsRoot (M.words frames.now) root }
    requires range { IsCanonicalRange first pages }
    requires pages { pages ≤ 2 ^ 32 }
    ensures count { result ≡ missing_of (M.words frames.now) root first pages }
    ensures few { result ≤ 3 * pages }
{
    let first = first & 0xf_ffff_ffff;
    let last = first + pages - 1;
    missing_of_level(frames, root, 1, first >> 27, last >> 27)
        + missing_of_level(frames, root, 2, first >> 18, last >> 18)
        + missing_of_level(frames, root, 3, first >> 9, last >> 9)
}
