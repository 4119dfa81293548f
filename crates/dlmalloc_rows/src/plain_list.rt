ghost use Rattle.std.specs.Prelude.{◌≡◌, ℕ, ◌+◌, ◌^◌, ◌<◌, ◌≤◌, IfSome, IsTrue, get_or, length, vec_len};
ghost use Rattle.std.specs.List.{list_all};
ghost use Rattle.heap_memory.specs.Regions.{is_granted};
ghost use Rattle.dlmalloc_rows.specs.Plain.{is_apart, HasPlace, AreBeside};

use crate::checks::same;
use bins::Bins;
use heap_memory::{Allocator, FlatStep, FlatSystem, Links, Memory, Steps};
use std::alloc::{AllocError, Global};
use std::marker::Brand;
use std::process::Abort;
use std::sync::ledger::{Blank, Ledger};
use std::test::Fail;

/// The memory of the tests.
const BASE: u64 = 0x10000;

const BYTES: u64 = 0x4000000;

/// Whether a chunk may lie there.
fn has_place(size: u64, at: u64) -> bool
    ensures { IsTrue result → HasPlace size at }
{
    size % 16 == 0
        && size >= 32
        && at % 16 == 0
        && at >= BASE
        && at < BASE + BYTES
        && size <= BASE + BYTES - at
}

/// Whether a run of bytes has none of a chunk.
fn is_apart(size: u64, at: u64, entry: &(u64, u64)) -> bool
    ensures { result ≡ is_apart size at entry.now }
{
    if entry.1 <= at {
        at - entry.1 >= entry.0 || (size == 0 && at == entry.1)
    } else {
        entry.1 - at >= size || (entry.0 == 0 && at == entry.1)
    }
}

/// Whether a run of bytes has none of these chunks.
fn is_free(list: &[(u64, u64)], size: u64, at: u64) -> bool
    ensures { result ≡ list_all (λ entry. is_apart size at entry) list.now }
{
    list.iter().all(|entry| is_apart(size, at, entry))
}

/// Puts a chunk into the bins and into the list beside them, if it has a place. Its head is written before.
fn insert<L: Ledger>(
    bins: &mut Bins,
    memory: &mut FlatSystem,
    list: &mut Vec<(u64, u64)>,
    size: u64,
    at: u64,
    steps: &mut Steps<L>,
) -> Result<(), AllocError>
    requires { AreBeside (⟦<FlatSystem as Links>⟧.regions memory.old) (⟦<FlatSystem as Links>⟧.word memory.old) bins.old list.old.items }
    ensures { AreBeside (⟦<FlatSystem as Links>⟧.regions memory.new) (⟦<FlatSystem as Links>⟧.word memory.new) bins.new list.new.items }
{
    if !has_place(size, at) {
        return Ok(());
    }
    if !is_free(list, size, at) {
        return Ok(());
    }
    list.push((size, at))?;
    memory.store(at + 8, size + 1);
    bins.insert(memory, at, size, steps);
    Ok(())
}

/// Takes a chunk of the list out of the bins and the list.
fn unlink<L: Ledger>(
    bins: &mut Bins,
    memory: &mut FlatSystem,
    list: &mut Vec<(u64, u64)>,
    place: usize,
    steps: &mut Steps<L>,
)
    requires within { place < vec_len list.old }
    requires beside { AreBeside (⟦<FlatSystem as Links>⟧.regions memory.old) (⟦<FlatSystem as Links>⟧.word memory.old) bins.old list.old.items }
    ensures { AreBeside (⟦<FlatSystem as Links>⟧.regions memory.new) (⟦<FlatSystem as Links>⟧.word memory.new) bins.new list.new.items }
{
    let entry = list.remove(place);
    bins.unlink(memory, entry.1, entry.0, steps);
}

/// The place of a chunk in a list.
fn place_of(list: &[(u64, u64)], at: u64) -> Option<usize>
    ensures within { IfSome result (λ place. place < length list.now) }
    ensures is { (default : ℕ × ℕ) → IfSome result (λ place. (get_or list.now place default).1 ≡ at) }
{
    list.iter().position(|entry| entry.1 == at)
}

/// Takes the least fit for a size out of the bins and the list, if there is one.
fn take_fit<L: Ledger>(
    bins: &mut Bins,
    memory: &mut FlatSystem,
    list: &mut Vec<(u64, u64)>,
    size: u64,
    steps: &mut Steps<L>,
)
    requires { AreBeside (⟦<FlatSystem as Links>⟧.regions memory.old) (⟦<FlatSystem as Links>⟧.word memory.old) bins.old list.old.items }
    ensures { AreBeside (⟦<FlatSystem as Links>⟧.regions memory.new) (⟦<FlatSystem as Links>⟧.word memory.new) bins.new list.new.items }
{
    let Some(chunk) = bins.least_fit(memory, size, steps) else {
        return;
    };
    let Some(place) = place_of(list, chunk) else {
        return;
    };
    let entry = list.remove(place);
    bins.unlink_fit(memory, entry.1, entry.0, steps);
}

/// The least fit of a plain list: the newest below 256, the oldest from 256 on.
fn least_in(list: &[(u64, u64)], size: u64) -> Option<u64> {
    let mut best: Option<(u64, u64)> = None;
    for &(other, at) in list {
        let is_better = match best {
            Some((least, _)) => other < least || (other == least && other < 256),
            None => true,
        };
        if other >= size && is_better {
            best = Some((other, at));
        }
    }
    best.map(|(_, at)| at)
}

/// The next number of a fixed sequence (Knuth's MMIX generator).
fn next(random: u64) -> u64 {
    random
        .wrapping_mul(6364136223846793005)
        .wrapping_add(1442695040888963407)
}

/// A size at which a rule of the bins changes, or a neighbour of it, by a number: 2^k and three halves of it are the
/// least sizes of the tree bins, with k from 5 to 24.
fn size_by(number: u64) -> u64 {
    let power = 1u64 << (5 + number % 20);
    let least = if number / 20 % 2 == 0 {
        power
    } else {
        power.wrapping_add(power / 2)
    };
    least.wrapping_add(number / 40 % 3 * 16).wrapping_sub(16)
}

/// A place of a chunk, by a number: one of 256 for small ones, and after these one of a few.
fn place_by(number: u64, size: u64) -> u64 {
    if size <= 0x1000 {
        BASE + number % 256 * 0x1000
    } else if size <= 0x200000 {
        BASE + 0x200000 + number % 8 * 0x200000
    } else {
        BASE + 0x1400000 + number % 2 * 0x1400000
    }
}

/// Of two small chunks of a size the newest goes first, of two large ones the oldest, and of two sizes the less.
fn worked_answers<L: Ledger, R: Abort>(
    rt: &R,
    bins: &mut Bins,
    memory: &mut FlatSystem,
    list: &mut Vec<(u64, u64)>,
    steps: &mut Steps<L>,
) -> Result<(), AllocError>
    requires { AreBeside (⟦<FlatSystem as Links>⟧.regions memory.old) (⟦<FlatSystem as Links>⟧.word memory.old) bins.old list.old.items }
    ensures { AreBeside (⟦<FlatSystem as Links>⟧.regions memory.new) (⟦<FlatSystem as Links>⟧.word memory.new) bins.new list.new.items }
{
    insert(bins, memory, list, 32, BASE, steps)?;
    insert(bins, memory, list, 32, BASE + 0x40, steps)?;
    same(rt, bins.least_fit(memory, 32, steps), Some(BASE + 0x40));
    insert(bins, memory, list, 272, BASE + 0x100, steps)?;
    insert(bins, memory, list, 272, BASE + 0x320, steps)?;
    same(rt, bins.least_fit(memory, 272, steps), Some(BASE + 0x100));
    insert(bins, memory, list, 1008, BASE + 0x1000, steps)?;
    insert(bins, memory, list, 608, BASE + 0x1410, steps)?;
    same(rt, bins.least_fit(memory, 512, steps), Some(BASE + 0x1410));
    assert_eq!(rt; list.len(), 6);
    unlink(bins, memory, list, 1, steps);
    same(rt, bins.least_fit(memory, 32, steps), Some(BASE));
    Ok(())
}

/// An insert, an unlink, or an unlink of what a search for a size names.
fn change<L: Ledger>(
    bins: &mut Bins,
    memory: &mut FlatSystem,
    list: &mut Vec<(u64, u64)>,
    random: u64,
    asked: u64,
    steps: &mut Steps<L>,
) -> Result<(), AllocError>
    requires { AreBeside (⟦<FlatSystem as Links>⟧.regions memory.old) (⟦<FlatSystem as Links>⟧.word memory.old) bins.old list.old.items }
    ensures { AreBeside (⟦<FlatSystem as Links>⟧.regions memory.new) (⟦<FlatSystem as Links>⟧.word memory.new) bins.new list.new.items }
{
    if random >> 20 & 7 == 0 {
        take_fit(bins, memory, list, asked, steps);
        return Ok(());
    }
    if random >> 20 & 7 == 4 && !list.is_empty() {
        unlink(
            bins,
            memory,
            list,
            (random >> 30) as usize % list.len(),
            steps,
        );
        return Ok(());
    }
    let size = size_by(random >> 40);
    insert(
        bins,
        memory,
        list,
        size,
        place_by(random >> 24, size),
        steps,
    )
}

/// One of 2,000 turns: a change, and a search.
fn turn<L: Ledger, R: Abort>(
    rt: &R,
    bins: &mut Bins,
    memory: &mut FlatSystem,
    list: &mut Vec<(u64, u64)>,
    random: u64,
    steps: &mut Steps<L>,
) -> Result<(), AllocError>
    requires { AreBeside (⟦<FlatSystem as Links>⟧.regions memory.old) (⟦<FlatSystem as Links>⟧.word memory.old) bins.old list.old.items }
    ensures { AreBeside (⟦<FlatSystem as Links>⟧.regions memory.new) (⟦<FlatSystem as Links>⟧.word memory.new) bins.new list.new.items }
{
    let asked = size_by(random >> 50)
        .wrapping_add(random >> 10 & 31)
        .wrapping_sub(16);
    change(bins, memory, list, random, asked, steps)?;
    assert_eq!(rt;
        bins.least_fit(memory, asked, steps),
        least_in(list, asked),
        "{asked}"
    );
    Ok(())
}

/// Bins and a plain list, 2,000 turns long; then all chunks leave, and one has the whole memory.
fn run<L: Ledger, R: Abort>(
    rt: &R,
    alloc: Global,
    memory: &mut FlatSystem,
    blank: Blank,
) -> Result<(), AllocError>
    requires name { blank.name ≡ L.name }
    requires parts { blank.parts ≡ L.parts }
    requires some { 0 < blank.parts }
    requires granted { (at : ℕ) → 65536 ≤ at → at < 65536 + 2 ^ 26 → IsTrue (is_granted (⟦<FlatSystem as Links>⟧.regions memory.old) at) }
{
    let mut steps = Steps::<L>::new(blank);
    let mut bins = Bins::new();
    let mut list = Vec::new(alloc);
    worked_answers(rt, &mut bins, memory, &mut list, &mut steps)?;
    let mut random = 1;
    'turns: for _ in 0..2000 {
        random = next(random);
        turn(rt, &mut bins, memory, &mut list, random, &mut steps)?;
    }
    assert!(rt; list.len() > 40, "{}", list.len());
    'leaving: for _ in 0..list.len() {
        if list.is_empty() {
            break;
        }
        unlink(&mut bins, memory, &mut list, 0, &mut steps);
        same(
            rt,
            bins.least_fit(memory, 0, &mut steps),
            least_in(&list, 0),
        );
    }
    insert(&mut bins, memory, &mut list, BYTES, BASE, &mut steps)?;
    same(rt, bins.least_fit(memory, 0, &mut steps), Some(BASE));
    same(rt, bins.least_fit(memory, BYTES, &mut steps), Some(BASE));
    same(rt, bins.least_fit(memory, BYTES + 1, &mut steps), None);
    same(rt, bins.least_fit(memory, u64::MAX, &mut steps), None);
    Ok(())
}

#[test]
fn answers_as_a_plain_list_does(rt: HostRuntime) -> Result<(), Fail> {
    let mut script = Vec::new(rt.alloc());
    script.push(FlatStep::Give {
        base: BASE,
        size: BYTES,
        flags: 0,
    })?;
    let mut memory = FlatSystem::new(rt.alloc(), script, true, true, 4096)?;
    let grant = memory.alloc(BYTES)?;
    assert_eq!(rt; (grant.base, grant.size), (BASE, BYTES));
    run::<Brand, HostRuntime>(&rt, rt.alloc(), &mut memory, Blank::new(1))?;
    Ok(())
}
