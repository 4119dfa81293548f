ghost use Rattle.std.specs.Prelude.{◌≡◌, ◌+◌, ◌*◌, ◌<◌, ◌≤◌, ◌⊎◌};
ghost use Rattle.heap_memory.specs.Regions.{IsWordOf};
ghost use Rattle.heap_memory.specs.Words.{AreWordsOf};

use crate::checks::same;
use heap_memory::{Allocator, FlatStep, FlatSystem, Grant, GrantFault, Links, Memory, Steps};
use std::alloc::{AllocError, Global};
use std::marker::Brand;
use std::sync::ledger::{Blank, Ledger};
use std::test::Fail;

const FIRST: FlatStep = FlatStep::Give {
    base: 0x10000,
    size: 4096,
    flags: 0,
};

fn give(base: u64, size: u64, flags: u32) -> FlatStep {
    FlatStep::Give { base, size, flags }
}

fn refuse(fault: GrantFault) -> FlatStep {
    FlatStep::Refuse { fault }
}

fn granted(base: u64, size: u64) -> Result<Grant, GrantFault> {
    Ok(Grant {
        base,
        size,
        flags: 0,
    })
}

/// The answer to the last of some requests for 4096 bytes each.
fn last_answer(
    alloc: Global,
    steps: &[FlatStep],
    requests: u32,
) -> Result<Result<Grant, GrantFault>, AllocError> {
    let mut system = FlatSystem::new(alloc, Vec::from_slice(alloc, steps)?, true, true, 4096)?;
    let mut answer = Err(GrantFault::NoSpace);
    for _ in 0..requests {
        answer = system.alloc(4096);
    }
    Ok(answer)
}

#[test]
fn each_step_is_answered(rt: HostRuntime) -> Result<(), Fail> {
    let no_space = Err(GrantFault::NoSpace);
    let rows = [
        (
            "the first",
            granted(0x10000, 4096),
            1,
            [FIRST, FIRST, FIRST],
        ),
        (
            "behind the first",
            granted(0x11000, 4096),
            2,
            [FIRST, give(0x11000, 4096, 0), FIRST],
        ),
        (
            "longer than asked",
            granted(0x11000, 8192),
            2,
            [FIRST, give(0x11000, 8192, 0), FIRST],
        ),
        (
            "too short",
            no_space,
            2,
            [FIRST, give(0x11000, 4080, 0), FIRST],
        ),
        (
            "no multiple of 16",
            no_space,
            2,
            [FIRST, give(0x11000, 4104, 0), FIRST],
        ),
        ("below 4096", no_space, 1, [give(0, 4096, 0), FIRST, FIRST]),
        (
            "base no multiple of 16",
            no_space,
            1,
            [give(0x10008, 4096, 0), FIRST, FIRST],
        ),
        (
            "up to 2^64",
            no_space,
            2,
            [FIRST, give(0x11000, 0xffff_ffff_fffe_f000, 0), FIRST],
        ),
        ("over a granted one", no_space, 2, [FIRST, FIRST, FIRST]),
        (
            "over a denied one",
            no_space,
            3,
            [FIRST, give(0x11000, 4080, 1), give(0x11000, 4096, 0)],
        ),
        (
            "behind a gap",
            granted(0x20000, 4096),
            2,
            [FIRST, give(0x20000, 4096, 0), FIRST],
        ),
        (
            "before the first",
            granted(0xf000, 4096),
            2,
            [FIRST, give(0xf000, 4096, 0), FIRST],
        ),
        (
            "refused",
            no_space,
            1,
            [refuse(GrantFault::NoSpace), FIRST, FIRST],
        ),
        (
            "refused for frames",
            Err(GrantFault::NoFrames),
            1,
            [refuse(GrantFault::NoFrames), FIRST, FIRST],
        ),
        (
            "refused for memory",
            Err(GrantFault::OutOfMemory),
            1,
            [refuse(GrantFault::OutOfMemory), FIRST, FIRST],
        ),
        (
            "after a refusal",
            granted(0x10000, 4096),
            2,
            [refuse(GrantFault::NoSpace), FIRST, FIRST],
        ),
        (
            "past the end",
            no_space,
            4,
            [FIRST, give(0x11000, 4096, 0), give(0x12000, 4096, 0)],
        ),
    ];
    for (name, answer, requests, steps) in rows {
        assert_eq!(rt;
            last_answer(rt.alloc(), &steps, requests)?,
            answer,
            "{name}"
        );
    }
    Ok(())
}

#[test]
fn any_flags_are_granted(rt: HostRuntime) -> Result<(), Fail> {
    for flags in [0, 1, 2, 3, 0x7fff_ffff, 0x8000_0000, 0xffff_ffff] {
        let steps = [FIRST, give(0x11000, 4096, flags)];
        let grant = Grant {
            base: 0x11000,
            size: 4096,
            flags,
        };
        assert_eq!(rt; last_answer(rt.alloc(), &steps, 2)?, Ok(grant), "{flags}");
    }
    Ok(())
}

#[test]
fn each_give_is_denied_in_turn(rt: HostRuntime) -> Result<(), Fail> {
    let second = give(0x11000, 4096, 0);
    let third = give(0x12000, 4096, 0);
    for fault in [
        GrantFault::NoSpace,
        GrantFault::NoFrames,
        GrantFault::OutOfMemory,
    ] {
        let rows = [
            (1, [refuse(fault), FIRST, second, third]),
            (2, [FIRST, refuse(fault), second, third]),
            (3, [FIRST, second, refuse(fault), third]),
        ];
        for (place, steps) in rows {
            assert_eq!(rt;
                last_answer(rt.alloc(), &steps, place)?,
                Err(fault),
                "{place}"
            );
            assert_eq!(rt;
                last_answer(rt.alloc(), &steps, 4)?,
                granted(0x12000, 4096),
                "{place}"
            );
        }
    }
    Ok(())
}

/// Gives the first grant back, but for a number of units of 16 bytes, and asks for the next: whether the bytes were
/// taken, the word stored at the start of the grant before if it is kept, and the next answer.
fn given_back(
    alloc: Global,
    frees: bool,
    kept: u8,
    next: FlatStep,
) -> Result<(bool, u64, Result<Grant, GrantFault>), AllocError> {
    let steps = Vec::from_slice(alloc, &[FIRST, next])?;
    let mut system = FlatSystem::new(alloc, steps, frees, true, 4096)?;
    let Ok(grant) = system.alloc(4096) else {
        return Ok((false, 0, Err(GrantFault::OutOfMemory)));
    };
    system.store(grant.base, 7);
    let (taken, word) = if kept == 0 {
        (system.free(grant.base, grant.size), 0)
    } else {
        let taken = system.free_part(grant.base, grant.size, u64::from(kept) * 16);
        (taken, system.load(grant.base))
    };
    Ok((taken, word, system.alloc(4096)))
}

#[test]
fn grants_are_given_back(rt: HostRuntime) -> Result<(), Fail> {
    let no_space = Err(GrantFault::NoSpace);
    let rows = [
        (
            "a whole one",
            true,
            0,
            give(0x20000, 4096, 0),
            granted(0x20000, 4096),
        ),
        ("its bytes are not granted again", true, 0, FIRST, no_space),
        ("nor some of them", true, 0, give(0xfff0, 8192, 0), no_space),
        (
            "one that the system keeps",
            false,
            0,
            give(0x11000, 4096, 0),
            granted(0x11000, 4096),
        ),
        ("is granted once", false, 0, FIRST, no_space),
        ("a part of one", true, 128, give(0x10800, 4096, 0), no_space),
        (
            "all but 16 bytes of one",
            true,
            1,
            give(0x10010, 4096, 0),
            no_space,
        ),
        (
            "a part that the system keeps",
            false,
            128,
            give(0x11000, 4096, 0),
            granted(0x11000, 4096),
        ),
    ];
    for (name, frees, kept, next, answer) in rows {
        let word = if kept == 0 { 0 } else { 7 };
        assert_eq!(rt;
            given_back(rt.alloc(), frees, kept, next)?,
            (frees, word, answer),
            "{name}"
        );
    }
    Ok(())
}

#[test]
fn what_a_system_takes_back(rt: HostRuntime) -> Result<(), Fail> {
    for parts in [false, true] {
        let script = Vec::new(rt.alloc());
        let mut system = FlatSystem::new(rt.alloc(), script, !parts, parts, 4096)?;
        for flags in [0, 1, 0x7fff_ffff] {
            assert_eq!(rt; system.can_release_part(flags), parts, "{flags}");
        }
        assert_eq!(rt; system.remap(0x10000, 4096, 8192, true), None);
    }
    Ok(())
}

/// Stores a word, and loads it again.
fn counted<L: Ledger>(system: &mut FlatSystem, at: u64, value: u64, blank: Blank) -> u64
    requires name { blank.name ≡ L.name }
    requires parts { blank.parts ≡ L.parts }
    requires some { 0 < blank.parts }
    requires word { IsWordOf (⟦<FlatSystem as Links>⟧.regions system.old) at }
    ensures regions { ⟦<FlatSystem as Links>⟧.regions system.new ≡ ⟦<FlatSystem as Links>⟧.regions system.old }
{
    let mut steps = Steps::<L>::new(blank);
    system.store_counted(at, value, &mut steps);
    system.load_counted(at, &mut steps)
}

#[test]
fn words_and_bytes_are_kept(rt: HostRuntime) -> Result<(), Fail> {
    let mut script = Vec::new(rt.alloc());
    script.push(give(0x400000, 65536, 0))?;
    script.push(give(0x410000, 65536, 0))?;
    let mut system = FlatSystem::new(rt.alloc(), script, true, false, 65536)?;
    assert!(rt; system.allocates_zeros());
    same(&rt, system.page_size(), 65536);
    let grant = system.alloc(65536)?;
    assert_eq!(rt; (grant.base, grant.size, grant.flags), (0x400000, 65536, 0));
    same(&rt, system.load(0x400000), 0);
    same(
        &rt,
        counted::<Brand>(&mut system, 0x40fff8, 0x1122_3344_5566_7788, Blank::new(1)),
        0x1122_3344_5566_7788,
    );
    same(&rt, system.load_byte(0x40fff9), 0x77);
    system.store_byte(0x40ffff, 0xaa);
    same(&rt, system.load(0x40fff8), 0xaa22_3344_5566_7788);
    same(&rt, system.load(0x40fff0), 0);

    // No store took a step of the script.
    assert_eq!(rt; system.alloc(65536), granted(0x410000, 65536));
    same(&rt, system.load(0x40fff8), 0xaa22_3344_5566_7788);
    Ok(())
}

/// Fills words.
fn fill<L: Ledger>(system: &mut FlatSystem, at: u64, count: u64, value: u64, blank: Blank)
    requires name { blank.name ≡ L.name }
    requires parts { blank.parts ≡ L.parts }
    requires some { 0 < blank.parts }
    requires words { AreWordsOf (⟦<FlatSystem as Links>⟧.regions system.old) at count }
    ensures regions { ⟦<FlatSystem as Links>⟧.regions system.new ≡ ⟦<FlatSystem as Links>⟧.regions system.old }
{
    system.fill_counted(at, count, value, &mut Steps::<L>::new(blank));
}

/// Copies words.
fn copy<L: Ledger>(system: &mut FlatSystem, from: u64, to: u64, count: u64, blank: Blank)
    requires name { blank.name ≡ L.name }
    requires parts { blank.parts ≡ L.parts }
    requires some { 0 < blank.parts }
    requires from { AreWordsOf (⟦<FlatSystem as Links>⟧.regions system.old) from count }
    requires to { AreWordsOf (⟦<FlatSystem as Links>⟧.regions system.old) to count }
    requires apart { (from + 8 * count ≤ to) ⊎ (to + 8 * count ≤ from) }
    ensures regions { ⟦<FlatSystem as Links>⟧.regions system.new ≡ ⟦<FlatSystem as Links>⟧.regions system.old }
{
    system.copy_counted(from, to, count, &mut Steps::<L>::new(blank));
}

#[test]
fn runs_of_words_are_filled_and_copied(rt: HostRuntime) -> Result<(), Fail> {
    let mut script = Vec::new(rt.alloc());
    script.push(give(0x400000, 65536, 0))?;
    let mut system = FlatSystem::new(rt.alloc(), script, true, false, 65536)?;
    let grant = system.alloc(65536)?;
    assert_eq!(rt; (grant.base, grant.size, grant.flags), (0x400000, 65536, 0));
    fill::<Brand>(&mut system, 0x400010, 3, 0xaa, Blank::new(1));
    system.store(0x400018, 0xbb);
    copy::<Brand>(&mut system, 0x400010, 0x400100, 3, Blank::new(1));
    same(&rt, system.load(0x400008), 0);
    same(&rt, system.load(0x400010), 0xaa);
    same(&rt, system.load(0x400018), 0xbb);
    same(&rt, system.load(0x400020), 0xaa);
    same(&rt, system.load(0x400028), 0);
    same(&rt, system.load(0x4000f8), 0);
    same(&rt, system.load(0x400100), 0xaa);
    same(&rt, system.load(0x400108), 0xbb);
    same(&rt, system.load(0x400110), 0xaa);
    same(&rt, system.load(0x400118), 0);
    Ok(())
}
