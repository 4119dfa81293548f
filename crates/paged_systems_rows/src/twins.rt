//! Pages with flat words beside them, alone and under a heap.
ghost use Rattle.std.specs.Prelude.{◌≡◌, ◌%◌, ◌<◌, IfOk};
ghost use Rattle.paged_systems.specs.Layout.{IsNew};
ghost use Rattle.paged_systems.specs.TwinSystem.{paged_of};

use crate::checks::same;
use crate::twin_rows::word_of_both;
use heap_memory::{Allocator, GrantFault, Memory};
use kernel_heap::TwinSystem;
use sound_heap::Heap;
use std::alloc::{AllocError, Global};
use std::process::Abort;
use std::test::Fail;

/// A twin over a window of 16 pages from 0x400000 on, and 1024 frames.
fn twin(alloc: Global) -> Result<TwinSystem, AllocError>
    ensures { IfOk result (λ system. IsNew (paged_of system) 4194304 16 1024) }
{
    TwinSystem::new(alloc, 0x40_0000, 16, 1024)
}

/// Stores words and bytes in a grant of all pages, and loads them.
fn expect_words(rt: &impl Abort, system: &mut TwinSystem) -> Result<(), Fail>
    requires { IsNew (paged_of system.old) 4194304 16 1024 }
{
    assert!(rt; system.allocates_zeros());
    assert!(rt; system.can_release_part(0));
    same(rt, system.page_size(), 4096);
    same(rt, system.flat_word(0x40_0000), None);
    let grant = system.alloc(65536)?;
    assert_eq!(rt;
        (grant.base, grant.size, grant.flags),
        (0x40_0000, 65536, 0)
    );
    same(rt, system.load(0x40_0000), 0);
    system.store(0x40_fff8, 0x1122_3344_5566_7788);
    same(rt, system.load(0x40_fff8), 0x1122_3344_5566_7788);
    same(rt, system.load_byte(0x40_fff9), 0x77);
    system.store_byte(0x40_ffff, 0xaa);
    same(rt, system.load(0x40_fff8), 0xaa22_3344_5566_7788);
    same(rt, system.load(0x40_fff0), 0);
    same(rt, system.flat_word(0x3f_fff8), None);
    same(rt, system.flat_word(0x40_fff8), Some(0xaa22_3344_5566_7788));
    same(rt, system.flat_word(0x40_ffff), Some(0xaa22_3344_5566_7788));
    same(rt, system.flat_word(0x41_0000), None);
    // The refusal leaves the words as they are, so they can be loaded.
    assert_eq!(rt; system.alloc(4096), Err(GrantFault::NoSpace));
    same(rt, system.load(0x40_fff8), 0xaa22_3344_5566_7788);
    Ok(())
}

#[test]
fn words_stand_in_both(rt: HostRuntime) -> Result<(), Fail> {
    let mut system = twin(rt.alloc())?;
    expect_words(&rt, &mut system)
}

/// Gives a grant back, all but its first bytes: whether it was taken, and what stands at its end, which is granted again
/// where it was.
fn given_back(rt: &impl Abort, system: &mut TwinSystem, left: u64) -> Result<(bool, u64), Fail>
    requires new { IsNew (paged_of system.old) 4194304 16 1024 }
    requires less { left < 65536 }
    requires whole { left % 16 ≡ 0 }
{
    let grant = system.alloc(65536)?;
    assert_eq!(rt; (grant.base, grant.size), (0x40_0000, 65536));
    system.store(0x40_fff8, 7);
    let taken = if left == 0 {
        system.free(0x40_0000, 65536)
    } else {
        system.free_part(0x40_0000, 65536, left)
    };
    if taken {
        let again = system.alloc(65536 - left)?;
        same(
            rt,
            (again.base, again.size),
            (0x40_0000 + left, 65536 - left),
        );
    }
    Ok((taken, word_of_both(rt, system, 0x40_fff8, "given back")))
}

#[test]
fn grants_are_cleared_in_both(rt: HostRuntime) -> Result<(), Fail> {
    for (left, taken, word) in [
        (0, true, 0),
        (4096, true, 0),
        (4112, false, 7),
        (16, false, 7),
    ] {
        let mut system = twin(rt.alloc())?;
        same(&rt, given_back(&rt, &mut system, left)?, (taken, word));
    }
    Ok(())
}

#[test]
fn a_heap_stands_on_both(rt: HostRuntime) -> Result<(), Fail> {
    let mut heap = Heap::new(TwinSystem::new(rt.alloc(), 0x40_0000, 1024, 1024)?);
    same(&rt, heap.malloc(24, 16), Ok(0x40_0010));
    Ok(())
}
