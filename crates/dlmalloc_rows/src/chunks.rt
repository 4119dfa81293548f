ghost use Rattle.std.specs.Prelude.{◌≡◌, ℕ, ◌<◌, ◌≤◌, IsTrue};
ghost use Rattle.heap_memory.specs.Regions.{is_granted};

use crate::checks::same;
use dlmalloc_chunks::{chunk, compute_tree_index, max_request, request2size, small_index};
use heap_memory::{Allocator, FlatStep, FlatSystem, Links, Memory, Steps};
use std::marker::Brand;
use std::process::Abort;
use std::sync::ledger::{Blank, Ledger};
use std::test::Fail;

/// The numbers are those of the formulas of the Rust crate.
#[test]
fn requests_have_sizes(rt: HostRuntime) -> Result<(), Fail> {
    let requests = [
        (0, 32),
        (22, 32),
        (23, 32),
        (24, 32),
        (25, 48),
        (40, 48),
        (41, 64),
        (231, 240),
        (232, 240),
        (233, 256),
        (234, 256),
        (255, 272),
        (256, 272),
        (18446744073709551583, 18446744073709551600),
    ];
    for (request, size) in requests {
        assert!(rt; request < 18446744073709551584);
        assert_eq!(rt; request2size(request), size, "{request}");
    }
    same(&rt, max_request(16), 18446744073709551481);
    same(&rt, max_request(32), 18446744073709551481);
    same(&rt, max_request(4096), 18446744073709547417);
    same(&rt, max_request(65536), 18446744073709485977);
    same(&rt, max_request(0x8000000000000000), 9223372036854775705);
    Ok(())
}

/// The numbers are those of the formulas of the Rust crate.
#[test]
fn sizes_have_bins(rt: HostRuntime) {
    let trees = [
        (256, 0),
        (383, 0),
        (384, 1),
        (511, 1),
        (512, 2),
        (767, 2),
        (768, 3),
        (1023, 3),
        (1024, 4),
        (1535, 4),
        (1536, 5),
        (4095, 7),
        (4096, 8),
        (6143, 8),
        (6144, 9),
        (65535, 15),
        (65536, 16),
        (98304, 17),
        (1048575, 23),
        (1048576, 24),
        (1572864, 25),
        (8388607, 29),
        (8388608, 30),
        (12582911, 30),
        (12582912, 31),
        (16777215, 31),
        (16777216, 31),
        (18446744073709551615, 31),
    ];
    for (size, index) in trees {
        assert!(rt; size >= 256);
        assert_eq!(rt; compute_tree_index(size), index, "{size}");
    }
    for (size, index) in [(32, 4), (48, 6), (240, 30), (255, 31)] {
        assert!(rt; size < 256);
        assert_eq!(rt; small_index(size), index, "{size}");
    }
}

/// Makes a chunk at the start of the memory that is in use, and then a free one.
fn use_a_chunk<L: Ledger, R: Abort>(rt: &R, memory: &mut FlatSystem, blank: Blank)
    requires name { blank.name ≡ L.name }
    requires parts { blank.parts ≡ L.parts }
    requires some { 0 < blank.parts }
    requires granted { (at : ℕ) → 65536 ≤ at → at < 69632 → IsTrue (is_granted (⟦<FlatSystem as Links>⟧.regions memory.old) at) }
    ensures granted { (at : ℕ) → 65536 ≤ at → at < 69632 → IsTrue (is_granted (⟦<FlatSystem as Links>⟧.regions memory.new) at) }
{
    let mut steps = Steps::<L>::new(blank);
    chunk::set_inuse_and_pinuse(memory, 0x10000, 64, &mut steps);
    same(rt, (memory.load(0x10008), memory.load(0x10048)), (67, 1));
    same(rt, chunk::size(memory, 0x10000, &mut steps), 64);
    assert!(rt;
        chunk::cinuse(memory, 0x10000, &mut steps) && chunk::pinuse(memory, 0x10000, &mut steps)
    );
    chunk::clear_pinuse(memory, 0x10000, &mut steps);
    same(rt, memory.load(0x10008), 66);
    chunk::set_inuse(memory, 0x10000, 32, &mut steps);
    same(rt, (memory.load(0x10008), memory.load(0x10028)), (34, 1));
    chunk::set_size_and_pinuse_of_inuse_chunk(memory, 0x10000, 64, &mut steps);
    assert!(rt; chunk::inuse(memory, 0x10000, &mut steps));
    same(rt, chunk::next(memory, 0x10000, &mut steps), 0x10040);
}

/// Makes a free chunk at the start of the memory.
fn free_a_chunk<L: Ledger, R: Abort>(rt: &R, memory: &mut FlatSystem, blank: Blank)
    requires name { blank.name ≡ L.name }
    requires parts { blank.parts ≡ L.parts }
    requires some { 0 < blank.parts }
    requires granted { (at : ℕ) → 65536 ≤ at → at < 69632 → IsTrue (is_granted (⟦<FlatSystem as Links>⟧.regions memory.old) at) }
    ensures granted { (at : ℕ) → 65536 ≤ at → at < 69632 → IsTrue (is_granted (⟦<FlatSystem as Links>⟧.regions memory.new) at) }
{
    let mut steps = Steps::<L>::new(blank);
    memory.store(0x10048, 51);
    chunk::set_free_with_pinuse(memory, 0x10000, 64, 0x10040, &mut steps);
    same(
        rt,
        (
            memory.load(0x10008),
            memory.load(0x10040),
            memory.load(0x10048),
        ),
        (65, 64, 50),
    );
    assert!(rt; !chunk::inuse(memory, 0x10000, &mut steps));
    chunk::set_size_and_pinuse_of_free_chunk(memory, 0x10000, 96, &mut steps);
    same(rt, (memory.load(0x10008), memory.load(0x10060)), (97, 96));
    chunk::set_foot(memory, 0x10000, 128, &mut steps);
    same(rt, chunk::prev(memory, 0x10080, &mut steps), 0x10000);
}

#[test]
fn words_of_a_chunk_change(rt: HostRuntime) -> Result<(), Fail> {
    let mut script = Vec::new(rt.alloc());
    script.push(FlatStep::Give {
        base: 0x10000,
        size: 4096,
        flags: 0,
    })?;
    let mut memory = FlatSystem::new(rt.alloc(), script, true, true, 4096)?;
    let grant = memory.alloc(4096)?;
    assert_eq!(rt; (grant.base, grant.size), (0x10000, 4096));
    use_a_chunk::<Brand, HostRuntime>(&rt, &mut memory, Blank::new(1));
    free_a_chunk::<Brand, HostRuntime>(&rt, &mut memory, Blank::new(1));
    Ok(())
}
