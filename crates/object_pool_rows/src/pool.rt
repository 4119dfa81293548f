ghost use Rattle.std.specs.Prelude.{◌≡◌, ◌<◌, ◌≤◌, IfOk, length};

use crate::checks::same;
use dlmalloc::MallocError;
use heap_memory::{FlatStep, FlatSystem};
use object_pool::{GrantFault, Key, Pool, PoolFault};
use sound_heap::{Heap, HeapError};
use std::alloc::{AllocError, Global};
use std::process::Abort;
use std::test::Fail;

/// A pool of objects of a size, over a heap whose system follows a script.
fn pool_over(
    alloc: Global,
    script: Vec<FlatStep>,
    granularity: u64,
    size: u64,
) -> Result<Pool<FlatSystem>, AllocError>
    requires some { 0 < size }
    requires small { size ≤ 4096 }
    ensures { IfOk result (λ pool. pool.size ≡ size) }
{
    let system = FlatSystem::new(alloc, script, true, true, 4096)?;
    let mut heap = Heap::new(system);
    heap.set_granularity(granularity);
    Ok(Pool::new(alloc, heap, size))
}

/// A pool of objects of a size, over a heap whose system gives one region of so many bytes at 0x10000.
fn pool_of(
    alloc: Global,
    bytes: u64,
    granularity: u64,
    size: u64,
) -> Result<Pool<FlatSystem>, AllocError>
    requires some { 0 < size }
    requires small { size ≤ 4096 }
    ensures { IfOk result (λ pool. pool.size ≡ size) }
{
    let mut script = Vec::new(alloc);
    script.push(FlatStep::Give {
        base: 0x1_0000,
        size: bytes,
        flags: 0,
    })?;
    pool_over(alloc, script, granularity, size)
}

/// Sees that a key has an object of these bytes, or none.
fn expect_object<R: Abort>(
    rt: &R,
    pool: &Pool<FlatSystem>,
    key: Key,
    object: Option<&[u8]>,
) -> Result<(), AllocError> {
    match pool.get(key)? {
        Some(found) => match object {
            Some(bytes) => same(rt, found.as_slice(), bytes),
            None => panic!(rt; "an object where there is none"),
        },
        None => assert!(rt; object.is_none()),
    }
    Ok(())
}

/// The key of an index and a generation.
fn key(index: u32, generation: u32) -> Key
    ensures { result ≡ record { index = index; generation = generation } }
{
    Key { index, generation }
}

/// Sees that a key has an object of these bytes.
fn expect_bytes<R: Abort>(
    rt: &R,
    pool: &Pool<FlatSystem>,
    key: Key,
    bytes: &[u8],
) -> Result<(), AllocError> {
    expect_object(rt, pool, key, Some(bytes))
}

/// Reads the second of two objects of 24 bytes in place: the first slab is a block of the region's first chunk.
fn find_in_place<R: Abort>(rt: &R, pool: &Pool<FlatSystem>)
    requires { pool.now.size ≡ 24 }
{
    let mut bytes = [7u8; 24];
    assert!(rt; !pool.read(key(0, 0), &mut bytes));
    same(rt, bytes.as_slice(), [7u8; 24].as_slice());
    assert!(rt; pool.read(key(1, 0), &mut bytes));
    same(rt, bytes.as_slice(), [1u8; 24].as_slice());
    assert!(rt; pool.at(key(0, 0)).is_none());
    same(rt, pool.at(key(1, 0)), Some(0x1_0010 + 24));
}

/// Inserts, removes and sets objects of 24 bytes.
fn use_slots_again<R: Abort>(rt: &R, pool: &mut Pool<FlatSystem>) -> Result<(), AllocError>
    requires { pool.old.size ≡ 24 }
{
    let (a, b, c) = ([1u8; 24], [2u8; 24], [3u8; 24]);
    same(rt, pool.insert(&a), Ok(key(0, 0)));
    same(rt, pool.insert(&b), Ok(key(1, 0)));
    assert!(rt; pool.remove(key(0, 0)));
    same(rt, pool.insert(&c), Ok(key(0, 1)));
    expect_object(rt, pool, key(0, 0), None)?;
    expect_bytes(rt, pool, key(0, 1), &c)?;
    expect_bytes(rt, pool, key(1, 0), &b)?;
    assert!(rt; !pool.set(key(0, 0), &a));
    assert!(rt; !pool.remove(key(0, 0)));
    assert!(rt; pool.set(key(1, 0), &a));
    expect_bytes(rt, pool, key(1, 0), &a)?;
    expect_bytes(rt, pool, key(0, 1), &c)?;
    find_in_place(rt, pool);
    same(rt, pool.len(), 2);
    same(rt, pool.slabs(), 1);
    same(rt, pool.heap().granularity(), 65536);
    Ok(())
}

#[test]
fn a_slot_is_used_again(rt: HostRuntime) -> Result<(), Fail> {
    let mut pool = pool_of(rt.alloc(), 65536, 65536, 24)?;
    use_slots_again(&rt, &mut pool)?;
    let heap = pool.finish();
    same(&rt, heap.granularity(), 65536);
    same(&rt, heap.heap.release_checks(), 4095);
    same(&rt, heap.heap.trim_check(), 2_097_152);
    Ok(())
}

/// Inserts so many objects, each of which is to be served.
fn insert_all<R: Abort>(rt: &R, pool: &mut Pool<FlatSystem>, count: u32, object: &[u8])
    requires { length object.now ≡ pool.old.size }
    ensures { pool.new.size ≡ pool.old.size }
{
    for index in 0..count {
        same(rt, pool.insert(object), Ok(key(index, 0)));
    }
}

#[test]
fn a_heap_without_room_is_told(rt: HostRuntime) -> Result<(), Fail> {
    let mut pool = pool_of(rt.alloc(), 4096, 4096, 24)?;
    let object = [7u8; 24];
    insert_all(&rt, &mut pool, 128, &object);
    same(
        &rt,
        pool.insert(&object),
        Err(PoolFault::Heap(GrantFault::NoSpace)),
    );
    same(&rt, pool.slabs(), 2);
    assert!(rt; pool.remove(key(77, 0)));
    same(&rt, pool.insert(&object), Ok(key(77, 1)));
    same(
        &rt,
        pool.insert(&object),
        Err(PoolFault::Heap(GrantFault::NoSpace)),
    );
    same(&rt, pool.len(), 128);
    same(&rt, pool.slabs(), 2);
    Ok(())
}

// A slab of 64 objects of 4096 bytes takes 262,160 bytes. The top is 4,194,224 bytes long at first, 80 less than the region, and
// so 1,834,784 behind nine slabs. The second slab that goes back makes it 2,359,104, above 2,097,152: 35 granularities of it go
// to the system, and the other slabs are freed beside the 65,344 bytes that are left.
#[test]
fn finish_gives_the_system_what_its_frees_do(rt: HostRuntime) -> Result<(), Fail> {
    let mut pool = pool_of(rt.alloc(), 4_194_304, 65536, 4096)?;
    insert_all(&rt, &mut pool, 513, &[7u8; 4096]);
    same(&rt, pool.slabs(), 9);
    same(&rt, pool.finish().destroy().0, 1_900_544);
    Ok(())
}

/// Sees that the keys of a pool's objects are these.
fn expect_keys<R: Abort>(rt: &R, pool: &Pool<FlatSystem>, keys: &[Key]) {
    let mut found = pool.keys();
    for key in keys {
        same(rt, found.next(), Some(*key));
    }
    same(rt, found.next(), None);
}

/// Sees that no call knows these keys, and that none of them removes an object.
fn expect_unknown<R: Abort>(
    rt: &R,
    pool: &mut Pool<FlatSystem>,
    keys: &[Key],
    object: &[u8],
) -> Result<(), AllocError>
    requires { length object.now ≡ pool.old.size }
    ensures { pool.new.size ≡ pool.old.size }
{
    for key in keys {
        let many = pool.len();
        expect_object(rt, pool, *key, None)?;
        assert!(rt; !pool.set(*key, object));
        assert!(rt; !pool.remove(*key));
        same(rt, pool.len(), many);
    }
    Ok(())
}

/// Makes keys of all kinds that have no object of 24 bytes, and sees that no call knows them.
fn refuse_keys<R: Abort>(rt: &R, pool: &mut Pool<FlatSystem>) -> Result<(), AllocError>
    requires { pool.old.size ≡ 24 }
{
    let (a, b) = ([1u8; 24], [2u8; 24]);
    expect_keys(rt, pool, &[]);
    insert_all(rt, pool, 4, &a);
    expect_keys(rt, pool, &[key(0, 0), key(1, 0), key(2, 0), key(3, 0)]);
    assert!(rt; pool.remove(key(0, 0)));
    assert!(rt; pool.remove(key(3, 0)));
    assert!(rt; pool.remove(key(1, 0)));
    same(rt, pool.insert(&b), Ok(key(1, 1)));
    let unknown = [
        key(0, 0), // removed; its slot is free
        key(1, 0), // removed; its slot has another object
        key(0, 1), // the next of a free slot
        key(1, 2), // the next of a slot with an object
        key(2, 1), // likewise, where none was removed
        key(4, 0), // of a slot that was never used
        key(63, 0), // the last of the slab
        key(64, 0), // of no slab
        key(u32::MAX, 0),
        key(1, u32::MAX),
        key(u32::MAX, u32::MAX),
    ];
    expect_unknown(rt, pool, &unknown, &a)?;
    expect_keys(rt, pool, &[key(1, 1), key(2, 0)]);
    expect_object(rt, pool, key(1, 1), Some(&b))?;
    expect_object(rt, pool, key(2, 0), Some(&a))?;
    Ok(())
}

#[test]
fn keys_without_an_object_are_refused(rt: HostRuntime) -> Result<(), Fail> {
    let mut pool = pool_of(rt.alloc(), 65536, 65536, 24)?;
    refuse_keys(&rt, &mut pool)?;
    Ok(())
}

/// A system that denies one request with a fault, and gives the next.
fn denying(alloc: Global, fault: GrantFault) -> Result<Vec<FlatStep>, AllocError> {
    let mut script = Vec::new(alloc);
    script.push(FlatStep::Refuse { fault })?;
    script.push(FlatStep::Give {
        base: 0x1_0000,
        size: 65536,
        flags: 0,
    })?;
    Ok(script)
}

/// An insert that is refused leaves the pool as it was, and the next one is served.
fn expect_fault<R: Abort>(rt: &R, alloc: Global, fault: GrantFault) -> Result<(), AllocError> {
    let mut pool = pool_over(alloc, denying(alloc, fault)?, 65536, 24)?;
    let object = [9u8; 24];
    same(rt, pool.insert(&object), Err(PoolFault::Heap(fault)));
    same(rt, pool.len(), 0);
    same(rt, pool.slabs(), 0);
    expect_keys(rt, &pool, &[]);
    same(rt, pool.insert(&object), Ok(key(0, 0)));
    expect_object(rt, &pool, key(0, 0), Some(&object))?;
    same(rt, pool.slabs(), 1);
    Ok(())
}

#[test]
fn each_fault_of_the_heap_is_told(rt: HostRuntime) -> Result<(), Fail> {
    for fault in [
        GrantFault::NoSpace,
        GrantFault::NoFrames,
        GrantFault::OutOfMemory,
    ] {
        expect_fault(&rt, rt.alloc(), fault)?;
    }
    Ok(())
}

/// The bytes of an object in the test beside a plain list, so that places stand at each address modulo 8.
const ODD: usize = 21;

/// The objects that a pool is to have, with the number that tells their bytes, and the keys of objects that are gone.
#[derive(Drop)]
struct Plain {
    live: Vec<(Key, u64)>,
    gone: Vec<Key>,
}

/// The bytes that a number tells.
fn told(number: u64) -> [u8; ODD] {
    let word = number.to_le_bytes();
    let mut bytes = [0; ODD];
    for i in 0..ODD {
        bytes[i] = word[i % 8];
    }
    bytes
}

/// The next number of the generator.
fn next(random: u64) -> u64 {
    random
        .wrapping_mul(6_364_136_223_846_793_005)
        .wrapping_add(1_442_695_040_888_963_407)
}

/// Inserts an object, sets one, removes one, or looks at one that is there or at one that is gone.
fn turn<R: Abort>(
    rt: &R,
    pool: &mut Pool<FlatSystem>,
    plain: &mut Plain,
    random: u64,
) -> Result<(), AllocError>
    requires { pool.old.size ≡ 21 }
    ensures { pool.new.size ≡ 21 }
{
    let kind = random >> 60;
    let object = told(random);
    if kind < 6 || plain.live.is_empty() {
        match pool.insert(&object) {
            Ok(key) => plain.live.push((key, random))?,
            Err(fault) => panic!(rt; "{fault}"),
        }
        return Ok(());
    }
    let place = (random >> 20) as usize % plain.live.len();
    let (key, number) = plain.live[place];
    expect_object(rt, pool, key, Some(&told(number)))?;
    if kind < 9 {
        assert!(rt; pool.set(key, &object));
        plain.live[place] = (key, random);
    } else if kind < 13 {
        assert!(rt; pool.remove(key));
        plain.live.swap_remove(place);
        plain.gone.push(key)?;
    } else if !plain.gone.is_empty() {
        let key = plain.gone[(random >> 20) as usize % plain.gone.len()];
        expect_object(rt, pool, key, None)?;
        assert!(rt; !pool.set(key, &object));
        assert!(rt; !pool.remove(key));
    }
    same(rt, pool.len(), plain.live.len() as u64);
    Ok(())
}

/// Takes so many turns.
fn turns<R: Abort>(
    rt: &R,
    pool: &mut Pool<FlatSystem>,
    plain: &mut Plain,
    count: u64,
) -> Result<(), AllocError>
    requires { pool.old.size ≡ 21 }
    ensures { pool.new.size ≡ 21 }
{
    let mut random = 18;
    'turns: for _ in 0..count {
        random = next(random);
        turn(rt, pool, plain, random)?;
    }
    Ok(())
}

/// Sees that the pool has each object of a plain list.
fn all_are_there<R: Abort>(
    rt: &R,
    pool: &Pool<FlatSystem>,
    plain: &Plain,
) -> Result<(), AllocError> {
    for (key, number) in plain.live.iter() {
        expect_object(rt, pool, *key, Some(&told(*number)))?;
    }
    Ok(())
}

/// Sees that the keys of the pool are those of a plain list, by index.
fn keys_are_those<R: Abort>(rt: &R, pool: &Pool<FlatSystem>, plain: &Plain) {
    let mut count = 0usize;
    let mut least = 0u32;
    for key in pool.keys() {
        assert!(rt; least <= key.index);
        assert!(rt; plain.live.iter().any(|(live, _)| *live == key));
        least = key.index.saturating_add(1);
        count = count.saturating_add(1);
    }
    same(rt, count, plain.live.len());
}

#[test]
fn objects_are_those_of_a_plain_list(rt: HostRuntime) -> Result<(), Fail> {
    let mut pool = pool_of(rt.alloc(), 1 << 20, 65536, ODD as u64)?;
    let mut plain = Plain {
        live: Vec::new(rt.alloc()),
        gone: Vec::new(rt.alloc()),
    };
    turns(&rt, &mut pool, &mut plain, 3000)?;
    all_are_there(&rt, &pool, &plain)?;
    keys_are_those(&rt, &pool, &plain);
    assert!(rt; pool.slabs() > 4);
    Ok(())
}

#[test]
fn faults_have_texts(rt: HostRuntime) -> Result<(), Fail> {
    let table = [
        (PoolFault::Full, "full"),
        (PoolFault::Heap(GrantFault::NoSpace), "no space"),
        (PoolFault::OutOfMemory, "out of memory"),
    ];
    for (fault, text) in table.iter() {
        same(&rt, format!(in rt.alloc(); "{fault}")?.as_str(), *text);
    }
    Ok(())
}

#[test]
fn refusals_of_its_heap_have_texts(rt: HostRuntime) -> Result<(), Fail> {
    let table = [
        (HeapError::BadAlign, "bad alignment"),
        (HeapError::NoBlock, "no block"),
        (HeapError::Refused(MallocError::TooLarge), "too large"),
        (
            HeapError::Refused(MallocError::System(GrantFault::NoSpace)),
            "no space",
        ),
    ];
    for (fault, text) in table.iter() {
        same(&rt, format!(in rt.alloc(); "{fault}")?.as_str(), *text);
    }
    Ok(())
}
