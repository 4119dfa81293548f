//! Measures the pool: for each number of the command line, so many objects, of 24 bytes each and then of 4,096.
//!
//! Standard output says what the calls found, standard error what processor time each took.
#![tactic(auto)]

ghost use Rattle.std.specs.Prelude.{◌≡◌, ◌<◌, ◌≤◌, length, IfOk};

use heap_memory::{FlatStep, FlatSystem};
use measuring::{Watch, numbers};
use object_pool::{Key, Pool};
use sound_heap::Heap;
use std::alloc::{AllocError, Global};
use std::io;

/// How many calls a loop makes at least that runs beside all objects.
const ROUNDS: u32 = 10_000;

/// A pool for objects of a size, over a system that has room for so many of them, and for 1 MiB more.
fn pool_for(alloc: Global, objects: u32, size: u64) -> Result<Pool<FlatSystem>, AllocError>
    requires some { 0 < size }
    requires small { size ≤ 4096 }
    ensures { IfOk result (λ pool. pool.size ≡ size) }
{
    let slabs = u64::from(objects / 64) + 1;
    let mut script = Vec::new(alloc);
    script.push(FlatStep::Give {
        base: 0x40_0000,
        size: slabs.saturating_mul(64 * size + 64).saturating_add(1 << 20),
        flags: 0,
    })?;
    let system = FlatSystem::new(alloc, script, true, true, 4096)?;
    Ok(Pool::new(alloc, Heap::new(system), size))
}

/// A number that is scattered over 2^32, each at its own.
fn scattered(number: u32) -> usize {
    number.wrapping_mul(2_654_435_761) as usize
}

/// Inserts so many objects, and answers their keys.
fn fill(
    alloc: Global,
    pool: &mut Pool<FlatSystem>,
    count: u32,
    object: &[u8],
) -> Result<Vec<Key>, AllocError>
    requires { length object.now ≡ pool.old.size }
    ensures { pool.new.size ≡ pool.old.size }
{
    let mut keys = Vec::with_capacity(alloc, count as usize)?;
    for _ in 0..count {
        if let Ok(key) = pool.insert(object) {
            keys.push(key)?;
        }
    }
    Ok(keys)
}

/// How many of the objects are found that are asked for.
fn get(pool: &Pool<FlatSystem>, keys: &[Key], rounds: u32) -> Result<u32, AllocError> {
    let mut found = 0u32;
    for round in 0..rounds {
        if let Some(key) = keys.get(scattered(round) % keys.len().max(1)) {
            if pool.get(*key)?.is_some() {
                found = found.saturating_add(1);
            }
        }
    }
    Ok(found)
}

/// How many objects get other bytes.
fn set(pool: &mut Pool<FlatSystem>, keys: &[Key], object: &[u8], rounds: u32) -> u32
    requires { length object.now ≡ pool.old.size }
    ensures { pool.new.size ≡ pool.old.size }
{
    let mut set = 0u32;
    for round in 0..rounds {
        if let Some(key) = keys.get(scattered(round) % keys.len().max(1)) {
            if pool.set(*key, object) {
                set = set.saturating_add(1);
            }
        }
    }
    set
}

/// Removes an object, and inserts one in its place. Answers the key of that.
fn exchange(pool: &mut Pool<FlatSystem>, key: Key, object: &[u8]) -> Option<Key>
    requires { length object.now ≡ pool.old.size }
    ensures { pool.new.size ≡ pool.old.size }
{
    if !pool.remove(key) {
        return None;
    }
    match pool.insert(object) {
        Ok(key) => Some(key),
        Err(_) => None,
    }
}

/// How many objects another one takes the place of.
fn exchange_all(pool: &mut Pool<FlatSystem>, keys: &mut [Key], object: &[u8], rounds: u32) -> u32
    requires { length object.now ≡ pool.old.size }
    ensures { pool.new.size ≡ pool.old.size }
{
    let mut exchanged = 0u32;
    for round in 0..rounds {
        let place = scattered(round) % keys.len().max(1);
        if place < keys.len() {
            if let Some(key) = exchange(pool, keys[place], object) {
                keys[place] = key;
                exchanged = exchanged.saturating_add(1);
            }
        }
    }
    exchanged
}

/// How many keys the pool has.
fn walk(pool: &Pool<FlatSystem>) -> u32 {
    let mut count = 0u32;
    for _ in pool.keys() {
        count = count.saturating_add(1);
    }
    count
}

/// Removes the objects.
fn empty(pool: &mut Pool<FlatSystem>, keys: &[Key]) {
    for key in keys {
        pool.remove(*key);
    }
}

/// Measures so many objects of a size.
fn measure(rt: &HostRuntime, count: u32, size: u64) -> io::Result<()>
    requires some { 0 < size }
    requires small { size ≤ 4096 }
{
    let alloc = rt.alloc();
    let rounds = count.max(ROUNDS);
    let object = vec![in alloc; 7u8; size as usize]?;
    let mut pool = pool_for(alloc, count, size)?;
    let watch = Watch::start(rt)?;
    let mut keys = fill(alloc, &mut pool, count, &object)?;
    let insert = watch.mean(rt, count)?;
    let watch = Watch::start(rt)?;
    let found = get(&pool, &keys, rounds)?;
    let look = watch.mean(rt, rounds)?;
    let watch = Watch::start(rt)?;
    let set = set(&mut pool, &keys, &object, rounds);
    let put = watch.mean(rt, rounds)?;
    let watch = Watch::start(rt)?;
    let exchanged = exchange_all(&mut pool, &mut keys, &object, rounds);
    let exchange = watch.mean(rt, rounds)?;
    let watch = Watch::start(rt)?;
    let walked = walk(&pool);
    let step = watch.mean(rt, count)?;
    let watch = Watch::start(rt)?;
    empty(&mut pool, &keys);
    let remove = watch.mean(rt, count)?;
    let (left, slabs) = (pool.len(), pool.slabs());
    println!(rt;
        "{count} objects of {size} bytes: {found} found, {set} set, {exchanged} exchanged, {walked} keys, {left} left, {slabs} slabs"
    )?;
    eprintln!(rt;
        "{count} objects of {size} bytes: insert {insert:?}, get {look:?}, set {put:?}, remove and insert {exchange:?}, key {step:?}, remove {remove:?}"
    )
}

fn main(rt: HostRuntime) -> io::Result<()> {
    for count in numbers(&rt, rt.alloc())? {
        measure(&rt, count, 24)?;
        measure(&rt, count, 4096)?;
    }
    Ok(())
}
