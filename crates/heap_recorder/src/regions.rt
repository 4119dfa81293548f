// The regions of the heap, as calls change them.
ghost use Rattle.std.specs.Prelude.{◌≡◌, ◌≤◌, ◌<◌, ◌+◌, ◌*◌, ◌%◌, ◌^◌, ◌++◌, drop, length, map, OnOk, IfOk};
ghost use Rattle.machine_model.specs.State.{total_pages};
ghost use Rattle.heap_recorder.specs.Regions.{has_same_pages, new_held, ended, held_from, regions_from, going, now_after, stays_on, gone_after};

use heap_history::{Held, HeldList};
use machine_model::Region;
use std::alloc::{AllocError, Global};
use std::marker::Model;

// Whether the heap has just these pages.
fn is_same(held: Held, region: Region) -> bool
    ensures { result ≡ has_same_pages held region }
{
    held.start == region.start && held.pages == region.pages
}

fn new_held(call: u64, region: Region) -> Held
    ensures { result ≡ new_held call region }
{
    Held {
        start: region.start,
        pages: region.pages,
        born: call,
        end: 0,
    }
}

fn ended(call: u64, held: Held) -> Held
    ensures { result ≡ ended call held }
{
    Held {
        start: held.start,
        pages: held.pages,
        born: held.born,
        end: call,
    }
}

// The first place, from one on, of a region that does not begin before the address.
fn held_place(all: &[Held], first: usize, start: u64) -> usize
    requires { first ≤ length all.now }
    ensures rest { drop result all.now ≡ held_from start (drop first all.now) }
    ensures within { result ≤ length all.now }
{
    for place in first..all.len() {
        if all[place].start >= start {
            return place;
        }
    }
    all.len()
}

fn region_place(all: &[Region], first: usize, start: u64) -> usize
    requires { first ≤ length all.now }
    ensures rest { drop result all.now ≡ regions_from start (drop first all.now) }
    ensures within { result ≤ length all.now }
{
    for place in first..all.len() {
        if all[place].start >= start {
            return place;
        }
    }
    all.len()
}

// The region, which goes on if it is the one at the place, and else begins.
fn going(call: u64, region: Region, all: &[Held], place: usize) -> Held
    ensures { result ≡ going call region (drop place all.now) }
{
    if place < all.len() && is_same(all[place], region) {
        all[place]
    } else {
        new_held(call, region)
    }
}

// Whether the region at the place is this one.
fn stays_on(held: Held, list: &[Region], place: usize) -> bool
    ensures { result ≡ stays_on held (drop place list.now) }
{
    place < list.len() && is_same(held, list[place])
}

// The regions after a call that lists them.
fn now_after(
    alloc: Global,
    call: u64,
    now: &[Held],
    list: &[Region],
) -> Result<Vec<Held>, AllocError>
    ensures { IfOk result (λ after. after.items ≡ now_after call now.now list.now) }
{
    let mut after = Vec::new(alloc);
    let mut place = 0;
    for region in list {
        place = held_place(now, place, region.start);
        after.push(going(call, *region, now, place))?;
    }
    Ok(after)
}

// Puts the regions that end at that call at the end.
fn push_gone(
    gone: &mut Vec<Held>,
    call: u64,
    now: &[Held],
    list: &[Region],
) -> Result<(), AllocError>
    ensures { OnOk result (gone.new.items ≡ gone.old.items ++ gone_after call now.now list.now) }
{
    let mut place = 0;
    for held in now {
        place = region_place(list, place, held.start);
        if !stays_on(*held, list, place) {
            gone.push(ended(call, *held))?;
        }
    }
    Ok(())
}

// The regions that the heap has at the end of a run of `calls` calls.
fn end_all(gone: &mut Vec<Held>, now: &[Held], calls: u64) -> Result<(), AllocError>
    ensures { OnOk result (gone.new.items ≡ gone.old.items ++ map (ended calls) now.now) }
{
    for held in now {
        gone.push(ended(calls, *held))?;
    }
    Ok(())
}

fn total_pages(regions: &[Region]) -> u128
    ensures { result ≡ total_pages regions.now }
{
    let mut pages = 0;
    for region in regions {
        pages += u128::from(region.pages);
    }
    pages
}

/// The bytes of all regions, modulo 2^128.
pub fn bytes_of(regions: &[Region]) -> u128
    ensures { result ≡ 4096 * total_pages regions.now % 2 ^ 128 }
{
    total_pages(regions).wrapping_mul(4096)
}

/// The regions that the heap has, and those that it had.
#[derive(Drop)]
pub struct Regions {
    now: Vec<Held>,
    gone: Vec<Held>,
}

impl Model for Regions {
    ghost use Rattle.heap_recorder.specs.Regions.{RegionNotes};

    ghost Value = { RegionNotes };

    ghost view = { λ all. record { now = all.now.items; gone = all.gone.items } };
}

impl Regions {
    ghost use Rattle.std.specs.Prelude.{◌≡◌, [], OnOk, IfOk};
    ghost use Rattle.heap_recorder.specs.Regions.{regions_noted, regions_at_end};

    /// The heap had no region yet.
    pub fn new(alloc: Global) -> Regions
        ensures { result ≡ record { now = []; gone = [] } }
    {
        Regions {
            now: Vec::new(alloc),
            gone: Vec::new(alloc),
        }
    }

    /// Notes the regions that the heap has after a call.
    pub fn note(&mut self, alloc: Global, call: u64, list: &[Region]) -> Result<(), AllocError>
        ensures { OnOk result (self.new ≡ regions_noted call list.now self.old) }
    {
        push_gone(&mut self.gone, call, &self.now, list)?;
        self.now = now_after(alloc, call, &self.now, list)?;
        Ok(())
    }

    /// The regions of a run of `calls` calls.
    pub fn finish(self, calls: u64) -> Result<HeldList, AllocError>
        ensures { IfOk result (λ list. list ≡ regions_at_end calls self) }
    {
        let Regions { now, mut gone } = self;
        end_all(&mut gone, &now, calls)?;
        Ok(HeldList::from_vec(gone))
    }
}
