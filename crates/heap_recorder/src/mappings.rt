// The regions of the user, as calls map and unmap them.
ghost use Rattle.std.specs.Prelude.{◌≡◌, map, slice_get};
ghost use Rattle.std.specs.BTreeMap.{get};
ghost use Rattle.std.specs.Ordering.{nat_cmp};
ghost use Rattle.heap_recorder.specs.Mappings.{is_mapped, is_mapped_from, ended, unmapped_if, closed_mapping};

use heap_history::{Mapping, MappingList};
use machine_model::{Call, Region, Reply};
use std::alloc::{AllocError, Global};
use std::collections::BTreeMap;
use std::marker::Model;

// Whether a region is still mapped.
fn is_mapped(mapping: Mapping) -> bool
    ensures { result ≡ is_mapped mapping }
{
    mapping.end == 0
}

// Whether a region is mapped from the address on.
fn begins_at(start: u64, mapping: Mapping) -> bool
    ensures { result ≡ is_mapped_from start mapping }
{
    is_mapped(mapping) && mapping.region.start == start
}

fn ended(call: u64, mapping: Mapping) -> Mapping
    ensures { result ≡ ended call mapping }
{
    Mapping {
        region: mapping.region,
        large: mapping.large,
        born: mapping.born,
        end: call,
    }
}

// A region that ends if it has just these pages.
fn unmapped_if(call: u64, start: u64, pages: u64, mapping: Mapping) -> Mapping
    ensures { result ≡ unmapped_if call start pages mapping }
{
    if begins_at(start, mapping) && mapping.region.pages == pages {
        ended(call, mapping)
    } else {
        mapping
    }
}

fn closed(calls: u64, mapping: Mapping) -> Mapping
    ensures { result ≡ closed_mapping calls mapping }
{
    if is_mapped(mapping) {
        ended(calls, mapping)
    } else {
        mapping
    }
}

// Where the last region is that was mapped from the address on.
fn place_of(places: &BTreeMap<u64, u64>, start: u64) -> Option<u64>
    ensures { result ≡ get nat_cmp places.now start }
{
    places.get(&start).copied()
}

fn mapping_at(mappings: &[Mapping], place: u64) -> Option<Mapping>
    ensures { result ≡ slice_get mappings.now place }
{
    mappings.get(place as usize).copied()
}

// A region that is still mapped ends with the run.
fn close(mappings: &mut Vec<Mapping>, calls: u64)
    ensures { mappings.new.items ≡ map (closed_mapping calls) mappings.old.items }
{
    for place in 0..mappings.len() {
        mappings[place] = closed(calls, mappings[place]);
    }
}

/// The regions of the user, in the order in which they were mapped.
#[derive(Drop)]
pub struct Mappings {
    mappings: Vec<Mapping>,
    // By the start of a region, the place among them of the last one that was mapped there.
    places: BTreeMap<u64, u64>,
}

impl Model for Mappings {
    ghost use Rattle.std.specs.Prelude.{List};
    ghost use Rattle.heap_history.specs.declared.history.Mapping.{Mapping};
    ghost use Rattle.heap_recorder.specs.Mappings.{ArePlacesByStart};

    ghost Value = { List Mapping };

    ghost view = { λ all. all.mappings.items };

    ghost invariant = { λ all. ArePlacesByStart all.mappings.items all.places };
}

impl Mappings {
    ghost use Rattle.std.specs.Prelude.{◌≡◌, [], OnOk, find, is_some};
    ghost use Rattle.heap_recorder.specs.Mappings.{is_mapped_from, with_mapping, with_mapping_ended, mappings_at_end};

    /// No region was mapped yet.
    pub fn new(alloc: Global) -> Mappings
        ensures { result ≡ [] }
    {
        Mappings {
            mappings: Vec::new(alloc),
            places: BTreeMap::new(alloc),
        }
    }

    // Whether a region is mapped from the address on.
    fn has(&self, start: u64) -> bool
        ensures { result ≡ is_some (find (is_mapped_from start) self.now) }
    {
        let Some(place) = place_of(&self.places, start) else {
            return false;
        };
        let Some(mapping) = mapping_at(&self.mappings, place) else {
            return false;
        };
        begins_at(start, mapping)
    }

    /// Notes that a call mapped a region, with this number of large pages.
    pub fn map(&mut self, call: u64, region: Region, large: u64) -> Result<(), AllocError>
        ensures { OnOk result (self.new ≡ with_mapping call region large self.old) }
    {
        if self.has(region.start) {
            return Ok(());
        }
        let place = self.mappings.len() as u64;
        self.places.insert(region.start, place)?;
        self.mappings.push(Mapping {
            region,
            large,
            born: call,
            end: 0,
        })?;
        Ok(())
    }

    /// Notes that a call unmapped the region with these pages.
    pub fn unmap(&mut self, call: u64, start: u64, pages: u64)
        ensures { self.new ≡ with_mapping_ended call start pages self.old }
    {
        let Some(place) = place_of(&self.places, start) else {
            return;
        };
        let Some(mapping) = mapping_at(&self.mappings, place) else {
            return;
        };
        self.mappings[place as usize] = unmapped_if(call, start, pages, mapping);
    }

    /// The regions of a run of `calls` calls.
    pub fn finish(self, calls: u64) -> MappingList
        ensures { result ≡ mappings_at_end calls self }
    {
        let Mappings { mut mappings, .. } = self;
        close(&mut mappings, calls);
        MappingList::from_vec(mappings)
    }
}
