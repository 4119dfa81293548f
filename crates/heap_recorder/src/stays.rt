// The stays of blocks, as calls are answered.
ghost use Rattle.std.specs.Prelude.{◌≡◌, ◌≤◌, ◌<◌, ℕ, false, length, map, slice_get};
ghost use Rattle.heap_history.specs.declared.history.Stay.{Stay};
ghost use Rattle.heap_recorder.specs.Stays.{is_live, has_not_ended, is_stay_of, is_stay_at, why, new_stay, ended, ended_of, ended_now, closed_stay};

use heap_history::{Ending, Stay, StayList};
use machine_model::{Call, Reply};
use std::alloc::{AllocError, Global};
use std::marker::Model;

// Whether a stay goes on.
fn is_live(ending: Ending) -> bool
    ensures { result ≡ is_live ending }
{
    match ending {
        Ending::Live => true,
        _ => false,
    }
}

// Whether a stay goes on and is the block's.
fn is_of(number: u64, stay: Stay) -> bool
    ensures { result ≡ is_stay_of number stay }
{
    is_live(stay.ending) && stay.block == number
}

// Whether a stay is at the address and has the size.
fn is_at(address: u64, size: u64, stay: Stay) -> bool
    ensures { result ≡ is_stay_at address size stay }
{
    stay.address == address && stay.size == size
}

// Why a stay ends if the block has another place or size.
fn why(address: u64, stay: Stay) -> Ending
    ensures { result ≡ why address stay }
{
    if stay.address == address {
        Ending::Resized
    } else {
        Ending::Moved
    }
}

fn new_stay(call: u64, number: u64, address: u64, size: u64) -> Stay
    ensures { result ≡ new_stay call number address size }
{
    Stay {
        block: number,
        address,
        size,
        born: call,
        end: 0,
        ending: Ending::Live,
    }
}

fn ended(call: u64, ending: Ending, stay: Stay) -> Stay
    ensures { result ≡ ended call ending stay }
{
    Stay {
        block: stay.block,
        address: stay.address,
        size: stay.size,
        born: stay.born,
        end: call,
        ending,
    }
}

// The stay, which ends if it is the block's.
fn ended_of(number: u64, call: u64, ending: Ending, stay: Stay) -> Stay
    ensures { result ≡ ended_of number call ending stay }
{
    if is_of(number, stay) {
        ended(call, ending, stay)
    } else {
        stay
    }
}

fn ended_now(call: u64, stay: Stay) -> Stay
    ensures { result ≡ ended_now call stay }
{
    if is_live(stay.ending) {
        ended(call, Ending::Reset, stay)
    } else {
        stay
    }
}

fn closed(calls: u64, stay: Stay) -> Stay
    ensures { result ≡ closed_stay calls stay }
{
    if is_live(stay.ending) {
        ended(calls, Ending::Live, stay)
    } else {
        stay
    }
}

// Where the last stay of the block is, if it began.
fn place_of(places: &[u64], number: u64) -> Option<usize>
    ensures { result ≡ slice_get places.now number }
{
    match places.get(number as usize) {
        Some(place) => Some(*place as usize),
        None => None,
    }
}

fn stay_at(stays: &[Stay], place: usize) -> Option<Stay>
    ensures { result ≡ slice_get stays.now place }
{
    stays.get(place).copied()
}

// Ends each stay that goes on. None does before the place.
fn end_from(stays: &mut Vec<Stay>, first: u64, call: u64)
    requires within { first ≤ length stays.old.items }
    requires over { (k : ℕ) (stay : Stay) → slice_get stays.old.items k ≡ Some stay → k < first → has_not_ended stay ≡ false }
    ensures { stays.new.items ≡ map (ended_now call) stays.old.items }
{
    for place in first as usize..stays.len() {
        stays[place] = ended_now(call, stays[place]);
    }
}

// A stay that no call ended ends with the run.
fn close(stays: &mut Vec<Stay>, calls: u64)
    ensures { stays.new.items ≡ map (closed_stay calls) stays.old.items }
{
    for place in 0..stays.len() {
        stays[place] = closed(calls, stays[place]);
    }
}

/// The stays of blocks, in the order in which they began.
#[derive(Drop)]
pub struct Stays {
    stays: Vec<Stay>,
    // By number, the place among the stays of the last one of a block.
    places: Vec<u64>,
    // None before this place goes on.
    first: u64,
}

impl Model for Stays {
    ghost use Rattle.std.specs.Prelude.{length};
    ghost use Rattle.heap_recorder.specs.Stays.{StayNotes};
    ghost use Rattle.heap_recorder.specs.Places.{ArePlaces};

    ghost Value = { StayNotes };

    ghost view = { λ all. record { begun = length all.places.items; stays = all.stays.items } };

    ghost invariant = { λ all. ArePlaces all.stays.items all.places.items all.first };
}

impl Stays {
    ghost use Rattle.std.specs.Prelude.{◌≡◌, [], OnOk};
    ghost use Rattle.heap_recorder.specs.Stays.{begun, with_block_freed, all_stays_ended, resized, stays_after, stays_at_end};

    /// No block began yet.
    pub fn new(alloc: Global) -> Stays
        ensures { result ≡ record { begun = 0; stays = [] } }
    {
        Stays {
            stays: Vec::new(alloc),
            places: Vec::new(alloc),
            first: 0,
        }
    }

    fn begin(&mut self, call: u64, address: u64, size: u64) -> Result<(), AllocError>
        ensures { OnOk result (self.new ≡ begun call address size self.old) }
    {
        let number = self.places.len() as u64;
        let place = self.stays.len() as u64;
        self.places.push(place)?;
        self.stays.push(new_stay(call, number, address, size))?;
        Ok(())
    }

    fn resize(&mut self, call: u64, number: u64, address: u64, size: u64) -> Result<(), AllocError>
        ensures { OnOk result (self.new ≡ resized call number address size self.old) }
    {
        let Some(place) = place_of(&self.places, number) else {
            return Ok(());
        };
        let Some(stay) = stay_at(&self.stays, place) else {
            return Ok(());
        };
        if !is_of(number, stay) {
            return Ok(());
        }
        if is_at(address, size, stay) {
            return Ok(());
        }
        let next = self.stays.len() as u64;
        self.stays.push(new_stay(call, number, address, size))?;
        self.stays[place] = ended(call, why(address, stay), stay);
        self.places[number as usize] = next;
        Ok(())
    }

    fn free(&mut self, call: u64, number: u64)
        ensures { self.new ≡ with_block_freed call number self.old }
    {
        let Some(place) = place_of(&self.places, number) else {
            return;
        };
        let Some(stay) = stay_at(&self.stays, place) else {
            return;
        };
        self.stays[place] = ended_of(number, call, Ending::Freed, stay);
    }

    fn end_all(&mut self, call: u64)
        ensures { self.new ≡ all_stays_ended call self.old }
    {
        end_from(&mut self.stays, self.first, call);
        self.first = self.stays.len() as u64;
    }

    /// Notes the answer to a call, whose number comes first.
    pub fn note(&mut self, call: u64, made: &Call, reply: &Reply) -> Result<(), AllocError>
        ensures { OnOk result (self.new ≡ stays_after call made.now reply.now self.old) }
    {
        match (made, reply) {
            (Call::Malloc { size, .. } | Call::Calloc { size, .. }, Reply::Block { address, .. }) =>
                {
                    return self.begin(call, *address, *size);
                }
            (
                Call::Realloc { block, size } | Call::CRealloc { block, size },
                Reply::Block { address, .. },
            ) => {
                return self.resize(call, *block, *address, *size);
            }
            (Call::Free { block }, Reply::Done) => self.free(call, *block),
            (Call::Reset, Reply::Released(_)) => self.end_all(call),
            _ => {}
        }
        Ok(())
    }

    /// The stays of a run of `calls` calls.
    pub fn finish(self, calls: u64) -> StayList
        ensures { result ≡ stays_at_end calls self }
    {
        let Stays { mut stays, .. } = self;
        close(&mut stays, calls);
        StayList::from_vec(stays)
    }
}
