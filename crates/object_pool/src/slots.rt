// The slots of a pool: which have an object, and which may be used again.
ghost use Rattle.std.specs.Prelude.{◌≡◌, ◌+◌, ◌-◌, ◌^◌, ◌<◌, ◌≤◌, ◌↔◌, [], length, vec_capacity, IsTrue, OnOk};
ghost use Rattle.object_pool.specs.Slots.{AreFreed, AreYoung, IsKeyLive, IsNextSlot, IsReleased, IsTaken, keys_from, used_count};

use crate::key::Key;
use crate::keys::Keys;
use std::alloc::{AllocError, Global};

/// The generation at which a slot is not used again.
const LAST_GENERATION: u32 = u32::MAX;

/// A slot: how many objects were removed from it, and whether one is in it.
#[derive(Clone, Copy, Drop)]
pub(crate) struct Slot {
    pub(crate) generation: u32,
    pub(crate) used: bool,
}

/// The slots that were used once, and those of them that may be used again. Each of these has a place in the list, so that
/// no removal takes memory.
#[derive(Drop)]
pub(crate) struct Slots {
    slots: Vec<Slot>,
    /// The one freed last is at the end.
    freed: Vec<u32>,
    /// How many have an object.
    used: u64,
    ghost freed_are: { AreFreed slots.items freed.items },
    ghost young: { AreYoung slots.items },
    ghost used_is: { used ≡ used_count slots.items },
    ghost others: { used + length freed.items ≤ length slots.items },
    ghost few: { length slots.items ≤ 2 ^ 32 - 64 },
    ghost room: { length slots.items ≤ vec_capacity freed },
}

impl Slots {
    ghost use Rattle.object_pool.specs.Places.{HasPlacesFor, KeepsPlaces, KeepsSlots};

    /// No slots.
    pub(crate) fn new(alloc: Global) -> Slots
        ensures slots { result.slots.items ≡ [] }
        ensures freed { result.freed.items ≡ [] }
    {
        Slots {
            slots: Vec::new(alloc),
            freed: Vec::new(alloc),
            used: 0,
        }
    }

    /// How many slots were used once.
    pub(crate) fn len(&self) -> u64
        ensures { result ≡ length self.now.slots.items }
    {
        self.slots.len() as u64
    }

    /// How many slots have an object.
    pub(crate) fn used(&self) -> u64
        ensures { result ≡ used_count self.now.slots.items }
    {
        self.used
    }

    /// The keys of the objects.
    pub(crate) fn keys(&self) -> Keys<'_>
        ensures { result ≡ keys_from 0 self.now.slots.items }
    {
        Keys::new(self.slots.as_slice())
    }

    /// Whether a key's object is in its slot.
    pub(crate) fn has(&self, key: Key) -> bool
        ensures { IsTrue result ↔ IsKeyLive self.now.slots.items key }
    {
        match self.slots.get(key.index as usize) {
            Some(slot) => slot.used && slot.generation == key.generation,
            None => false,
        }
    }

    /// Whether no slot may be used again.
    pub(crate) fn none_freed(&self) -> bool
        ensures { IsTrue result ↔ (self.now.freed.items ≡ []) }
    {
        self.freed.is_empty()
    }

    /// Reserves places for more slots. It changes no slot.
    pub(crate) fn reserve(&mut self, count: u64) -> Result<(), AllocError>
        ensures kept { KeepsSlots self.old self.new }
        ensures room { OnOk result (HasPlacesFor count self.old self.new) }
    {
        self.slots.reserve(count as usize)?;
        let places = self.slots.len() - self.freed.len() + count as usize;
        self.freed.reserve(places)
    }

    /// Uses the slot that was freed last, or else a new one, which has a place.
    pub(crate) fn take(&mut self) -> Key
        requires { self.old.freed.items ≡ [] → (length self.old.slots.items < 2 ^ 32 - 64) × (length self.old.slots.items < vec_capacity self.old.slots) × (length self.old.slots.items < vec_capacity self.old.freed) }
        ensures next { IsNextSlot self.old.slots.items self.old.freed.items result.index self.new.slots.items self.new.freed.items }
        ensures taken { IsTaken self.old.slots.items result self.new.slots.items }
        ensures places { KeepsPlaces self.old self.new }
    {
        match self.freed.pop() {
            Some(index) => {
                let generation = self.slots[index as usize].generation;
                self.slots[index as usize] = Slot {
                    generation,
                    used: true,
                };
                self.used += 1;
                Key { index, generation }
            }
            None => {
                let index = self.slots.len() as u32;
                self.slots.push_reserved(Slot {
                    generation: 0,
                    used: true,
                });
                self.used += 1;
                Key {
                    index,
                    generation: 0,
                }
            }
        }
    }

    /// Frees the slot of a key's object.
    pub(crate) fn release(&mut self, key: Key)
        requires { IsKeyLive self.old.slots.items key }
        ensures released { IsReleased self.old.slots.items self.old.freed.items key self.new.slots.items self.new.freed.items }
        ensures places { KeepsPlaces self.old self.new }
    {
        let generation = key.generation + 1;
        self.slots[key.index as usize] = Slot {
            generation,
            used: false,
        };
        self.used -= 1;
        if generation != LAST_GENERATION {
            self.freed.push_reserved(key.index);
        }
    }
}
