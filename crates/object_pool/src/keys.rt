//! The keys of a pool.
ghost use Rattle.std.specs.Prelude.{◌≡◌, ◌+◌, ◌-◌, ◌^◌, ◌≤◌, length};
ghost use Rattle.std.specs.Iterator.{YieldsFirst, item_count};
ghost use Rattle.object_pool.specs.Slots.{keys_from};

use crate::key::Key;
use crate::slots::Slot;
use std::iter::FusedIterator;
use std::marker::Model;

/// The keys of the objects of a pool, by index, seen as the list of those that are left. A step looks once at each slot that it
/// passes: those without an object before the next one, and that one. None takes memory.
#[derive(Drop)]
pub struct Keys<'a> {
    slots: &'a [Slot],
    // The index of the first of `slots`.
    index: u32,
}

impl<'a> Model for Keys<'a> {
    ghost use Rattle.std.specs.Prelude.{List, ◌+◌, ◌-◌, ◌^◌, ◌≤◌, length};
    ghost use Rattle.object_pool.specs.declared.key.Key.{Key};

    ghost Value = { List Key };

    ghost use Rattle.object_pool.specs.Slots.{keys_from};

    ghost view = { λ keys. keys_from keys.index keys.slots.now };

    ghost invariant = { λ keys. keys.index + length keys.slots.now ≤ 2 ^ 32 - 64 };
}

impl<'a> Keys<'a> {
    /// The keys of the objects in slots.
    pub(crate) fn new(slots: &'a [Slot]) -> Keys<'a>
        requires { length slots.now ≤ 2 ^ 32 - 64 }
        ensures { result ≡ keys_from 0 slots.now }
    {
        Keys { slots, index: 0 }
    }
}

impl<'a> Iterator for Keys<'a> {
    type Item = Key;

    ghost next_gives = { YieldsFirst (λ rest. rest) };

    ghost remaining = { item_count (λ rest. rest) };

    fn next(&mut self) -> Option<Key> {
        while let Some((slot, rest)) = self.slots.split_first() {
            let index = self.index;
            self.slots = rest;
            self.index += 1;
            if slot.used {
                let generation = slot.generation;
                return Some(Key { index, generation });
            }
        }
        None
    }
}

impl<'a> FusedIterator for Keys<'a> {}
