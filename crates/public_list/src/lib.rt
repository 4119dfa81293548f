//! A list inside a public value: contracts see it as the list of its items.
#![tactic(auto)]

ghost use Rattle.std.specs.Prelude.{◌≡◌, ◌++◌, ◌∷◌, [], List, length, slice_get, option_copied, IsTrue, OnOk, OnErr, ◌↔◌};

use std::alloc::{AllocError, Global};
use std::marker::Model;

/// A list of items that grows at its end. It keeps its allocator.
#[derive(Drop)]
pub struct PublicList<T> {
    items: Vec<T>,
}

impl<T> Model for PublicList<T> {
    ghost Value = { List T };

    ghost view = { λ list. list.items.items };
}

impl<T: Drop> PublicList<T> {
    /// An empty list, which takes no memory.
    pub fn new(alloc: Global) -> Self
        ensures { result ≡ [] }
    {
        PublicList {
            items: Vec::new(alloc),
        }
    }

    /// The list of a vector's items.
    pub fn from_vec(items: Vec<T>) -> Self
        ensures { result ≡ items.items }
    {
        PublicList { items }
    }

    /// Adds an item at the end. An `Err` leaves the list unchanged, and drops the item.
    pub fn push(&mut self, item: T) -> Result<(), AllocError>
        ensures ok { OnOk result (self.new ≡ self.old ++ item ∷ []) }
        ensures err { OnErr result (self.new ≡ self.old) }
    {
        self.items.push(item)?;
        Ok(())
    }

    /// The number of items.
    pub fn len(&self) -> u64
        ensures { result ≡ length self.now }
    {
        self.items.len() as u64
    }

    /// Whether there are no items.
    pub fn is_empty(&self) -> bool
        ensures { IsTrue result ↔ (self.now ≡ []) }
    {
        self.items.is_empty()
    }

    /// The item at an index, counted from 0. `None` exactly if the index is at least `len`.
    pub fn get(&self, index: u64) -> Option<&T>
        ensures { option_copied result ≡ slice_get self.now index }
    {
        self.items.get(index as usize)
    }

    /// The items as a slice.
    pub fn as_slice(&self) -> &[T]
        ensures { result.now ≡ self.now }
    {
        self.items.as_slice()
    }
}

#[cfg(test)]
mod tests {
    use super::*;
    use std::test::Fail;

    #[test]
    fn items_are_kept_in_order(rt: HostRuntime) -> Result<(), Fail> {
        let mut list = PublicList::new(rt.alloc());
        assert!(rt; list.is_empty());
        list.push(7u64)?;
        list.push(9)?;
        assert_eq!(rt; list.len(), 2);
        assert_eq!(rt; list.get(1), Some(&9));
        assert_eq!(rt; list.get(2), None);
        assert_eq!(rt; list.as_slice(), [7, 9].as_slice());
        Ok(())
    }
}
