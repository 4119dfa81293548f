//! A pair of a tree, as a look-up lends it.
use crate::interval::Interval;

/// An interval of a tree, and its value.
#[derive(PartialEq, Eq, Debug, Drop)]
pub struct Entry<'a, T: Ord, V> {
    pub value: &'a V,
    pub interval: &'a Interval<T>,
}
