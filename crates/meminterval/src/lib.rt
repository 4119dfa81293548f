//! A balanced tree of intervals that means a finite map from intervals to values.
#![tactic(auto)]

mod deletion;
mod descent;
mod entry;
mod insertion;
mod interval;
mod iterators;
mod iterators_mut;
mod node;
mod replacing;
mod rotation;
mod shortening;
mod tree;

pub use entry::Entry;
pub use interval::Interval;
pub use iterators::IntervalTreeIterator;
pub use iterators_mut::IntervalTreeIteratorMut;
pub use tree::IntervalTree;
