//! What the extents of a heap say of it, in numbers: how much is used and how much is free, how far the free bytes are
//! scattered, and which classes of free chunks there are. And the text of these numbers.
#![tactic(auto)]

mod classes;
mod counting;
mod sizes;
mod text;

pub use classes::{small_counts, tree_counts};
pub use counting::{Part, Tally, count_part, greatest_free, permille};
pub use sizes::BlockSizes;
pub use text::push_figures;

#[cfg(test)]
mod tests;
