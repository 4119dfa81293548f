//! The addresses of a heap over a run of many calls, as cells of a drawing: parts of an SVG document.
//!
//! A cell is a part of the addresses of a band, and a column of the run. It shows a state, and no mean: the one after the
//! last call that lies in its column. A block that lives for less than a column may be in no cell. Over the cells in which
//! the heap has a byte are those of the live blocks, in four shades, by how much of their bytes is in blocks, rounded up.
//! Neighbours in a row that have one shade are one line, a bar.
#![tactic(auto)]

mod bars;
mod cells;
mod laws;
mod paths;
mod rows;
mod scale;
mod shades;
mod spans;
mod sums;
#[cfg(test)]
mod tests;

pub use cells::push_cells;
pub use laws::{bars_are_cells, rows_are_the_band, shades_are_shares};
