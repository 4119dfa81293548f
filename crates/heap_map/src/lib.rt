//! The map of a heap, as parts of an SVG document.
//!
//! Each row has equally many bytes of addresses, as few as it takes for the map to have at most 20 lines; rows that lie wholly
//! in one extent are one thin line. A row has 512 cells: a cell is blue from the ground up as far as its bytes are in
//! blocks, and above that it has the colour of most of its other bytes. Each extent that has four cells or more to itself
//! has a gap before it, a title that a browser shows, and a label where one fits; a live block is called by its number. Around
//! the rows are the figures of the heap, what it consists of, and its free chunks by size.
#![tactic(auto)]

mod blocks;
mod cells;
mod classes;
mod composition;
mod histogram;
mod labels;
mod laws;
mod map;
mod marks;
mod pieces;
mod rows;
mod shapes;
mod tiles;
mod words;

pub use blocks::NamedBlock;
pub use laws::{cells_are_their_bytes, lines_are_the_heap};
pub use map::{lines_number, push_map};
pub use shapes::{Area, push_rect, push_text, push_titled};
pub use words::{push_about, push_address, push_commas, push_counted};
