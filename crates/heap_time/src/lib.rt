//! The drawing of a heap over a run, as parts of an SVG document.
//!
//! Calls go from left to right, and addresses upwards. A block is drawn from the call on that gave it to the call that
//! ended it, at its addresses. Great ranges of addresses in which nothing begins or ends in the whole run are folded;
//! what lies between is drawn to one scale, in bands. Runs with many blocks are drawn in cells; if there are few calls,
//! an arrow leads from each place that a block left to the next. Below are the user's regions, curves of the bytes that
//! were live, the refused calls, and the axis of calls.
#![tactic(auto)]

mod addresses;
mod axis;
mod bands;
mod blocks;
mod columns;
mod covers;
mod folding;
mod labels;
mod large;
mod laws;
mod legend;
mod moves;
mod shapes;
mod time;

pub use axis::bands_of;
pub use laws::bands_tile_the_axis;
pub use time::{push_time, time_height};
