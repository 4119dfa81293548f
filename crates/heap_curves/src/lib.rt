//! What stands below the blocks in the drawing of a heap over a run, as parts of an SVG document: lanes for the user's
//! regions, curves of bytes, the calls that were refused, and the axis of calls.
//!
//! The document gives the styles: of texts `m` (letters of one width), `q` (a heading), `e` (its place is its end), `c` (its
//! place is its middle), `faint` and `in` (on a region); of shapes `line`, `panel`, `u` (live bytes), `heap`, `w` (a region of
//! the user), `l` (large pages) and `no` (a refusal); and of lines without filling `su` (live bytes), `wire` (the heap) and
//! `mark` (the peak).
#![tactic(auto)]

mod addresses;
mod calls;
mod columns;
mod curves;
mod ends;
mod lanes;
mod laws;
mod paths;
mod refused;
mod upright;

pub use calls::{calls_height, push_calls};
pub use curves::{curves_height, push_curves};
pub use lanes::{lanes_height, push_lanes};
pub use laws::columns_meet_the_most;
pub use refused::{push_refused, refused_height};
