//! Records what a run does to its heap, as its calls are answered: the [`heap_history::History`] of the run.
#![tactic(auto)]

mod laws;
mod lines;
mod mappings;
mod note;
mod recorder;
mod regions;
mod stays;

pub use laws::{each_block_is_drawn_once, each_region_is_drawn_once, lines_are_the_calls};
pub use note::note_answer;
pub use recorder::Recorder;
