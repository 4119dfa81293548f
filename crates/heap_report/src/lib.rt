//! A recorded run of a heap, replayed, and what can be told of it then: how many bytes were live, and what the extents of
//! its last state say.
//!
//! `report_main` is the command: it takes calls as lines, as `heap run` does, and writes its report at the end of the
//! input. Its text is one of the last state, of the bytes that are live in it and were at most, and of its extents;
//! `tell_main` writes any text of the machine, the calls and their answers (`Tell`).
#![tactic(auto)]

mod laws;
mod listed;
mod noted;
mod replay;
mod report;
mod reported;
mod tell;

pub use laws::each_moment_is_of_its_state;
pub use listed::Listed;
pub use noted::Noted;
pub use replay::Replay;
pub use report::{Figures, report_main};
pub use reported::Reported;
pub use tell::{Tell, tell_main};
