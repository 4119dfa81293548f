//! The calls of the machine and their answers, and, in `specs/`, what the machine that serves them means.
//!
//! The types have no behaviour: a call is data, and so is its answer. `specs/` says which answers a call may
//! have in a state, which state the answer leaves, and when a machine's memory and tables stand for a state.
#![tactic(auto)]

mod answer;
mod call;
mod config;
mod live;
mod region;

pub use answer::{Answer, AnswerList, Refusal, Reply, SlotList};
pub use call::{Call, CallList};
pub use config::Config;
pub use dlmalloc_chunks::{Extent, ExtentList, Kind};
pub use live::Live;
pub use paging_core::{AccessKind as Access, Rights};
pub use public_list::PublicList;
pub use region::{Region, RegionList};
pub use x86_flags::PageFaultErrorCode;

/// Bytes, as a list.
pub type Bytes = PublicList<u8>;
