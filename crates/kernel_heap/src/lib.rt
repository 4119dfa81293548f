//! A machine: a heap over a paged system, with its blocks by number and the registers of its processor, which serves calls.
#![tactic(auto)]

mod beside;
mod block_bytes;
mod configuration;
mod machine;
mod numbered_blocks;
mod numbered_heap;
mod probing;
mod run_error;
mod runs;
mod serving;
mod settings;
mod trimming;
mod user_calls;

pub use machine::Machine;
pub use machine_model::{
    Access, Answer, AnswerList, Bytes, Call, CallList, Config, Extent, ExtentList, Kind,
    PageFaultErrorCode, PublicList, Refusal, Region, RegionList, Reply, Rights, SlotList,
};
pub use mapped_regions::{MapFault, UnmapFault};
pub use paged_systems::{PagedSystem, TwinSystem};
pub use probing::{fault_code, is_granted};
pub use run_error::RunError;
pub use runs::{Run, run_calls};
