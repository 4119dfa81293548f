//! What a run did to its heap: which block lay where, from which call to which, and likewise the regions; and after each
//! call the bytes that were live and the bytes of the heap. Calls count from 0. What is said of a call is said of the state
//! after it.
#![tactic(auto)]

mod band;
mod columns;
mod history;

pub use band::Band;
pub use columns::x_of;
pub use history::{
    Ending, Held, HeldList, History, LargePage, LargePageList, LineList, Mapping, MappingList,
    Moment, MomentList, RefusedCall, RefusedList, Stay, StayList,
};
