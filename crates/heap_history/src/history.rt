// What a run did to its heap.
use machine_model::{Bytes, Refusal, Region};
use public_list::PublicList;

/// How a stay ended.
#[derive(Clone, Copy, PartialEq, Eq, Debug)]
pub enum Ending {
    /// It did not: the block is live at the end.
    Live,
    /// The block was freed.
    Freed,
    /// All blocks ended.
    Reset,
    /// The block was given another size at another place.
    Moved,
    /// The block was given another size at its place.
    Resized,
}

/// A block at one place and with one size, from the call `born` on to the last call before `end`.
#[derive(Clone, Copy, PartialEq, Eq, Debug)]
pub struct Stay {
    /// The number of the block.
    pub block: u64,
    /// Its address.
    pub address: u64,
    /// Its size, in bytes.
    pub size: u64,
    /// The call that gave the block, moved it or changed its size.
    pub born: u64,
    /// The call that ended the stay. If none did, the number of calls.
    pub end: u64,
    /// How the stay ended.
    pub ending: Ending,
}

/// The stays of a run, in the order in which they began.
pub type StayList = PublicList<Stay>;

/// Pages that the heap had, from the call `born` on to the last call before `end`.
#[derive(Clone, Copy, PartialEq, Eq, Debug)]
pub struct Held {
    /// The address of the first page.
    pub start: u64,
    /// The number of pages.
    pub pages: u64,
    /// The call after which the heap had the pages.
    pub born: u64,
    /// The call after which it had them no longer. If there is none, the number of calls.
    pub end: u64,
}

/// The heap's regions over a run.
pub type HeldList = PublicList<Held>;

/// A region of the user, from the call `born` on that mapped it to the last call before `end`.
#[derive(Clone, Copy, PartialEq, Eq, Debug)]
pub struct Mapping {
    pub region: Region,
    /// How many slots of 2 MiB its call mapped by one entry each.
    pub large: u64,
    /// The call that mapped it.
    pub born: u64,
    /// The call that unmapped it. If none did, the number of calls.
    pub end: u64,
}

/// The user's regions over a run, in the order in which they were mapped.
pub type MappingList = PublicList<Mapping>;

/// A slot of 2 MiB of the heap, from the call on that mapped it by one entry.
#[derive(Clone, Copy, PartialEq, Eq, Debug)]
pub struct LargePage {
    /// The first address of the slot.
    pub slot: u64,
    /// The call.
    pub born: u64,
}

/// Slots, in the order in which they were made large.
pub type LargePageList = PublicList<LargePage>;

/// What is so after a call.
#[derive(Clone, Copy, PartialEq, Eq, Debug)]
pub struct Moment {
    /// The sum of the sizes of the live blocks, in bytes.
    pub live: u128,
    /// The bytes of the heap's regions.
    pub heap: u128,
}

/// A moment for each call.
pub type MomentList = PublicList<Moment>;

/// A call that was refused.
#[derive(Clone, Copy, PartialEq, Eq, Debug)]
pub struct RefusedCall {
    pub call: u64,
    pub cause: Refusal,
}

/// Refused calls, by ascending number.
pub type RefusedList = PublicList<RefusedCall>;

/// The letters of lines, without their line feeds.
pub type LineList = PublicList<Bytes>;

/// What a run did to its heap.
#[derive(Drop)]
pub struct History {
    pub stays: StayList,
    /// The regions of the heap.
    pub heap: HeldList,
    /// The regions of the user.
    pub users: MappingList,
    /// The heap's large pages, of which the first 200 are noted.
    pub large: LargePageList,
    /// One for each call.
    pub moments: MomentList,
    pub refused: RefusedList,
    /// The lines that ask for the calls, if there are at most 64 calls, and else none.
    pub lines: LineList,
}
