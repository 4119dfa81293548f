use crate::{Bytes, RegionList};
use dlmalloc_chunks::ExtentList;
use public_list::PublicList;
use x86_flags::PageFaultErrorCode;

/// Why a call was refused. A refused call changes nothing.
#[derive(Clone, Copy, PartialEq, Eq, Debug)]
pub enum Refusal {
    /// The alignment is no power of two.
    BadAlign,
    /// The size is so great that no heap of this granularity serves it.
    TooLarge,
    /// No heap region has room for the request, and the window has no place for its pages.
    NoSpace,
    /// No heap region has room for the request, and there are too few free frames for its pages and their tables. For a
    /// map, there are too few for its pages and their tables.
    NoFrames,
    /// No live block has this number.
    UnknownBlock,
    /// The block is live, and the bytes reach past its end.
    OutOfBlock,
    /// There are no pages, the first starts off a page, or not all of them are canonical.
    BadRange,
    /// The pages meet a region of the heap.
    HeapRegion,
    /// The pages meet a region of the user.
    Overlap,
    /// No region of the user has just these pages.
    UnknownRegion,
    /// The address is not canonical.
    NotCanonical,
}

/// What a call answers.
#[derive(Drop)]
pub enum Reply {
    /// The block of this number lies at this address. Blocks are numbered from 0 in the order given.
    Block { number: u64, address: u64 },
    /// The call was served.
    Done,
    /// The bytes that were asked for.
    Bytes(Bytes),
    /// The byte at the address, to which the access is granted.
    Byte(u8),
    /// The access is a page fault with this code.
    Fault(PageFaultErrorCode),
    /// Whether a trim gave memory back.
    Trimmed(bool),
    /// Whether the granularity was accepted.
    Accepted(bool),
    /// A reset gave back this many bytes.
    Released(u64),
    /// The extents of the heap, by ascending address.
    Extents(ExtentList),
    /// The call was refused, and changed nothing.
    Refused(Refusal),
}

/// The first addresses of slots: 2 MiB in a row that one entry maps, as a large page.
pub type SlotList = PublicList<u64>;

/// A reply, the heap regions after the call if the call changed them, and the slots that the call mapped by one entry
/// each, by ascending address, if there are any.
#[derive(Drop)]
pub struct Answer {
    pub reply: Reply,
    pub regions: Option<RegionList>,
    pub large: Option<SlotList>,
}

/// The answers to calls, one for each call, in their order.
pub type AnswerList = PublicList<Answer>;
