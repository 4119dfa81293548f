use thiserror::Error;
use x86_flags::PageFaultErrorCode;

/// Why a space refuses a call, which then changes nothing.
#[derive(Clone, Copy, PartialEq, Eq, Debug, Error)]
pub enum SpaceFault {
    /// There are no pages, a place is off a page, or a range does not lie in one canonical half.
    #[error("the range has no pages, is off a page, or leaves its canonical half")]
    BadRange,
    /// A page of the target is mapped.
    #[error("a page of the target is mapped")]
    Overlap,
    /// A page of the range is not mapped: `at` is the address of the lowest one.
    #[error("the page at 0x{at:x} is not mapped")]
    Hole { at: u64 },
    /// The window has no place for the pages.
    #[error("the window has no place for the pages")]
    NoRoom,
    /// There are fewer free frames than the pages and the missing tables need.
    #[error("there are too few free frames")]
    NoFrames,
    /// The access is denied: `at` is the first byte at which it is, and `code` says why.
    #[error("the access at 0x{at:x} is denied")]
    Denied { at: u64, code: PageFaultErrorCode },
    /// The host has too little memory.
    #[error("out of memory")]
    OutOfMemory,
}
