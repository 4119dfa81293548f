use thiserror::Error;

/// Why no region of the user is mapped. The causes are asked for in this order, and a refused call changes nothing.
#[derive(Clone, Copy, PartialEq, Eq, Debug, Drop, Error)]
pub enum MapFault {
    /// There are no pages, the first is off a page, or they do not all lie in one canonical half.
    #[error("the range has no pages, is off a page, or leaves its canonical half")]
    BadRange,
    /// The pages meet a region of the heap.
    #[error("the pages meet a region of the heap")]
    HeapRegion,
    /// The pages meet a region of the user.
    #[error("the pages meet a region of the user")]
    Overlap,
    /// There are fewer free frames than the pages and the missing tables need.
    #[error("there are too few free frames")]
    NoFrames,
    /// The host had too little memory.
    #[error("out of memory")]
    OutOfMemory,
}

/// Why no region of the user is unmapped. The causes are asked for in this order, and a refused call changes nothing.
#[derive(Clone, Copy, PartialEq, Eq, Debug, Drop, Error)]
pub enum UnmapFault {
    /// There are no pages, the first is off a page, or they do not all lie in one canonical half.
    #[error("the range has no pages, is off a page, or leaves its canonical half")]
    BadRange,
    /// The pages meet a region of the heap.
    #[error("the pages meet a region of the heap")]
    HeapRegion,
    /// No region of the user has just these pages.
    #[error("no region of the user has just these pages")]
    UnknownRegion,
}
