use paging_core::Page;
use thiserror::Error;

/// Why a call on a range of pages is refused. It then changes nothing.
#[derive(Clone, Copy, PartialEq, Eq, Debug, Error)]
pub enum RangeFault {
    /// The range leaves its canonical half.
    #[error("the range leaves its canonical half")]
    NotCanonical,
    /// This page, the lowest of the range that is mapped, is in the way.
    #[error("a page of the range is mapped already")]
    IsMapped(Page),
    /// This page is the lowest of the range that is not mapped.
    #[error("a page of the range is not mapped")]
    NotMapped(Page),
    /// A frame is not below the limit.
    #[error("a frame is past the limit")]
    PastLimit,
    /// A frame is one of the tables' area, and users would reach it, or the kernel did not ask for such pages.
    #[error("a frame lies in the area of the tables")]
    InArea,
    /// This page, the lowest of the range that does, leads into the tables' area, and users would reach it.
    #[error("a page of the range leads into the area of the tables")]
    LeadsIntoArea(Page),
    /// This many frames of the area are wanting for the tables that the call makes.
    #[error("{wanting} frames are wanting for tables")]
    NoFrames { wanting: u64 },
}
