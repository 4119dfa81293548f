use thiserror::Error;

/// Why a page is not mapped.
#[derive(Clone, Copy, PartialEq, Eq, Debug, Error)]
pub enum MapFault {
    /// It is mapped already.
    #[error("the page is mapped already")]
    IsMapped,
    /// It is a large page, and its slot has a table of single pages.
    #[error("the large page's slot has a table")]
    HasTable,
    /// Its frame is not below the limit.
    #[error("the frame is past the limit")]
    PastLimit,
    /// Its frame is one of the tables' area, and users would reach it, or the kernel did not ask for such pages.
    #[error("the frame lies in the area of the tables")]
    InArea,
    /// The frames of the area that are free are too few for the tables that the page misses.
    #[error("no frames for {wanting} of the missing tables")]
    NoFrames {
        /// How many frames are wanting: for this many tables there is none.
        wanting: u64,
    },
}

/// Why the entry of a page is not changed.
#[derive(Clone, Copy, PartialEq, Eq, Debug, Error)]
pub enum EntryFault {
    /// The page is not mapped.
    #[error("the page is not mapped")]
    NotMapped,
    /// It leads into the tables' area, and users would reach it.
    #[error("the page leads into the area of the tables")]
    InArea,
    /// The page is part of a large one, and no frame of the area is free for the table that splits it.
    #[error("no frame for the table that splits the large page")]
    NoFrames,
}
