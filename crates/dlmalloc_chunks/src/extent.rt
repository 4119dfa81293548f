use public_list::PublicList;

/// What a run of the heap's memory is used for.
#[derive(Clone, Copy, PartialEq, Eq, Hash, Debug)]
pub enum Kind {
    /// A block that is in use.
    Used,
    /// A free chunk in a bin.
    Free,
    /// The free chunk that is cut first for small requests (dlmalloc: `dv`).
    Victim,
    /// The free chunk at the end of the head segment (dlmalloc: `top`).
    Top,
    /// The record of a segment that lost the top.
    Record,
    /// The foot of the top.
    Foot,
}

/// A run of the heap's memory.
#[derive(Clone, Copy, PartialEq, Eq, Hash, Debug)]
pub struct Extent {
    /// The address of its chunk.
    pub at: u64,
    /// The number of its bytes.
    pub size: u64,
    /// What it is used for.
    pub kind: Kind,
}

/// A list of extents.
pub type ExtentList = PublicList<Extent>;
