use paging_core::Rights;
use public_list::PublicList;

/// Consecutive pages that were granted to the heap, or mapped for the user, in one call.
#[derive(Clone, Copy, PartialEq, Eq, Debug)]
pub struct Region {
    /// The address of the first page.
    pub start: u64,
    /// The number of pages.
    pub pages: u64,
    /// Whether the pages were granted to the heap.
    pub heap: bool,
    /// What may be done with the pages, besides reading them.
    pub rights: Rights,
}

/// Regions, by ascending address.
pub type RegionList = PublicList<Region>;
