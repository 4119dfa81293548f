use paging_core::Rights;
use public_list::PublicList;

/// Consecutive pages with equal rights: as many as there are.
#[derive(Clone, Copy, PartialEq, Eq, Debug)]
pub struct Area {
    /// The address of the first page.
    pub start: u64,
    /// The number of pages.
    pub pages: u64,
    /// What may be done with the pages, besides reading them.
    pub rights: Rights,
}

/// Areas, by ascending address.
pub type AreaList = PublicList<Area>;
