// The lines of page tables.
use crate::owners::Owner;
use paging_core::PageBits;

/// A table, or what entries of a table map that follow each other.
#[derive(Clone, Copy, PartialEq, Eq, Debug)]
pub struct Line {
    /// How many entries a walk reads to get there: none to the root, one to three to another table, three to a large page,
    /// four to a page.
    pub steps: u32,
    /// The place of the first of these entries in their table.
    pub index: u64,
    /// The number of the first page below: its low 36 bits.
    pub page: u64,
    /// The number of the page after the last one that is mapped there. In the line of a table it is `page`.
    pub end: u64,
    /// The first frame.
    pub frame: u64,
    /// The owner of the page `page`. If the pages of each large page have one owner, every page that is mapped there
    /// has this owner.
    pub owner: Owner,
    /// What all entries on the way grant, and the type that the last one gives.
    pub rights: PageBits,
}
