use paging_core::{Mapped, Page};

/// What the walk found of a page when it was looked up.
#[derive(Clone, Copy, PartialEq, Eq, Debug)]
pub struct TlbEntry {
    /// The page, of 4 KiB. Each page in a large page is one of its own.
    pub page: Page,
    /// Its frame, with the rights.
    pub mapped: Mapped,
}

/// The answer of a look-up.
#[derive(Clone, Copy, PartialEq, Eq, Debug)]
pub struct Translated {
    /// Where the page is mapped. None if the walk does not find it.
    pub mapped: Option<Mapped>,
    /// Whether the page had an entry, so no walk was made.
    pub hit: bool,
}
