ghost use Rattle.std.specs.Prelude.{◌≡◌, ◌+◌, ◌^◌, ◌<◌};
ghost use Rattle.tlb_cache.specs.Covered.{is_among};

/// A number of pages of 4 KiB, from a first page on.
#[derive(Clone, Copy)]
pub(crate) struct PageRun {
    pub(crate) first: u64,
    pub(crate) pages: u64,
    ghost fits: { first + pages < 2 ^ 64 },
}

impl PageRun {
    /// Whether the page with a number is one of them.
    pub(crate) fn has(self, page: u64) -> bool
        ensures { result ≡ is_among self.first self.pages page }
    {
        self.first <= page && page - self.first < self.pages
    }
}
