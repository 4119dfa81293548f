//! Ranges of pages and bytes that callers name.
ghost use Rattle.std.specs.Prelude.{◌≡◌, ◌+◌, ◌-◌, ◌*◌, ◌/◌, ◌≤◌, ◌^◌, ◌<◌, ◌↔◌, IsTrue, MatchOption};
ghost use Rattle.paging_core.specs.Address.{is_canonical};
ghost use Rattle.address_space.specs.Access.{IsGoodSpan};
ghost use Rattle.address_space.specs.PageMap.{BeginsRange, BeginsWindow, IsGoodRange, IsGoodWindow};

use paging_core::{Page, VirtAddr};

/// How many pages a canonical half has.
const HALF_PAGES: u64 = 1 << 35;

/// The first page of a range that begins at a page, has pages, and lies in one canonical half.
pub(crate) fn first_page(start: u64, pages: u64) -> Option<Page>
    ensures { MatchOption result (IsGoodRange start pages → ⊥) (BeginsRange start pages) }
{
    let Ok(address) = VirtAddr::try_new(start) else {
        return None;
    };
    let Ok(first) = Page::from_start_address(address) else {
        return None;
    };
    let left = HALF_PAGES - first.number() % HALF_PAGES;
    if pages == 0 || left < pages {
        return None;
    }
    Some(first)
}

/// The first page of the window from one address up to another, if both lie at pages, the first is below the
/// second, and the window lies in one canonical half.
pub(crate) fn first_page_below(low: u64, high: u64) -> Option<Page>
    ensures { MatchOption result (IsGoodWindow low high → ⊥) (BeginsWindow low high) }
{
    if high <= low || high % 4096 != 0 {
        return None;
    }
    first_page(low, (high - low) / 4096)
}

/// The page with the number.
pub(crate) fn page_at(number: u64) -> Page
    requires { IsTrue (is_canonical (number * 4096)) }
    ensures { result ≡ number }
{
    Page::containing_address(VirtAddr::new(number * 4096))
}

/// How many bytes a canonical half has.
const HALF: u64 = 1 << 47;

/// Whether `count` bytes from the address on lie in one canonical half.
pub(crate) fn is_good_span(at: u64, count: u64) -> bool
    requires { 0 < count }
    ensures good { IsTrue result ↔ IsGoodSpan at count }
    ensures fits { IsTrue result → at + count ≤ 2 ^ 64 }
{
    match VirtAddr::try_new(at) {
        Ok(_) => count <= HALF - at % HALF,
        Err(_) => false,
    }
}
