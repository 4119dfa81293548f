ghost use Rattle.std.specs.Prelude.{◌≡◌, ℕ, ◌+◌, ◌-◌, ◌*◌, ◌/◌, ◌%◌, ◌^◌, ◌<◌, ◌≤◌, ◌↔◌, IsTrue, IsOk, IfOk, IsSome, IfSome};
ghost use Rattle.paging_core.specs.Address.{is_canonical};
ghost use Rattle.paging_core.specs.Prefix.{prefix_of};
ghost use Rattle.paging_core.specs.Steps.{half_pages, gap_pages, position, page_at, steps};

use crate::addr::VirtAddr;
use crate::page_table::PageTableIndex;
use std::hash::Hash;
use std::marker::{Model, PhantomData};
use thiserror::Error;

/// The size of pages and frames, in bytes. Sizes compare and hash, so that pages, frames and ranges do at every size.
pub trait PageSize: Copy + Ord + Hash {
    ghost use Rattle.std.specs.Prelude.{◌≡◌, ℕ, ◌%◌, ◌^◌, ◌<◌};

    ghost SIZE: { ℕ };

    /// The size in bytes. It is a multiple of 4096, and a canonical half of the address space is a whole number
    /// of pages.
    const SIZE: u64;

    ghost is_some: { 0 < SIZE };

    ghost divides_half: { 2 ^ 47 % SIZE ≡ 0 };

    ghost is_aligned: { SIZE % 4096 ≡ 0 };
}

/// Pages of 4096 bytes.
#[derive(Clone, Copy, PartialEq, Eq, PartialOrd, Ord, Hash, Debug)]
pub struct Size4KiB;

impl PageSize for Size4KiB {
    ghost SIZE = { 4096 };

    const SIZE: u64 = 4096;

    ghost use Rattle.std.proofs.Common.{arith};

    ghost is_some = { Prim.omega arith };

    ghost use Rattle.std.proofs.Common.{refl};

    ghost divides_half = { refl };

    ghost is_aligned = { refl };
}

/// Pages of 2 MiB.
#[derive(Clone, Copy, PartialEq, Eq, PartialOrd, Ord, Hash, Debug)]
pub struct Size2MiB;

impl PageSize for Size2MiB {
    ghost SIZE = { 2 ^ 21 };

    const SIZE: u64 = 1 << 21;

    ghost use Rattle.std.proofs.Common.{arith};

    ghost is_some = { Prim.omega arith };

    ghost use Rattle.std.proofs.Common.{refl};

    ghost divides_half = { refl };

    ghost is_aligned = { refl };
}

/// Pages of 1 GiB.
#[derive(Clone, Copy, PartialEq, Eq, PartialOrd, Ord, Hash, Debug)]
pub struct Size1GiB;

impl PageSize for Size1GiB {
    ghost SIZE = { 2 ^ 30 };

    const SIZE: u64 = 1 << 30;

    ghost use Rattle.std.proofs.Common.{arith};

    ghost is_some = { Prim.omega arith };

    ghost use Rattle.std.proofs.Common.{refl};

    ghost divides_half = { refl };

    ghost is_aligned = { refl };
}

/// The size of pages that a table of level 2 or 1 maps: every size but 1 GiB.
pub trait NotGiantPageSize: PageSize {
    ghost use Rattle.std.specs.Prelude.{◌^◌, ◌<◌};

    ghost below_giant: { Self.SIZE < 2 ^ 30 };
}

impl NotGiantPageSize for Size4KiB {
    ghost use Rattle.std.proofs.Common.{arith};

    ghost below_giant = { Prim.omega arith };
}

impl NotGiantPageSize for Size2MiB {
    ghost use Rattle.std.proofs.Common.{arith};

    ghost below_giant = { Prim.omega arith };
}

/// The address is no multiple of the size.
#[derive(Clone, Copy, PartialEq, Eq, Debug, Error)]
#[error("the given address was not aligned")]
pub struct AddressNotAligned;

/// A page of virtual memory, by its number: its address divided by its size.
#[derive(Clone, Copy, PartialEq, Eq, PartialOrd, Ord, Hash, Debug)]
pub struct Page<S: PageSize = Size4KiB> {
    number: u64,
    size: PhantomData<S>,
}

impl<S: PageSize> Model for Page<S> {
    ghost Value = { ℕ };

    ghost view = { λ p. p.number };

    ghost invariant = { λ p. IsTrue (is_canonical (p.number * S.SIZE)) };

    ghost inverse = { λ n. record { number = n; size = record {} } };
}

impl<S: PageSize> Page<S> {
    /// The page that begins at the address. An error if the address is no multiple of the size.
    pub fn from_start_address(address: VirtAddr) -> Result<Self, AddressNotAligned>
        ensures aligned { IsOk result ↔ (address % S.SIZE ≡ 0) }
        ensures ok { IfOk result (λ page. page ≡ address / S.SIZE) }
    {
        if address.as_u64() % S::SIZE == 0 {
            Ok(Page::containing_address(address))
        } else {
            Err(AddressNotAligned)
        }
    }

    /// The page that holds the address.
    pub fn containing_address(address: VirtAddr) -> Self
        ensures { result ≡ address / S.SIZE }
    {
        Page {
            number: address.as_u64() / S::SIZE,
            size: PhantomData,
        }
    }

    /// The first address of the page.
    pub fn start_address(self) -> VirtAddr
        ensures { result ≡ self * S.SIZE }
    {
        VirtAddr::new(self.number * S::SIZE)
    }

    /// The page's number: its address divided by its size.
    pub fn number(self) -> u64
        ensures value { result ≡ self }
        ensures canonical { IsTrue (is_canonical (result * S.SIZE)) }
    {
        self.number
    }
}

impl<S: PageSize> Page<S> {
    /// How many pages a canonical half has.
    fn half_pages() -> u64
        ensures { result ≡ half_pages S.SIZE }
    {
        (1 << 47) / S::SIZE
    }

    /// How many numbers of pages the addresses between the canonical halves take up.
    fn gap_pages() -> u64
        ensures { result ≡ gap_pages S.SIZE }
    {
        ((1 << 17) - 2) * Self::half_pages()
    }

    /// How many pages are before the page.
    fn position(self) -> u64
        ensures place { result ≡ position S.SIZE self }
        ensures bounded { result < 2 * half_pages S.SIZE }
    {
        if self.number < Self::half_pages() {
            self.number
        } else {
            self.number - Self::gap_pages()
        }
    }

    /// Whether the page is before the other.
    fn is_before(self, other: Self) -> bool
        ensures number { IsTrue result ↔ (self < other) }
        ensures place { IsTrue result ↔ (position S.SIZE self < position S.SIZE other) }
    {
        self.number() < other.number()
    }

    /// The number of the page that has `place` pages before it.
    fn number_at(place: u64) -> u64
        requires { place < 2 * half_pages S.SIZE }
        ensures { result ≡ page_at S.SIZE place }
    {
        if place < Self::half_pages() {
            place
        } else {
            place + Self::gap_pages()
        }
    }

    /// The page that has `place` pages before it. None if there are at most `place` pages.
    fn at(place: u64) -> Option<Self>
        ensures some { IsSome result ↔ (place < 2 * half_pages S.SIZE) }
        ensures page { IfSome result (λ page. page ≡ page_at S.SIZE place) }
        ensures place { IfSome result (λ page. position S.SIZE page ≡ place) }
    {
        if place < 2 * Self::half_pages() {
            Some(Page {
                number: Self::number_at(place),
                size: PhantomData,
            })
        } else {
            None
        }
    }

    /// The page `count` pages on; the first page of the high half follows the last of the low half. None exactly if it
    /// would be past the last page (Rust's `Step::forward_checked`).
    pub fn forward_checked(start: Self, count: usize) -> Option<Self>
        ensures some { IsSome result ↔ (position S.SIZE start + count < 2 * half_pages S.SIZE) }
        ensures page { IfSome result (λ page. page ≡ page_at S.SIZE (position S.SIZE start + count)) }
        ensures place { IfSome result (λ page. position S.SIZE page ≡ position S.SIZE start + count) }
    {
        Self::at(start.position().checked_add(count as u64)?)
    }

    /// The page `count` pages back; the last page of the low half is the one before the first of the high half. None
    /// exactly if it would be before the first page (Rust's `Step::backward_checked`).
    pub fn backward_checked(start: Self, count: usize) -> Option<Self>
        ensures some { IsSome result ↔ (count ≤ position S.SIZE start) }
        ensures page { IfSome result (λ page. page ≡ page_at S.SIZE (position S.SIZE start - count)) }
        ensures place { IfSome result (λ page. position S.SIZE page ≡ position S.SIZE start - count) }
    {
        Self::at(start.position().checked_sub(count as u64)?)
    }

    /// How many steps lead from one page to the other: `(n, Some(n))`, and `(0, None)` if `end` is before `start`
    /// (Rust's `Step::steps_between`).
    pub fn steps_between(start: &Self, end: &Self) -> (usize, Option<usize>)
        ensures { result ≡ steps (position S.SIZE start.now) (position S.SIZE end.now) }
    {
        match end.position().checked_sub(start.position()) {
            Some(steps) => (steps as usize, Some(steps as usize)),
            None => (0, None),
        }
    }

    /// The pages from `start` up to `end`, `end` excluded.
    pub fn range(start: Self, end: Self) -> PageRange<S>
        ensures start { result.start ≡ start }
        ensures end { result.end ≡ end }
    {
        PageRange { start, end }
    }

    /// The pages from `start` to `end`, both included.
    pub fn range_inclusive(start: Self, end: Self) -> PageRangeInclusive<S>
        ensures start { result.start ≡ start }
        ensures end { result.end ≡ end }
    {
        PageRangeInclusive { start, end }
    }

    /// The 9 bits of the page's address from `low` on.
    fn index_from(self, low: u32) -> PageTableIndex
        requires { low < 64 }
        ensures { result ≡ self * S.SIZE / 2 ^ low % 512 }
    {
        PageTableIndex::new((self.start_address().as_u64() >> low & 0x1ff) as u16)
    }

    /// The index of the page in the root table: bits 39 to 47 of its address.
    pub fn p4_index(self) -> PageTableIndex
        ensures { result ≡ self * S.SIZE / 2 ^ 39 % 512 }
    {
        self.index_from(39)
    }

    /// The index of the page in its table of level 3: bits 30 to 38 of its address.
    pub fn p3_index(self) -> PageTableIndex
        ensures { result ≡ self * S.SIZE / 2 ^ 30 % 512 }
    {
        self.index_from(30)
    }
}

impl<S: NotGiantPageSize> Page<S> {
    /// The index of the page in its table of level 2: bits 21 to 29 of its address.
    pub fn p2_index(self) -> PageTableIndex
        ensures { result ≡ self * S.SIZE / 2 ^ 21 % 512 }
    {
        self.index_from(21)
    }
}

impl Page<Size4KiB> {
    /// The page that is this many pages on, in the same canonical half (own).
    pub fn after(self, pages: u64) -> Self
        requires { IsTrue (is_canonical ((self + pages) * 4096)) }
        ensures { result ≡ self + pages }
    {
        Page {
            number: self.number + pages,
            size: PhantomData,
        }
    }

    /// The index of the page in its last table: bits 12 to 20 of its address.
    pub fn p1_index(self) -> PageTableIndex
        ensures { result ≡ self % 512 }
    {
        PageTableIndex::new((self.number & 0x1ff) as u16)
    }
}

/// The pages from `start` up to `end`, `end` excluded.
#[derive(Clone, Copy, PartialEq, Eq, Hash, Debug)]
pub struct PageRange<S: PageSize = Size4KiB> {
    /// The first page.
    pub start: Page<S>,
    /// The page after the last one.
    pub end: Page<S>,
}

impl<S: PageSize> PageRange<S> {
    /// Whether the range has no page.
    pub fn is_empty(&self) -> bool
        ensures number { IsTrue result ↔ (self.now.end ≤ self.now.start) }
        ensures place { IsTrue result ↔ (position S.SIZE self.now.end ≤ position S.SIZE self.now.start) }
    {
        !self.start.is_before(self.end)
    }

    /// How many pages the range has. The addresses between the canonical halves have none.
    pub fn len(&self) -> u64
        ensures { result ≡ position S.SIZE self.now.end - position S.SIZE self.now.start }
    {
        self.end.position().saturating_sub(self.start.position())
    }
}

/// The pages from `start` to `end`, both included.
#[derive(Clone, Copy, PartialEq, Eq, Hash, Debug)]
pub struct PageRangeInclusive<S: PageSize = Size4KiB> {
    /// The first page.
    pub start: Page<S>,
    /// The last page.
    pub end: Page<S>,
}

impl<S: PageSize> PageRangeInclusive<S> {
    /// Whether the range has no page.
    pub fn is_empty(&self) -> bool
        ensures number { IsTrue result ↔ (self.now.end < self.now.start) }
        ensures place { IsTrue result ↔ (position S.SIZE self.now.end < position S.SIZE self.now.start) }
    {
        self.end.is_before(self.start)
    }

    /// How many pages the range has. The addresses between the canonical halves have none.
    pub fn len(&self) -> u64
        ensures { result ≡ position S.SIZE self.now.end + 1 - position S.SIZE self.now.start }
    {
        (self.end.position() + 1).saturating_sub(self.start.position())
    }
}

/// The index of the page in its table after `level` steps of the walk: 0 is the root's.
pub fn index_after(page: Page, level: u32) -> u16
    requires { level < 4 }
    ensures value { result ≡ prefix_of page (level + 1) % 512 }
    ensures bounded { result < 512 }
    ensures canonical { IsTrue (is_canonical (page * 4096)) }
{
    let _canonical = page.number();
    let index = match level {
        0 => page.p4_index(),
        1 => page.p3_index(),
        2 => page.p2_index(),
        _ => page.p1_index(),
    };
    index.value()
}
