//! Half open intervals over any order of their ends.
ghost use Rattle.num_traits.specs.Laws.{Checks};
ghost use Rattle.std.specs.Option.{option_map};
ghost use Rattle.std.specs.Prelude.{◌≡◌, ◌+ℤ◌, pos, IfSome, ⊤};
ghost use Rattle.std.specs.Ordering.{is_lt, ord_max, ord_min};
ghost use Rattle.meminterval.specs.Interval.{ClonesItself, has_items, intersection, interval_text, overlaps};

use num_traits::{CheckedAdd, One};
use std::alloc::AllocError;
use std::fmt;
use std::ops::Range;

/// The half open interval from `start` to `end`: it holds what is at least `start` and below `end`.
///
/// Equality and order are by `start`, and then by `end`.
#[derive(PartialEq, Eq, PartialOrd, Ord, Debug, Drop)]
pub struct Interval<T: Ord> {
    pub start: T,
    pub end: T,
}

impl<T: Ord> Interval<T> {
    /// Makes the interval from `start` to `end`.
    pub fn new(start: T, end: T) -> Self
        ensures start { result.start ≡ start }
        ensures end { result.end ≡ end }
    {
        Interval { start, end }
    }

    /// Makes the interval with the ends of `range`.
    pub fn from_range(range: Range<T>) -> Self
        ensures start { result.start ≡ range.start }
        ensures end { result.end ≡ range.end }
    {
        Interval {
            start: range.start,
            end: range.end,
        }
    }

    /// Makes the interval from `start` to `end`, both held. None exactly if one more than `end`
    /// does not fit its type.
    pub fn from_inclusive(start: T, end: T) -> Option<Self>
    where
        T: CheckedAdd + One,
        ensures start { IfSome result (λ i. i.start ≡ start) }
        ensures end { Checks T.value T.fits (T.value end +ℤ pos 1) (option_map (λ i. i.end) result) }
    {
        match end.checked_add(&T::one()) {
            Some(end) => Some(Interval { start, end }),
            None => None,
        }
    }

    /// Whether the start is below the end.
    pub fn is_valid(&self) -> bool
        ensures { result ≡ has_items T.cmp self.now }
    {
        self.start < self.end
    }

    /// The part that both intervals hold: from the greater start to the lesser end. None exactly if
    /// that is not valid.
    ///
    /// An end's clone has to be that end, and may not fail.
    pub fn intersect(&self, other: &Self) -> Option<Self>
    where
        T: Clone,
        requires { ClonesItself T.Clone }
        ensures { result ≡ intersection T.cmp self.now other.now }
    {
        if !self.overlaps(other) {
            return None;
        }
        let (start, end) = self.common(other);
        Some(Interval {
            start: copied(start),
            end: copied(end),
        })
    }

    /// Whether both intervals hold a part that is valid.
    pub(crate) fn overlaps(&self, other: &Self) -> bool
        ensures { result ≡ overlaps T.cmp self.now other.now }
    {
        let (start, end) = self.common(other);
        start < end
    }

    /// Whether the start is below `key`.
    pub(crate) fn starts_below(&self, key: &T) -> bool
        ensures { result ≡ is_lt (T.cmp self.now.start key.now) }
    {
        self.start < *key
    }

    // The greater start and the lesser end.
    fn common<'a>(&'a self, other: &'a Self) -> (&'a T, &'a T)
        ensures start { result.0.now ≡ ord_max T.cmp self.now.start other.now.start }
        ensures end { result.1.now ≡ ord_min T.cmp self.now.end other.now.end }
    {
        let start = if other.start < self.start {
            &self.start
        } else {
            &other.start
        };
        let end = if other.end < self.end {
            &other.end
        } else {
            &self.end
        };
        (start, end)
    }
}

/// A value's clone, if that is the value itself and is always made.
pub(crate) fn copied<T: Clone>(value: &T) -> T
    requires { ClonesItself T.Clone }
    ensures { result ≡ value.now }
{
    match value.clone() {
        Ok(copy) => copy,
        Err(_) => unreachable!(),
    }
}

impl<T: Ord + Copy> Clone for Interval<T> {
    ghost is_clone = { λ interval copy. copy ≡ interval };

    ghost is_infallible = { λ _. ⊤ };

    fn clone(&self) -> Result<Self, AllocError> {
        Ok(*self)
    }
}

impl<T: Ord + Copy> Copy for Interval<T> {}

impl<T: Ord + fmt::Display> fmt::Display for Interval<T> {
    ghost output = { interval_text T.output };

    fn fmt<W: fmt::Write>(&self, f: &mut fmt::Formatter<W>) -> fmt::Result {
        write!(f, "{}..{}", self.start, self.end)
    }
}
