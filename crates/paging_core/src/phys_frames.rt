ghost use Rattle.std.specs.Prelude.{◌≡◌, ℕ, ◌+◌, ◌-◌, ◌*◌, ◌/◌, ◌%◌, ◌^◌, ◌<◌, ◌≤◌, ◌↔◌, IsTrue, IsOk, IfOk};

use crate::addr::PhysAddr;
use crate::pages::{AddressNotAligned, PageSize, Size4KiB};
use std::marker::{Model, PhantomData};

/// A frame of physical memory, by its number: its address divided by its size.
#[derive(Clone, Copy, PartialEq, Eq, PartialOrd, Ord, Hash, Debug)]
pub struct PhysFrame<S: PageSize = Size4KiB> {
    number: u64,
    size: PhantomData<S>,
}

impl<S: PageSize> Model for PhysFrame<S> {
    ghost Value = { ℕ };

    ghost view = { λ f. f.number };

    ghost invariant = { λ f. f.number * S.SIZE < 2 ^ 52 };

    ghost inverse = { λ n. record { number = n; size = record {} } };
}

impl<S: PageSize> PhysFrame<S> {
    /// The frame that begins at the address. An error if the address is no multiple of the size.
    pub fn from_start_address(address: PhysAddr) -> Result<Self, AddressNotAligned>
        ensures aligned { IsOk result ↔ (address % S.SIZE ≡ 0) }
        ensures ok { IfOk result (λ frame. frame ≡ address / S.SIZE) }
    {
        if address.as_u64() % S::SIZE == 0 {
            Ok(PhysFrame::containing_address(address))
        } else {
            Err(AddressNotAligned)
        }
    }

    /// The frame that holds the address.
    pub fn containing_address(address: PhysAddr) -> Self
        ensures { result ≡ address / S.SIZE }
    {
        PhysFrame {
            number: address.as_u64() / S::SIZE,
            size: PhantomData,
        }
    }

    /// The first address of the frame.
    pub fn start_address(&self) -> PhysAddr
        ensures { result ≡ self.now * S.SIZE }
    {
        PhysAddr::new(self.number * S::SIZE)
    }

    /// The frame's number: its address divided by its size.
    pub fn number(self) -> u64
        ensures value { result ≡ self }
        ensures fits { result * S.SIZE < 2 ^ 52 }
    {
        self.number
    }
}

impl PhysFrame {
    /// The frame that is this many frames on.
    pub fn after(self, frames: u64) -> Self
        requires { self + frames < 2 ^ 40 }
        ensures { result ≡ self + frames }
    {
        PhysFrame {
            number: self.number + frames,
            size: PhantomData,
        }
    }
}

/// The frames from `start` up to `end`, `end` excluded.
#[derive(Clone, Copy, PartialEq, Eq, Hash, Debug)]
pub struct PhysFrameRange<S: PageSize = Size4KiB> {
    /// The first frame.
    pub start: PhysFrame<S>,
    /// The frame after the last one.
    pub end: PhysFrame<S>,
}

impl<S: PageSize> PhysFrameRange<S> {
    /// Whether the range has no frame.
    pub fn is_empty(&self) -> bool
        ensures { IsTrue result ↔ (self.now.end ≤ self.now.start) }
    {
        self.end.number <= self.start.number
    }

    /// How many frames the range has.
    pub fn len(&self) -> u64
        ensures { result ≡ self.now.end - self.now.start }
    {
        self.end.number.saturating_sub(self.start.number)
    }
}

/// The frames from `start` to `end`, both included.
#[derive(Clone, Copy, PartialEq, Eq, Hash, Debug)]
pub struct PhysFrameRangeInclusive<S: PageSize = Size4KiB> {
    /// The first frame.
    pub start: PhysFrame<S>,
    /// The last frame.
    pub end: PhysFrame<S>,
}

impl<S: PageSize> PhysFrameRangeInclusive<S> {
    /// Whether the range has no frame.
    pub fn is_empty(&self) -> bool
        ensures { IsTrue result ↔ (self.now.end < self.now.start) }
    {
        self.end.number < self.start.number
    }

    /// How many frames the range has.
    pub fn len(&self) -> u64
        ensures { result ≡ self.now.end + 1 - self.now.start }
    {
        (self.end.number + 1).saturating_sub(self.start.number)
    }
}
