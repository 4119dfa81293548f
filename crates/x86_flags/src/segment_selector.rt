//! Selectors of descriptors.

ghost use Rattle.std.specs.Prelude.{◌≡◌, ◌+◌, ◌*◌, ◌/◌, ◌%◌};
ghost use Rattle.x86_flags.specs.PrivilegeLevel.{level_number};

use crate::privilege_level::PrivilegeLevel;
use std::fmt;

/// Names a descriptor of the global or a local descriptor table: its index in bits 3 to 15, the table in
/// bit 2, and the level that is asked for in bits 0 and 1.
///
/// Source: AMD64 manual, volume 2, section 4.5.1.
#[derive(Clone, Copy, PartialEq, Eq, PartialOrd, Ord, Hash)]
pub struct SegmentSelector(pub u16);

impl SegmentSelector {
    /// The selector of no segment.
    pub const NULL: Self = Self(0);

    /// Selects a descriptor of the global table by the low 13 bits of `index`.
    pub fn new(index: u16, rpl: PrivilegeLevel) -> SegmentSelector
        ensures { result.0 ≡ index % 8192 * 8 + level_number rpl }
    {
        SegmentSelector(index << 3 | rpl as u16)
    }

    /// The index of the descriptor.
    pub fn index(self) -> u16
        ensures { result ≡ self.0 / 8 }
    {
        self.0 >> 3
    }

    /// The level that is asked for.
    pub fn rpl(self) -> PrivilegeLevel
        ensures { level_number result ≡ self.0 % 4 }
    {
        PrivilegeLevel::from_u16(self.0 & 0b11)
    }

    /// Asks for this level, and keeps the descriptor.
    pub fn set_rpl(&mut self, rpl: PrivilegeLevel)
        ensures { self.new.0 ≡ self.old.0 / 4 * 4 + level_number rpl }
    {
        self.0 = self.0 & !0b11 | rpl as u16;
    }
}

impl fmt::Debug for SegmentSelector {
    fn fmt<W: fmt::Write>(&self, f: &mut fmt::Formatter<W>) -> fmt::Result {
        f.debug_struct("SegmentSelector")
            .field("index", &self.index())
            .field("rpl", &self.rpl())
            .finish()
    }
}
