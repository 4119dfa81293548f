ghost use Rattle.std.specs.Prelude.{◌≡◌, ⊤, [], ◌∷◌, codes};
ghost use Rattle.std.specs.Int.RustNames.{bit_or};
ghost use Rattle.paging_core.specs.PageTableFlags.{page_table_bits, page_table_flags};

use bitflags::{Flag, Flags};
use std::ops::BitOr;

// Each constant of these names as a row of its name and its value.
macro_rules! flag_rows {
    ($($name:ident),* $(,)?) => {
        &[$(Flag { name: stringify!($name), value: Self::$name },)*]
    };
}

/// The flags of a page table entry: all its bits but those of the address field.
///
/// Source: AMD64 manual, volume 2, "Page-Translation-Table Entry Fields".
#[derive(Clone, Copy, PartialEq, Eq, PartialOrd, Ord, Hash, Debug)]
pub struct PageTableFlags(u64);

impl PageTableFlags {
    /// The page or the table is there.
    pub const PRESENT: Self = Self(1 << 0);

    /// Writes are granted.
    pub const WRITABLE: Self = Self(1 << 1);

    /// Accesses at user level are granted.
    pub const USER_ACCESSIBLE: Self = Self(1 << 2);

    /// Writes go through the cache to memory.
    pub const WRITE_THROUGH: Self = Self(1 << 3);

    /// Accesses go past the cache.
    pub const NO_CACHE: Self = Self(1 << 4);

    /// Set by the processor on the first access.
    pub const ACCESSED: Self = Self(1 << 5);

    /// Set by the processor on the first write.
    pub const DIRTY: Self = Self(1 << 6);

    /// The entry maps a large page in place of a table; in a last table, a bit of the cache type.
    pub const HUGE_PAGE: Self = Self(1 << 7);

    /// The translation outlives a change of the root.
    pub const GLOBAL: Self = Self(1 << 8);

    /// Free for software.
    pub const BIT_9: Self = Self(1 << 9);

    /// Free for software.
    pub const BIT_10: Self = Self(1 << 10);

    /// Free for software.
    pub const BIT_11: Self = Self(1 << 11);

    /// Free for software.
    pub const BIT_52: Self = Self(1 << 52);

    /// Free for software.
    pub const BIT_53: Self = Self(1 << 53);

    /// Free for software.
    pub const BIT_54: Self = Self(1 << 54);

    /// Free for software.
    pub const BIT_55: Self = Self(1 << 55);

    /// Free for software.
    pub const BIT_56: Self = Self(1 << 56);

    /// Free for software.
    pub const BIT_57: Self = Self(1 << 57);

    /// Free for software.
    pub const BIT_58: Self = Self(1 << 58);

    /// Free for software if protection keys are off.
    pub const BIT_59: Self = Self(1 << 59);

    /// Free for software if protection keys are off.
    pub const BIT_60: Self = Self(1 << 60);

    /// Free for software if protection keys are off.
    pub const BIT_61: Self = Self(1 << 61);

    /// Free for software if protection keys are off.
    pub const BIT_62: Self = Self(1 << 62);

    /// Instruction fetches are denied.
    pub const NO_EXECUTE: Self = Self(1 << 63);

    const FLAGS: &'static [Flag<Self>] = flag_rows![
        PRESENT,
        WRITABLE,
        USER_ACCESSIBLE,
        WRITE_THROUGH,
        NO_CACHE,
        ACCESSED,
        DIRTY,
        HUGE_PAGE,
        GLOBAL,
        BIT_9,
        BIT_10,
        BIT_11,
        BIT_52,
        BIT_53,
        BIT_54,
        BIT_55,
        BIT_56,
        BIT_57,
        BIT_58,
        BIT_59,
        BIT_60,
        BIT_61,
        BIT_62,
        NO_EXECUTE,
    ];

    /// Each name of the table has the bits of the constant of that name.
    pub fn constants()
        ensures { page_table_flags
            ≡ (codes "PRESENT", page_table_bits Self.PRESENT)
            ∷ (codes "WRITABLE", page_table_bits Self.WRITABLE)
            ∷ (codes "USER_ACCESSIBLE", page_table_bits Self.USER_ACCESSIBLE)
            ∷ (codes "WRITE_THROUGH", page_table_bits Self.WRITE_THROUGH)
            ∷ (codes "NO_CACHE", page_table_bits Self.NO_CACHE)
            ∷ (codes "ACCESSED", page_table_bits Self.ACCESSED)
            ∷ (codes "DIRTY", page_table_bits Self.DIRTY)
            ∷ (codes "HUGE_PAGE", page_table_bits Self.HUGE_PAGE)
            ∷ (codes "GLOBAL", page_table_bits Self.GLOBAL)
            ∷ (codes "BIT_9", page_table_bits Self.BIT_9)
            ∷ (codes "BIT_10", page_table_bits Self.BIT_10)
            ∷ (codes "BIT_11", page_table_bits Self.BIT_11)
            ∷ (codes "BIT_52", page_table_bits Self.BIT_52)
            ∷ (codes "BIT_53", page_table_bits Self.BIT_53)
            ∷ (codes "BIT_54", page_table_bits Self.BIT_54)
            ∷ (codes "BIT_55", page_table_bits Self.BIT_55)
            ∷ (codes "BIT_56", page_table_bits Self.BIT_56)
            ∷ (codes "BIT_57", page_table_bits Self.BIT_57)
            ∷ (codes "BIT_58", page_table_bits Self.BIT_58)
            ∷ (codes "BIT_59", page_table_bits Self.BIT_59)
            ∷ (codes "BIT_60", page_table_bits Self.BIT_60)
            ∷ (codes "BIT_61", page_table_bits Self.BIT_61)
            ∷ (codes "BIT_62", page_table_bits Self.BIT_62)
            ∷ (codes "NO_EXECUTE", page_table_bits Self.NO_EXECUTE)
            ∷ [] }
    {}
}

impl Flags for PageTableFlags {
    type Bits = u64;

    ghost exact = { ⊤ };

    ghost table = { page_table_flags };

    ghost set_of = { page_table_bits };

    fn flags<'a>() -> &'a [Flag<Self>] {
        Self::FLAGS
    }

    fn bits(&self) -> u64 {
        self.0
    }

    fn from_bits_retain(bits: u64) -> Self {
        Self(bits)
    }
}

impl BitOr for PageTableFlags {
    type Output = Self;

    ghost bitor_gives = { λ left right all. page_table_bits all ≡ bit_or (page_table_bits left) (page_table_bits right) };

    fn bitor(self, other: Self) -> Self {
        Self(self.0 | other.0)
    }
}
