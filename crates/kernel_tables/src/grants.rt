ghost use Rattle.std.specs.Prelude.{◌≡◌};
ghost use Rattle.paging_core.specs.Walk.{mapped_place};
ghost use Rattle.kernel_tables.specs.Grants.{given_by, user_of};

use paging_core::{Mapped, PageBits, Rights};

/// What the entry of a mapped page is given. The page keeps its frame.
#[derive(Clone, Copy)]
pub enum Grant {
    /// All its bits.
    All(PageBits),
    /// Its rights only: the page keeps its type, and stays global or not.
    Only(Rights),
}

impl Grant {
    /// The bits that a page which is mapped so is given.
    pub(crate) fn bits(self, met: Mapped) -> PageBits
        ensures value { result ≡ given_by self (mapped_place met) }
        ensures user { result.user ≡ user_of self }
    {
        match self {
            Grant::All(bits) => bits,
            Grant::Only(rights) => PageBits {
                through: met.through,
                uncached: met.uncached,
                global: met.global,
                ..rights.bits()
            },
        }
    }

    /// Whether users reach the page then.
    pub(crate) fn user(self) -> bool
        ensures { result ≡ user_of self }
    {
        match self {
            Grant::All(bits) => bits.user,
            Grant::Only(rights) => rights.user,
        }
    }
}
