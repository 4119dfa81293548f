//! The error code of a page fault.

ghost use Rattle.std.specs.Prelude.{◌≡◌, ⊤, [], ◌∷◌, codes};
ghost use Rattle.std.specs.Int.RustNames.{bit_or};
ghost use Rattle.x86_flags.specs.PageFaultErrorCode.{page_fault_bits, page_fault_flags};

use bitflags::{Flag, Flags};
use std::ops::BitOr;

/// Why an access raised a page fault.
///
/// Source: AMD64 manual, volume 2, section 8.4.2; the bits 7 and 15 are Intel's.
#[derive(Clone, Copy, PartialEq, Eq, PartialOrd, Ord, Hash, Debug)]
pub struct PageFaultErrorCode(u64);

impl PageFaultErrorCode {
    /// The page is present, and its rights deny the access; if clear, no page is present.
    pub const PROTECTION_VIOLATION: Self = Self(1 << 0);

    /// The access was a write; if clear, a read.
    pub const CAUSED_BY_WRITE: Self = Self(1 << 1);

    /// The access was by user code; if clear, by supervisor code.
    pub const USER_MODE: Self = Self(1 << 2);

    /// A reserved bit is set in an entry of a page table.
    pub const MALFORMED_TABLE: Self = Self(1 << 3);

    /// The access was an instruction fetch.
    pub const INSTRUCTION_FETCH: Self = Self(1 << 4);

    /// A protection key denies the access.
    pub const PROTECTION_KEY: Self = Self(1 << 5);

    /// The access was to a shadow stack.
    pub const SHADOW_STACK: Self = Self(1 << 6);

    /// The fault was in the paging of HLAT (Intel).
    pub const HLAT: Self = Self(1 << 7);

    /// The access control of SGX denies the access (Intel).
    pub const SGX: Self = Self(1 << 15);

    /// The reverse map table denies the access (AMD).
    pub const RMP: Self = Self(1 << 31);

    const FLAGS: &'static [Flag<Self>] = flag_rows![
        PROTECTION_VIOLATION,
        CAUSED_BY_WRITE,
        USER_MODE,
        MALFORMED_TABLE,
        INSTRUCTION_FETCH,
        PROTECTION_KEY,
        SHADOW_STACK,
        HLAT,
        SGX,
        RMP,
    ];

    /// Each name of the table has the bits of the constant of that name.
    pub fn constants()
        ensures { page_fault_flags
            ≡ (codes "PROTECTION_VIOLATION", page_fault_bits Self.PROTECTION_VIOLATION)
            ∷ (codes "CAUSED_BY_WRITE", page_fault_bits Self.CAUSED_BY_WRITE)
            ∷ (codes "USER_MODE", page_fault_bits Self.USER_MODE)
            ∷ (codes "MALFORMED_TABLE", page_fault_bits Self.MALFORMED_TABLE)
            ∷ (codes "INSTRUCTION_FETCH", page_fault_bits Self.INSTRUCTION_FETCH)
            ∷ (codes "PROTECTION_KEY", page_fault_bits Self.PROTECTION_KEY)
            ∷ (codes "SHADOW_STACK", page_fault_bits Self.SHADOW_STACK)
            ∷ (codes "HLAT", page_fault_bits Self.HLAT)
            ∷ (codes "SGX", page_fault_bits Self.SGX)
            ∷ (codes "RMP", page_fault_bits Self.RMP)
            ∷ [] }
    {}
}

impl Flags for PageFaultErrorCode {
    type Bits = u64;

    ghost exact = { ⊤ };

    ghost table = { page_fault_flags };

    ghost set_of = { page_fault_bits };

    fn flags<'a>() -> &'a [Flag<Self>] {
        Self::FLAGS
    }

    fn bits(&self) -> u64 {
        self.0
    }

    fn from_bits_retain(bits: u64) -> Self {
        Self(bits)
    }
}

impl BitOr for PageFaultErrorCode {
    type Output = Self;

    ghost bitor_gives = { λ left right all. page_fault_bits all ≡ bit_or (page_fault_bits left) (page_fault_bits right) };

    fn bitor(self, other: Self) -> Self {
        Self(self.0 | other.0)
    }
}
