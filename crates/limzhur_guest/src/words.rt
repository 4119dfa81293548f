// The words by which C says how the processor is set and what an access does.
ghost use Rattle.std.specs.Prelude.{◌≡◌, ◌/◌, ◌%◌, ◌^◌, ◌<◌};
ghost use Rattle.paging_core.specs.Entry.{has_bit};
ghost use Rattle.limzhur_guest.specs.Words.{mode_of, kind_of, by_user, root_of};

use guest_walk::Mode;
use paging_core::{AccessKind, PageTableEntry, PhysFrame};

/// Whether the word has the bit.
fn has_bit(word: u32, bit: u32) -> bool
    requires { bit < 32 }
    ensures { result ≡ has_bit word bit }
{
    (word >> bit) % 2 == 1
}

/// The mode that the flags name.
pub(crate) fn mode_of(flags: u32) -> Mode
    ensures { result ≡ mode_of flags }
{
    Mode {
        write_protect: has_bit(flags, 0),
        no_execute: has_bit(flags, 1),
        smep: has_bit(flags, 2),
        smap: has_bit(flags, 3),
        alignment_check: has_bit(flags, 4),
        ignores_bit_8: has_bit(flags, 5),
    }
}

/// What the access does.
pub(crate) fn kind_of(access: u32) -> AccessKind
    ensures { result ≡ kind_of access }
{
    if has_bit(access, 1) {
        AccessKind::Write
    } else if has_bit(access, 4) {
        AccessKind::Fetch
    } else {
        AccessKind::Read
    }
}

/// Whether the access writes.
pub(crate) fn writes(access: u32) -> bool
    ensures { result ≡ has_bit access 1 }
{
    has_bit(access, 1)
}

/// Whether the user does the access.
pub(crate) fn by_user(access: u32) -> bool
    ensures { result ≡ by_user access }
{
    has_bit(access, 2)
}

/// The frame of the root table.
pub(crate) fn root_of(cr3: u64) -> PhysFrame
    ensures { result ≡ root_of cr3 }
{
    PageTableEntry::from_bits(cr3).frame()
}
