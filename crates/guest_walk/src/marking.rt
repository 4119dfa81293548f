//! Bits of entries, and what a processor writes to the entries of its walk.

ghost use Rattle.std.specs.Prelude.{◌≡◌, ◌+◌, ◌/◌, ◌%◌, ◌^◌, ◌<◌, ◌&&◌, ◌==◌, not, if◌then◌else◌};
ghost use Rattle.paging_core.specs.Entry.{has_bit};
ghost use Rattle.paging_core.specs.Plain.{marked, maps_page};

/// Whether the entry has the bit.
pub(crate) fn has_bit(entry: u64, bit: u32) -> bool
    requires { bit < 64 }
    ensures { result ≡ has_bit entry bit }
{
    (entry >> bit) % 2 == 1
}

/// Whether an entry of the step maps a page: each of the last step, and those that have bit 7.
pub fn maps_page(step: u8, entry: u64) -> bool
    ensures { result ≡ maps_page step entry }
{
    step == 3 || has_bit(entry, 7)
}

/// The accessed bit, if the entry lacks it.
fn accessed(entry: u64) -> u64
    ensures { result ≡ (if has_bit entry 5 then 0 else 2 ^ 5) }
{
    if has_bit(entry, 5) { 0 } else { 32 }
}

/// The dirty bit, if an access writes to the page that the entry maps, and the entry lacks it.
fn dirty(writes: bool, step: u8, entry: u64) -> u64
    ensures { result ≡ (if writes && (maps_page step entry && not (has_bit entry 6)) then 2 ^ 6 else 0) }
{
    if writes && (maps_page(step, entry) && !has_bit(entry, 6)) {
        64
    } else {
        0
    }
}

/// What the processor writes back to an entry of this step, after an access by it that is granted: the entry with its accessed
/// bit, and with its dirty bit if the access writes to the page that the entry maps. The step is 0 in the root table.
///
/// Source: AMD64 manual, volume 2, "Page-Translation-Table Entry Fields".
pub fn marked(writes: bool, step: u8, entry: u64) -> u64
    ensures { result ≡ marked writes step entry }
{
    entry + accessed(entry) + dirty(writes, step, entry)
}
