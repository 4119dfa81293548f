// What the entries of a table lead to.
ghost use Rattle.std.specs.Prelude.{◌≡◌, ◌<◌, IfSome, Some, None, if◌then◌else◌};
ghost use Rattle.std.specs.Option.{option_map};
ghost use Rattle.paging_core.specs.Memory.{frame_count};
ghost use Rattle.paging_core.specs.Entry.{has_bit};
ghost use Rattle.paging_core.specs.Walk.{is_present, is_run, named, step, large_step, mapped_place};
ghost use Rattle.heap_tables.specs.Lines.{large_entry_of};

use paging_core::{Frames, Mapped, PageTableEntry, PhysFrame, get_bits};

// Whether a word has a bit.
fn has_bit(word: u64, bit: u32) -> bool
    requires { bit < 64 }
    ensures { result ≡ has_bit word bit }
{
    get_bits(word, bit, bit + 1) == 1
}

// What an entry names, from a place, be it present and its frame there or not.
fn named(from: Mapped, entry: u64) -> Mapped
    ensures { mapped_place result ≡ named (mapped_place from) entry }
{
    Mapped {
        frame: PageTableEntry::from_bits(entry).frame(),
        write: from.write & has_bit(entry, 1),
        user: from.user & has_bit(entry, 2),
        fetch: from.fetch & !has_bit(entry, 63),
        through: has_bit(entry, 3),
        uncached: has_bit(entry, 4),
        global: has_bit(entry, 8),
    }
}

// Where an entry leads, from a place.
fn follow(frames: &Frames, from: Mapped, entry: u64) -> Option<Mapped>
    ensures led { option_map mapped_place result ≡ (if is_present frames.now entry then Some (named (mapped_place from) entry) else None) }
    ensures below { IfSome result (λ to. to.frame < frame_count frames.now) }
{
    if !has_bit(entry, 0) {
        return None;
    }
    let to = named(from, entry);
    if to.frame.number() >= u64::from(frames.count()) {
        return None;
    }
    Some(to)
}

/// To the next table, or from the last one to a page: one step of a walk, from a table that was met after `level` steps.
/// None also if the entry maps a large page.
#[tactic(auto, unfolding(paging_core::specs::Walk::step))]
pub fn next(frames: &Frames, level: u32, table: &Mapped, index: u16) -> Option<Mapped>
    requires table { table.now.frame < frame_count frames.now }
    requires index { index < 512 }
    ensures step { option_map mapped_place result ≡ step frames.now level (mapped_place table.now) index }
    ensures below { IfSome result (λ to. to.frame < frame_count frames.now) }
{
    let entry = frames.word(table.frame, index);
    if level == 2 && has_bit(entry, 7) {
        return None;
    }
    follow(frames, *table, entry)
}

// Whether a large page may begin at a frame.
fn is_run(frames: &Frames, first: PhysFrame) -> bool
    ensures { result ≡ is_run frames.now first }
{
    let number = first.number();
    number % 512 == 0 && number + 511 < u64::from(frames.count())
}

// The large page that an entry of a table of the third step maps.
#[tactic(auto, unfolding(paging_core::specs::Walk::large_step))]
fn large_at(frames: &Frames, table: &Mapped, index: u16) -> Option<Mapped>
    requires table { table.now.frame < frame_count frames.now }
    requires index { index < 512 }
    ensures { option_map mapped_place result ≡ large_step frames.now (mapped_place table.now) index }
{
    let entry = frames.word(table.frame, index);
    let to = follow(frames, *table, entry)?;
    if has_bit(entry, 7) && is_run(frames, to.frame) {
        Some(to)
    } else {
        None
    }
}

/// The large page that an entry maps, of a table that was met after `level` entries.
pub fn large_entry_of(frames: &Frames, level: u32, table: &Mapped, index: u16) -> Option<Mapped>
    requires table { table.now.frame < frame_count frames.now }
    requires index { index < 512 }
    ensures { option_map mapped_place result ≡ large_entry_of frames.now level (mapped_place table.now) index }
{
    if level == 2 {
        large_at(frames, table, index)
    } else {
        None
    }
}
