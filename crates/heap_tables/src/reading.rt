// The lines of page tables, read from their words.
ghost use Rattle.std.specs.Prelude.{◌≡◌, ◌+◌, ◌-◌, ◌*◌, ◌<◌, ◌≤◌, ◌^◌, ◌++◌, IfOk, OnOk};
ghost use Rattle.std.specs.Option.{option_map};
ghost use Rattle.paging_core.specs.Memory.{frame_count};
ghost use Rattle.paging_core.specs.Walk.{mapped_place};
ghost use Rattle.heap_tables.specs.Lines.{line_of, large_lines, large_entry_of, lowest_page_below, entry_lines, lines_under};
ghost use Rattle.heap_tables.specs.Joining.{joined_table_lines};
ghost use Rattle.heap_tables.specs.Owners.{AreOwnedAscending};
ghost use Rattle.heap_tables.specs.Walked.{AreWalked, AreOwned};

use crate::entries::{large_entry_of, next};
use crate::joining::joined;
use crate::lines::Line;
use crate::owners::{Owned, owner_of};
use paging_core::{Frames, Mapped, PageBits, PhysFrame};
use std::alloc::{AllocError, Global};

// The line of a place at which a walk arrives.
fn line_of(regions: &[Owned], steps: u32, index: u64, page: u64, end: u64, place: &Mapped) -> Line
    requires { AreOwnedAscending regions.now }
    ensures { result ≡ line_of regions.now steps index page end (mapped_place place.now) }
{
    Line {
        steps,
        index,
        page,
        end,
        frame: place.frame.number(),
        owner: owner_of(regions, page),
        rights: PageBits {
            write: place.write,
            user: place.user,
            fetch: place.fetch,
            through: place.through,
            uncached: place.uncached,
            global: place.global,
        },
    }
}

// The first page below a place from which `left` more entries lead to a page.
fn first_page(left: u32, number: u64) -> u64
    requires left { left ≤ 4 }
    requires number { number < 512 ^ (4 - left) }
    ensures { result ≡ lowest_page_below left number }
{
    match left {
        0 => number,
        1 => 512 * number,
        2 => 262_144 * number,
        3 => 134_217_728 * number,
        _ => 0,
    }
}

// Puts the line of a large page at the end, if there is one.
fn push_large(
    lines: &mut Vec<Line>,
    regions: &[Owned],
    number: u64,
    large: Option<Mapped>,
) -> Result<(), AllocError>
    requires ascending { AreOwnedAscending regions.now }
    requires number { number < 2 ^ 36 }
    ensures { OnOk result (lines.new.items ≡ lines.old.items ++ large_lines regions.now number (option_map mapped_place large)) }
{
    match large {
        Some(place) => {
            let page = 512 * number;
            let line = line_of(regions, 3, number % 512, page, page + 512, &place);
            lines.push(line)?;
            Ok(())
        }
        None => Ok(()),
    }
}

// The indices of a table and of an entry of it, as a number in base 512. From the table `left` entries lead to a page.
fn below_of(left: u32, number: u64, index: u64) -> u64
    requires left { (1 ≤ left) × (left ≤ 4) }
    requires number { number < 512 ^ (4 - left) }
    requires index { index < 512 }
    ensures value { result ≡ 512 * number + index }
    ensures few { result < 512 ^ (4 - (left - 1)) }
    ensures low { result < 2 ^ 36 }
{
    let below = 512 * number + index;
    below
}

// Puts what an entry leads to at the end, of a table from which `left` entries lead to a page.
#[cycle(under)]
fn push_entry(
    lines: &mut Vec<Line>,
    frames: &Frames,
    regions: &[Owned],
    left: u32,
    number: u64,
    table: &Mapped,
    index: u64,
) -> Result<(), AllocError>
    requires ascending { AreOwnedAscending regions.now }
    requires left { (1 ≤ left) × (left ≤ 4) }
    requires number { number < 512 ^ (4 - left) }
    requires table { table.now.frame < frame_count frames.now }
    requires index { index < 512 }
    ensures { OnOk result (lines.new.items ≡ lines.old.items ++ entry_lines frames.now regions.now (lines_under frames.now regions.now (left - 1)) (4 - left) number (mapped_place table.now) index) }
{
    let level = 4 - left;
    let below = below_of(left, number, index);
    let large = large_entry_of(frames, level, table, index as u16);
    push_large(lines, regions, below, large)?;
    match next(frames, level, table, index as u16) {
        Some(place) => push_under(lines, frames, regions, left - 1, below, &place),
        None => Ok(()),
    }
}

// Puts a place at the end, and what is below it.
#[cycle(under)]
#[tactic(auto, using(crate::proofs::Numbers::few_pages, crate::proofs::Under::under_page, crate::proofs::Under::under_table, crate::proofs::Steps::entries_step, std::proofs::lemmas::Grind::common_steps))]
fn push_under(
    lines: &mut Vec<Line>,
    frames: &Frames,
    regions: &[Owned],
    left: u32,
    number: u64,
    place: &Mapped,
) -> Result<(), AllocError>
    requires ascending { AreOwnedAscending regions.now }
    requires left { left ≤ 4 }
    requires number { number < 512 ^ (4 - left) }
    requires place { place.now.frame < frame_count frames.now }
    ensures { OnOk result (lines.new.items ≡ lines.old.items ++ lines_under frames.now regions.now left number (mapped_place place.now)) }
{
    if left == 0 {
        lines.push(line_of(regions, 4, number % 512, number, number + 1, place))?;
        return Ok(());
    }
    let page = first_page(left, number);
    lines.push(line_of(regions, 4 - left, number % 512, page, page, place))?;
    for index in 0..512 {
        push_entry(lines, frames, regions, left, number, place, index)?;
    }
    Ok(())
}

/// The lines of page tables: the root and each table, and below it what its entries lead to, in order. What a line says of
/// its pages is what [`paging_core::walk`] finds, and a page in no line is not mapped. By regions of ascending addresses a
/// line says whose its pages are, if the pages of each large page have one owner.
pub fn table_lines(
    alloc: Global,
    frames: &Frames,
    regions: &[Owned],
    root: PhysFrame,
) -> Result<Vec<Line>, AllocError>
    requires root { root < frame_count frames.now }
    requires ascending { AreOwnedAscending regions.now }
    ensures lines { IfOk result (λ lines. lines.items ≡ joined_table_lines frames.now regions.now root) }
    ensures walked { IfOk result (λ lines. AreWalked frames.now root lines.items) }
    ensures owned { IfOk result (λ lines. AreOwned frames.now regions.now root lines.items) }
{
    let mut lines = Vec::new(alloc);
    push_under(&mut lines, frames, regions, 4, 0, &Mapped::full(root))?;
    let all = joined(alloc, &lines)?;
    Ok(all)
}
