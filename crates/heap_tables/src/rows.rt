// Lines of page tables as rows of a drawing.
ghost use Rattle.std.specs.Prelude.{◌≡◌, ◌<◌, ◌+◌, ◌-◌, ◌^◌, ◌++◌, OnOk, string_bytes};
ghost use Rattle.heap_tables.specs.Rows.{rights_in, line_pages, is_table, has_large_pages, entries_of, frames_of, owner_words, owner_class, line_class, pages_words, line_words, frames_range, frames_words, entries_words, whose_words, line_title, line_mark_text, guides_text, line_left, owner_in_row, said_text, row_words_text, strip_text, table_row_text};

use crate::lines::Line;
use crate::owners::{Owner, address_of};
use call_lines::push_rights;
use heap_map::{Area, push_address, push_commas, push_counted, push_rect, push_text, push_titled};
use paging_core::{PageBits, Rights};
use std::alloc::{AllocError, Global};

// The rights among the bits of a page, which is what a row says of them.
fn rights_in(bits: PageBits) -> Rights
    ensures { result ≡ rights_in bits }
{
    Rights {
        write: bits.write,
        user: bits.user,
        fetch: bits.fetch,
    }
}

/// How many pages a line maps.
pub fn pages_of(line: Line) -> u64
    ensures { result ≡ line_pages line }
{
    line.end.saturating_sub(line.page)
}

/// Whether a line is that of a table.
pub fn is_table(line: Line) -> bool
    ensures { result ≡ is_table line }
{
    pages_of(line) == 0
}

/// Whether a line of pages is one of large pages.
pub fn is_large(line: Line) -> bool
    ensures { result ≡ has_large_pages line }
{
    line.steps == 3
}

// How many entries lead to a line.
fn entries_of(line: Line) -> u64
    ensures { result ≡ entries_of line }
{
    if is_table(line) {
        1
    } else if is_large(line) {
        pages_of(line) / 512
    } else {
        pages_of(line)
    }
}

/// How many frames a line has.
pub fn frames_of(line: Line) -> u64
    ensures { result ≡ frames_of line }
{
    pages_of(line).max(1)
}

// Whose pages are, as a word.
fn owner_words(owner: Owner) -> &'static str
    ensures { result.now ≡ owner_words owner }
{
    match owner {
        Owner::Heap => "heap",
        Owner::User => "user",
    }
}

// The colour of an owner's pages.
fn owner_class(owner: Owner) -> &'static str
    ensures { result.now ≡ owner_class owner }
{
    match owner {
        Owner::Heap => "u",
        Owner::User => "w",
    }
}

/// The colour of a line.
pub fn line_class(line: Line) -> &'static str
    ensures { result.now ≡ line_class line }
{
    if is_table(line) {
        "o"
    } else {
        owner_class(line.owner)
    }
}

#[tactic(auto, unfolding(crate::specs::Rows::pages_words))]
fn push_pages_words(out: &mut String, line: Line) -> Result<(), AllocError>
    ensures { OnOk result (string_bytes out.new ≡ string_bytes out.old ++ pages_words line) }
{
    let thing = if is_large(line) { "large page" } else { "page" };
    push_counted(out, thing, u128::from(entries_of(line)))
}

#[tactic(auto, unfolding(crate::specs::Rows::line_words))]
fn push_line_words(out: &mut String, line: Line) -> Result<(), AllocError>
    ensures { OnOk result (string_bytes out.new ≡ string_bytes out.old ++ line_words line) }
{
    if is_table(line) {
        if line.steps == 0 {
            return out.push_str("root table");
        }
        out.push_str("table from ")?;
        return push_address(out, address_of(line.page));
    }
    push_address(out, address_of(line.page))?;
    out.push_str(" + ")?;
    push_pages_words(out, line)
}

// The last of `count` numbers from `first` on.
fn last_of(first: u64, count: u64) -> u128
    ensures { result ≡ first + count - 1 }
{
    (u128::from(first) + u128::from(count)).saturating_sub(1)
}

#[tactic(auto, unfolding(crate::specs::Rows::frames_range))]
fn push_frames_range(out: &mut String, line: Line) -> Result<(), AllocError>
    ensures { OnOk result (string_bytes out.new ≡ string_bytes out.old ++ frames_range line) }
{
    let frames = frames_of(line);
    if frames == 1 {
        return push_commas(out, u128::from(line.frame));
    }
    push_commas(out, u128::from(line.frame))?;
    out.push_str(" to ")?;
    push_commas(out, last_of(line.frame, frames))
}

#[tactic(auto, unfolding(crate::specs::Rows::frames_words))]
fn push_frames(out: &mut String, line: Line) -> Result<(), AllocError>
    ensures { OnOk result (string_bytes out.new ≡ string_bytes out.old ++ frames_words line) }
{
    if frames_of(line) == 1 {
        out.push_str("frame ")?;
        return push_frames_range(out, line);
    }
    out.push_str("frames ")?;
    push_frames_range(out, line)
}

#[tactic(auto, unfolding(crate::specs::Rows::entries_words))]
fn push_entries(out: &mut String, line: Line) -> Result<(), AllocError>
    ensures { OnOk result (string_bytes out.new ≡ string_bytes out.old ++ entries_words line) }
{
    let entries = entries_of(line);
    if entries == 1 {
        out.push_str("entry ")?;
        return push_commas(out, u128::from(line.index));
    }
    out.push_str("entries ")?;
    push_commas(out, u128::from(line.index))?;
    out.push_str(" to ")?;
    push_commas(out, last_of(line.index, entries))
}

// Puts whose the pages of a line are at the end.
#[tactic(auto, unfolding(crate::specs::Rows::whose_words))]
fn push_whose(out: &mut String, line: Line) -> Result<(), AllocError>
    ensures { OnOk result (string_bytes out.new ≡ string_bytes out.old ++ whose_words line) }
{
    if is_table(line) {
        return Ok(());
    }
    out.push_str(owner_words(line.owner))?;
    out.push_str(" ")
}

#[tactic(auto, unfolding(crate::specs::Rows::line_title))]
fn push_title(out: &mut String, line: Line) -> Result<(), AllocError>
    ensures { OnOk result (string_bytes out.new ≡ string_bytes out.old ++ line_title line) }
{
    push_line_words(out, line)?;
    out.push_str(", ")?;
    push_whose(out, line)?;
    push_rights(out, rights_in(line.rights))?;
    out.push_str(", ")?;
    push_frames(out, line)
}

// Puts a mark of a line at the end. Its lower half shows large pages.
#[tactic(auto, unfolding(crate::specs::Rows::line_mark_text))]
fn push_mark(out: &mut String, area: Area, line: Line, title: &str) -> Result<(), AllocError>
    requires y { area.y < 2 ^ 110 }
    requires height { area.height < 2 ^ 100 }
    ensures { OnOk result (string_bytes out.new ≡ string_bytes out.old ++ line_mark_text area.x area.y area.width area.height line title.now) }
{
    push_titled(out, line_class(line), area, title)?;
    if is_table(line) {
        return Ok(());
    }
    if !is_large(line) {
        return Ok(());
    }
    let half = area.height / 2;
    let lower = Area {
        x: area.x,
        y: area.y + half,
        width: area.width,
        height: half,
    };
    push_titled(out, "l", lower, title)
}

// Puts a thin line below each table on the way at the end; there are `steps` of them.
#[tactic(auto, using(crate::proofs::Steps::guides_step, std::proofs::lemmas::Grind::common_steps))]
fn push_guides(out: &mut String, y: u128, steps: u32) -> Result<(), AllocError>
    ensures { OnOk result (string_bytes out.new ≡ string_bytes out.old ++ guides_text y steps) }
{
    for step in 0..steps {
        let area = Area {
            x: 30 + 24 * u128::from(step),
            y,
            width: 1,
            height: 22,
        };
        push_rect(out, "line", area)?;
    }
    Ok(())
}

// The place of a line.
fn left_of(line: Line) -> u128
    ensures value { result ≡ line_left line }
    ensures few { result < 2 ^ 40 }
{
    24 + 24 * u128::from(line.steps)
}

// Puts whose the pages are at the end.
#[tactic(auto, unfolding(crate::specs::Rows::owner_in_row))]
fn push_owner(out: &mut String, y: u128, line: Line) -> Result<(), AllocError>
    requires { y < 2 ^ 100 }
    ensures { OnOk result (string_bytes out.new ≡ string_bytes out.old ++ owner_in_row y line) }
{
    if is_table(line) {
        return Ok(());
    }
    push_text(out, "m", 362, y + 15, owner_words(line.owner))
}

// Puts what is said in a row at the end.
#[tactic(auto, unfolding(crate::specs::Rows::said_text))]
fn push_said(alloc: Global, out: &mut String, y: u128, line: Line) -> Result<(), AllocError>
    requires { y < 2 ^ 100 }
    ensures { OnOk result (string_bytes out.new ≡ string_bytes out.old ++ said_text y line) }
{
    let mut words = String::new(alloc);
    push_line_words(&mut words, line)?;
    push_text(out, "m", left_of(line) + 20, y + 15, words.as_str())?;
    push_owner(out, y, line)?;
    let mut rights = String::new(alloc);
    push_rights(&mut rights, rights_in(line.rights))?;
    push_text(out, "m faint", 416, y + 15, rights.as_str())?;
    let mut frames = String::new(alloc);
    push_frames_range(&mut frames, line)?;
    push_text(out, "m faint", 466, y + 15, frames.as_str())
}

// Puts what stands in a row at the end.
#[tactic(auto, unfolding(crate::specs::Rows::row_words_text))]
fn push_words(alloc: Global, out: &mut String, y: u128, line: Line) -> Result<(), AllocError>
    requires { y < 2 ^ 100 }
    ensures { OnOk result (string_bytes out.new ≡ string_bytes out.old ++ row_words_text y line) }
{
    let area = Area {
        x: left_of(line),
        y: y + 4,
        width: 12,
        height: 14,
    };
    let mut title = String::new(alloc);
    push_title(&mut title, line)?;
    push_mark(out, area, line, title.as_str())?;
    push_said(alloc, out, y, line)
}

// Puts the entries of a line at the end, as a part of their table.
#[tactic(auto, unfolding(crate::specs::Rows::strip_text))]
fn push_strip(alloc: Global, out: &mut String, y: u128, line: Line) -> Result<(), AllocError>
    requires { y < 2 ^ 100 }
    ensures { OnOk result (string_bytes out.new ≡ string_bytes out.old ++ strip_text y line) }
{
    if line.steps == 0 {
        return Ok(());
    }
    let mut entries = String::new(alloc);
    push_entries(&mut entries, line)?;
    push_text(out, "m e faint", 756, y + 15, entries.as_str())?;
    let ground = Area {
        x: 768,
        y: y + 8,
        width: 512,
        height: 6,
    };
    push_rect(out, "line", ground)?;
    let area = Area {
        x: 768 + u128::from(line.index),
        y: y + 5,
        width: u128::from(entries_of(line)),
        height: 12,
    };
    push_mark(out, area, line, entries.as_str())
}

/// Puts a row at the end.
#[tactic(auto, unfolding(crate::specs::Rows::table_row_text))]
pub fn push_row(alloc: Global, out: &mut String, y: u128, line: Line) -> Result<(), AllocError>
    requires { y < 2 ^ 100 }
    ensures { OnOk result (string_bytes out.new ≡ string_bytes out.old ++ table_row_text y line) }
{
    push_guides(out, y, line.steps)?;
    push_words(alloc, out, y, line)?;
    push_strip(alloc, out, y, line)
}
