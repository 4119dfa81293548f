// The drawing of page tables.
ghost use Rattle.std.specs.Prelude.{◌≡◌, ◌<◌, ◌≤◌, ◌+◌, ◌^◌, ◌++◌, ◌*◌, nat_lt, if◌then◌else◌, length, drop, take, OnOk, string_bytes};
ghost use Rattle.std.specs.List.{sum_by, list_any};
ghost use Rattle.heap_tables.specs.Rows.{line_pages};
ghost use Rattle.heap_tables.specs.Uses.{same_use, uses_of};
ghost use Rattle.heap_tables.specs.Tables.{table_rows_text, rows_shown, more_words, more_text, list_text, lines_heading, entries_heading, title_words, columns_heading, heading_text, use_class, use_words, one_words, count_words, count_text, frames_legend_text, main_use, square_frames, square_title, square_text, squares_text, squares_number, scale_words, frames_text, below_rows, tables_height, tables_text};

use crate::lines::Line;
use crate::rows::{pages_of, push_row};
use crate::uses::{Use, number_of, same_use, uses_of};
use heap_map::{Area, push_commas, push_counted, push_rect, push_text, push_titled};
use std::alloc::{AllocError, Global};

// Puts rows at the end, one below the other.
fn push_rows(alloc: Global, out: &mut String, y: u128, lines: &[Line]) -> Result<(), AllocError>
    requires { y < 2 ^ 90 }
    ensures { OnOk result (string_bytes out.new ≡ string_bytes out.old ++ table_rows_text y lines.now) }
{
    let mut below = y;
    for line in lines {
        push_row(alloc, out, below, *line)?;
        below += 22;
    }
    Ok(())
}

// How many of the lines have room.
fn rows_shown(lines: usize) -> usize
    ensures value { result ≡ rows_shown lines }
    ensures few { result ≤ lines }
    ensures room { result ≤ 200 }
{
    if lines <= 200 { lines } else { 199 }
}

// The pages of all lines.
fn all_pages(lines: &[Line]) -> u128
    ensures { result ≡ sum_by line_pages lines.now }
{
    let mut pages = 0;
    for line in lines {
        pages += u128::from(pages_of(*line));
    }
    pages
}

#[tactic(auto, unfolding(crate::specs::Tables::more_words))]
fn push_more_words(out: &mut String, lines: u128, pages: u128) -> Result<(), AllocError>
    ensures { OnOk result (string_bytes out.new ≡ string_bytes out.old ++ more_words lines pages) }
{
    out.push_str("and ")?;
    push_commas(out, lines)?;
    out.push_str(" lines more, of ")?;
    push_counted(out, "page", pages)
}

// Puts how many lines there are more at the end, if there are any.
#[tactic(auto, unfolding(crate::specs::Tables::more_text))]
fn push_more(alloc: Global, out: &mut String, y: u128, lines: &[Line]) -> Result<(), AllocError>
    requires { y < 2 ^ 100 }
    ensures { OnOk result (string_bytes out.new ≡ string_bytes out.old ++ more_text y lines.now) }
{
    if lines.len() == 0 {
        return Ok(());
    }
    let mut words = String::new(alloc);
    push_more_words(&mut words, lines.len() as u128, all_pages(lines))?;
    push_text(out, "faint", 24, y + 15, words.as_str())
}

// Puts the lines at the end that have room, and counts the others.
#[tactic(auto, unfolding(crate::specs::Tables::list_text))]
fn push_list(alloc: Global, out: &mut String, lines: &[Line]) -> Result<(), AllocError>
    ensures { OnOk result (string_bytes out.new ≡ string_bytes out.old ++ list_text lines.now) }
{
    let shown = rows_shown(lines.len());
    push_rows(alloc, out, 96, &lines[..shown])?;
    push_more(alloc, out, 96 + 22 * shown as u128, &lines[shown..])
}

#[tactic(auto, unfolding(crate::specs::Tables::lines_heading))]
fn lines_heading() -> &'static str
    ensures { result.now ≡ lines_heading }
{
    "tables, and what their entries map"
}

#[tactic(auto, unfolding(crate::specs::Tables::entries_heading))]
fn entries_heading() -> &'static str
    ensures { result.now ≡ entries_heading }
{
    "the entries, of the 512 of their table"
}

#[tactic(auto, unfolding(crate::specs::Tables::title_words))]
fn title_words() -> &'static str
    ensures { result.now ≡ title_words }
{
    "The page tables after a run"
}

// Puts what the columns are at the end.
#[tactic(auto, unfolding(crate::specs::Tables::columns_heading))]
fn push_columns(out: &mut String) -> Result<(), AllocError>
    ensures { OnOk result (string_bytes out.new ≡ string_bytes out.old ++ columns_heading) }
{
    push_text(out, "q", 24, 76, lines_heading())?;
    push_text(out, "q", 362, 76, "owner")?;
    push_text(out, "q", 416, 76, "rights")?;
    push_text(out, "q", 466, 76, "frames")?;
    push_text(out, "q", 768, 76, entries_heading())
}

// Puts what stands above the rows at the end.
#[tactic(auto, unfolding(crate::specs::Tables::heading_text))]
fn push_heading(out: &mut String) -> Result<(), AllocError>
    ensures { OnOk result (string_bytes out.new ≡ string_bytes out.old ++ heading_text) }
{
    push_text(out, "h", 24, 40, title_words())?;
    push_columns(out)
}

// The colour of a use.
fn use_class(of: Use) -> &'static str
    ensures { result.now ≡ use_class of }
{
    match of {
        Use::Table => "o",
        Use::Large => "l",
        Use::HeapPage => "u",
        Use::UserPage => "w",
        Use::Free => "line",
    }
}

// What frames of a use are called.
fn use_words(of: Use) -> &'static str
    ensures { result.now ≡ use_words of }
{
    match of {
        Use::Table => "tables",
        Use::Large => "in large pages",
        Use::HeapPage => "pages of the heap",
        Use::UserPage => "pages of the user",
        Use::Free => "free",
    }
}

// What one frame of a use is called.
fn one_words(of: Use) -> &'static str
    ensures { result.now ≡ one_words of }
{
    match of {
        Use::Table => "table",
        Use::Large => "in a large page",
        Use::HeapPage => "page of the heap",
        Use::UserPage => "page of the user",
        Use::Free => "free",
    }
}

#[tactic(auto, unfolding(crate::specs::Tables::count_words))]
fn push_count_words(out: &mut String, of: Use, number: u64) -> Result<(), AllocError>
    ensures { OnOk result (string_bytes out.new ≡ string_bytes out.old ++ count_words of number) }
{
    push_commas(out, u128::from(number))?;
    out.push_str(" ")?;
    out.push_str(if number == 1 {
        one_words(of)
    } else {
        use_words(of)
    })
}

// Puts a use in the legend at the end, with its frames.
#[tactic(auto, unfolding(crate::specs::Tables::count_text))]
fn push_count(
    alloc: Global,
    out: &mut String,
    x: u128,
    y: u128,
    of: Use,
    uses: &[Use],
) -> Result<(), AllocError>
    requires x { x < 2 ^ 100 }
    requires y { (10 ≤ y) × (y < 2 ^ 100) }
    ensures { OnOk result (string_bytes out.new ≡ string_bytes out.old ++ count_text x y of uses.now) }
{
    let area = Area {
        x,
        y: y - 10,
        width: 12,
        height: 12,
    };
    push_rect(out, use_class(of), area)?;
    let mut words = String::new(alloc);
    push_count_words(&mut words, of, number_of(uses, of))?;
    push_text(out, "p", x + 18, y, words.as_str())
}

// Puts the uses at the end, each with its frames.
#[tactic(auto, unfolding(crate::specs::Tables::frames_legend_text))]
fn push_legend(alloc: Global, out: &mut String, y: u128, uses: &[Use]) -> Result<(), AllocError>
    requires { (10 ≤ y) × (y < 2 ^ 100) }
    ensures { OnOk result (string_bytes out.new ≡ string_bytes out.old ++ frames_legend_text y uses.now) }
{
    push_text(out, "q", 24, y, "Frames")?;
    push_count(alloc, out, 104, y, Use::Table, uses)?;
    push_count(alloc, out, 272, y, Use::HeapPage, uses)?;
    push_count(alloc, out, 506, y, Use::UserPage, uses)?;
    push_count(alloc, out, 740, y, Use::Large, uses)?;
    push_count(alloc, out, 952, y, Use::Free, uses)
}

// Whether some frames are used so.
#[tactic(auto, using(std::proofs::lemmas::Grind::common_steps))]
fn are_some(uses: &[Use], of: Use) -> bool
    ensures { result ≡ list_any (same_use of) uses.now }
{
    for one in uses {
        if same_use(of, *one) {
            return true;
        }
    }
    false
}

// The first use that some frames have, of a table, a large page, a page of the user and one of the heap.
fn main_use(uses: &[Use]) -> Use
    ensures { result ≡ main_use uses.now }
{
    if are_some(uses, Use::Table) {
        Use::Table
    } else if are_some(uses, Use::Large) {
        Use::Large
    } else if are_some(uses, Use::UserPage) {
        Use::UserPage
    } else if are_some(uses, Use::HeapPage) {
        Use::HeapPage
    } else {
        Use::Free
    }
}

// Twice as many frames for a square, if there are more than 1,024 squares.
fn doubled(of: usize, frames: usize) -> usize
    requires { of ≤ 2 ^ 41 }
    ensures value { result ≡ (if nat_lt (1024 * of) frames then 2 * of else of) }
    ensures some { 1 ≤ of → 1 ≤ result }
    ensures few { of ≤ frames + 1 → result ≤ frames + 1 }
{
    if 1024 * of < frames { 2 * of } else { of }
}

// How many frames a square stands for.
#[tactic(auto, using(crate::proofs::Squares::grown_step, crate::proofs::Squares::grown_last, std::proofs::lemmas::Grind::common_steps))]
fn square_frames(frames: usize) -> usize
    requires { frames < 2 ^ 40 }
    ensures value { result ≡ square_frames frames }
    ensures some { 1 ≤ result }
    ensures few { result ≤ frames + 1 }
{
    let mut of = 1;
    for _times in 0..22usize {
        of = doubled(of, frames);
    }
    of
}

#[tactic(auto, unfolding(crate::specs::Tables::square_title))]
fn push_square_title(out: &mut String, first: u128, last: u128, of: Use) -> Result<(), AllocError>
    ensures { OnOk result (string_bytes out.new ≡ string_bytes out.old ++ square_title first last of) }
{
    if first == last {
        out.push_str("frame ")?;
        push_commas(out, first)?;
        out.push_str(": ")?;
        return out.push_str(one_words(of));
    }
    out.push_str("frames ")?;
    push_commas(out, first)?;
    out.push_str(" to ")?;
    push_commas(out, last)?;
    out.push_str(": ")?;
    out.push_str(use_words(of))
}

// The frames from one on, at most this many of them.
#[tactic(auto, using(std::proofs::lemmas::Grind::common_steps))]
fn part_of(uses: &[Use], first: usize, of: usize) -> &[Use]
    requires { first ≤ length uses.now }
    ensures { result.now ≡ take of (drop first uses.now) }
{
    let rest = &uses[first..];
    if of < rest.len() { &rest[..of] } else { rest }
}

// Puts a square at the end.
#[tactic(auto, unfolding(crate::specs::Tables::square_text))]
fn push_square(
    alloc: Global,
    out: &mut String,
    y: u128,
    of: usize,
    number: usize,
    uses: &[Use],
) -> Result<(), AllocError>
    requires y { y < 2 ^ 100 }
    requires of { (1 ≤ of) × (of < 2 ^ 50) }
    requires number { of * number < length uses.now }
    ensures { OnOk result (string_bytes out.new ≡ string_bytes out.old ++ square_text y of number uses.now) }
{
    let first = of * number;
    let main = main_use(part_of(uses, first, of));
    let area = Area {
        x: 24 + 9 * (number as u128 % 128),
        y: y + 9 * (number as u128 / 128),
        width: 8,
        height: 8,
    };
    let last = (first as u128 + of as u128)
        .min(uses.len() as u128)
        .saturating_sub(1);
    let mut title = String::new(alloc);
    push_square_title(&mut title, first as u128, last, main)?;
    push_titled(out, use_class(main), area, title.as_str())
}

// How many squares there are.
fn squares_number(of: usize, frames: usize) -> usize
    requires of { (1 ≤ of) × (of < 2 ^ 50) }
    requires frames { frames < 2 ^ 40 }
    ensures { result ≡ squares_number of frames }
{
    (frames + (of - 1)) / of
}

// Puts all squares at the end.
#[tactic(auto, using(crate::proofs::Steps::squares_step, crate::proofs::Drawn::square_within, std::proofs::lemmas::Grind::common_steps))]
fn push_squares(
    alloc: Global,
    out: &mut String,
    y: u128,
    of: usize,
    uses: &[Use],
) -> Result<(), AllocError>
    requires y { y < 2 ^ 100 }
    requires of { (1 ≤ of) × (of < 2 ^ 50) }
    requires frames { length uses.now < 2 ^ 40 }
    ensures { OnOk result (string_bytes out.new ≡ string_bytes out.old ++ squares_text y of uses.now (squares_number of (length uses.now))) }
{
    for number in 0..squares_number(of, uses.len()) {
        push_square(alloc, out, y, of, number, uses)?;
    }
    Ok(())
}

#[tactic(auto, unfolding(crate::specs::Tables::scale_words))]
fn push_scale(out: &mut String, of: u128) -> Result<(), AllocError>
    ensures { OnOk result (string_bytes out.new ≡ string_bytes out.old ++ scale_words of) }
{
    out.push_str("frames in each square: ")?;
    push_commas(out, of)
}

// Puts the frames at the end, from a base line on.
#[tactic(auto, unfolding(crate::specs::Tables::frames_text))]
fn push_frames(alloc: Global, out: &mut String, y: u128, uses: &[Use]) -> Result<(), AllocError>
    requires y { (10 ≤ y) × (y < 2 ^ 90) }
    requires frames { length uses.now < 2 ^ 40 }
    ensures { OnOk result (string_bytes out.new ≡ string_bytes out.old ++ frames_text y uses.now) }
{
    push_legend(alloc, out, y, uses)?;
    let of = square_frames(uses.len());
    let mut words = String::new(alloc);
    push_scale(&mut words, of as u128)?;
    push_text(out, "e faint", 1280, y, words.as_str())?;
    push_squares(alloc, out, y + 12, of, uses)
}

/// The height of the drawing, by the number of its lines.
pub fn tables_height(lines: usize) -> u128
    ensures value { result ≡ tables_height lines }
{
    below_rows(lines) + 12 + 72 + 16
}

// The base line of the frames, below the rows.
fn below_rows(lines: usize) -> u128
    ensures value { result ≡ below_rows lines }
    ensures few { (10 ≤ result) × (result < 2 ^ 20) }
{
    96 + 22 * (lines as u128).min(200) + 36
}

/// Puts the drawing of page tables at the end, by their lines: a row for each, and below them the frames of the memory, by
/// their use. `frames` is how many frames the memory has.
#[tactic(auto, unfolding(crate::specs::Tables::tables_text), using(crate::proofs::Drawn::uses_number))]
pub fn push_tables(
    alloc: Global,
    out: &mut String,
    lines: &[Line],
    frames: u32,
) -> Result<(), AllocError>
    ensures { OnOk result (string_bytes out.new ≡ string_bytes out.old ++ tables_text lines.now frames) }
{
    let uses = uses_of(alloc, lines, frames)?;
    push_heading(out)?;
    push_list(alloc, out, lines)?;
    push_frames(alloc, out, below_rows(lines.len()), &uses)
}
