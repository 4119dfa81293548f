// The lines of a map, one below the other.
ghost use Rattle.std.specs.Prelude.{◌≡◌, ◌<◌, ◌≤◌, ◌^◌, ◌++◌, codes, OnOk, string_bytes};
ghost use Rattle.heap_map.specs.Words.{hexadecimal};
ghost use Rattle.heap_map.specs.Shapes.{text_at};
ghost use Rattle.heap_map.specs.Blocks.{named_at};
ghost use Rattle.heap_map.specs.Pieces.{piece_lines};
ghost use Rattle.heap_map.specs.Rows.{colour, rows_words, whole_text, row_base, used_words, row_beside_text, row_text, first_piece, map_line_text, lines_text, rows_text};

use crate::blocks::{NamedBlock, block_in};
use crate::cells::{held_in, push_cells};
use crate::classes::Class;
use crate::labels::push_label;
use crate::marks::{push_marks, push_row_title, push_title};
use crate::pieces::{Piece, is_in_row, line_start, pieces_of};
use crate::shapes::{Area, push_text, push_titled};
use crate::words::{push_address, push_commas, push_percent};
use dlmalloc_chunks::{Extent, Kind};
use std::alloc::{AllocError, Global};
use std::collections::BTreeMap;

/// The last address.
const LAST: u128 = 0xffff_ffff_ffff_ffff;

// The colour of an extent, as the class of a rectangle.
fn colour(kind: Kind) -> &'static str
    ensures { result.now ≡ colour kind }
{
    match kind {
        Kind::Used => "u",
        Kind::Free => "f",
        Kind::Victim => "v",
        Kind::Top => "t",
        Kind::Record | Kind::Foot => "o",
    }
}

#[tactic(auto, unfolding(crate::specs::Rows::rows_words))]
fn push_rows_words(out: &mut String, rows: u128) -> Result<(), AllocError>
    ensures { OnOk result (string_bytes out.new ≡ string_bytes out.old ++ rows_words rows) }
{
    push_commas(out, rows)?;
    if rows == 1 {
        return out.push_str(" row");
    }
    out.push_str(" rows")
}

// Puts the address of a line at the end.
fn push_place(alloc: Global, out: &mut String, y: u128, address: u128) -> Result<(), AllocError>
    requires { address < 2 ^ 64 }
    ensures { OnOk result (string_bytes out.new ≡ string_bytes out.old ++ text_at (codes "m e faint") 134 y (hexadecimal address)) }
{
    let mut words = String::new(alloc);
    push_address(&mut words, address as u64)?;
    push_text(out, "m e faint", 134, y, words.as_str())
}

// Puts rows that lie wholly in one extent at the end.
#[tactic(auto, unfolding(crate::specs::Rows::whole_text))]
fn push_whole(
    alloc: Global,
    out: &mut String,
    blocks: &BTreeMap<u128, NamedBlock>,
    row: u128,
    base: u128,
    y: u128,
    piece: Piece,
) -> Result<(), AllocError>
    requires row { 512 ≤ row }
    requires base { base < 2 ^ 64 }
    requires y { y < 2 ^ 100 }
    ensures { OnOk result (string_bytes out.new ≡ string_bytes out.old ++ whole_text (named_at blocks.now) row base y piece) }
{
    push_place(alloc, out, y + 13, base)?;
    let area = Area {
        x: 144,
        y: y + 2,
        width: 1024,
        height: 14,
    };
    let block = block_in(blocks, piece.of);
    let mut title = String::new(alloc);
    push_title(&mut title, block, piece.of)?;
    push_titled(out, colour(piece.of.kind), area, title.as_str())?;
    if piece.start == u128::from(piece.of.at) {
        push_label(alloc, out, 149, y + 13, 1024, block, piece.of)?;
    }
    let mut words = String::new(alloc);
    push_rows_words(&mut words, piece.end.saturating_sub(piece.start) / row)?;
    push_text(out, "m e faint", 1280, y + 13, words.as_str())
}

// The address at which the row of a line begins.
#[tactic(auto, using(crate::proofs::Numbers::rest_least))]
fn row_base(row: u128, line: &[Piece]) -> u128
    requires { 512 ≤ row }
    ensures value { result ≡ row_base row line.now }
    ensures few { result < 2 ^ 64 }
{
    let start = line_start(line).min(LAST);
    start - start % row
}

#[tactic(auto, unfolding(crate::specs::Rows::used_words))]
fn push_used_words(
    out: &mut String,
    row: u128,
    base: u128,
    line: &[Piece],
) -> Result<(), AllocError>
    requires row { row ≤ 2 ^ 53 }
    requires base { base < 2 ^ 64 }
    ensures { OnOk result (string_bytes out.new ≡ string_bytes out.old ++ used_words row base line.now) }
{
    let used = held_in(line, Class::Block, base, base + row);
    push_percent(out, used.min(row), row)
}

// Puts what stands beside a row at the end, and what is said of it.
#[tactic(auto, unfolding(crate::specs::Rows::row_beside_text))]
fn push_beside(
    alloc: Global,
    out: &mut String,
    row: u128,
    base: u128,
    y: u128,
    line: &[Piece],
) -> Result<(), AllocError>
    requires row { (512 ≤ row) × (row ≤ 2 ^ 53) }
    requires base { base < 2 ^ 64 }
    requires y { y < 2 ^ 90 }
    ensures { OnOk result (string_bytes out.new ≡ string_bytes out.old ++ row_beside_text row base y line.now) }
{
    push_place(alloc, out, y + 13, base)?;
    let mut words = String::new(alloc);
    push_used_words(&mut words, row, base, line)?;
    push_text(out, "m e faint", 1280, y + 13, words.as_str())?;
    let area = Area {
        x: 144,
        y,
        width: 1024,
        height: 18,
    };
    let mut title = String::new(alloc);
    push_row_title(&mut title, row, base, line)?;
    push_titled(out, "none", area, title.as_str())
}

// Puts a row of several extents at the end, or of a part of one.
#[tactic(auto, unfolding(crate::specs::Rows::row_text), using(crate::proofs::Numbers::quotient_least))]
fn push_row(
    alloc: Global,
    out: &mut String,
    blocks: &BTreeMap<u128, NamedBlock>,
    row: u128,
    base: u128,
    y: u128,
    line: &[Piece],
) -> Result<(), AllocError>
    requires row { (512 ≤ row) × (row ≤ 2 ^ 53) }
    requires base { base < 2 ^ 64 }
    requires y { y < 2 ^ 90 }
    ensures { OnOk result (string_bytes out.new ≡ string_bytes out.old ++ row_text (named_at blocks.now) row base y line.now) }
{
    push_cells(out, row / 512, base, y, line)?;
    push_beside(alloc, out, row, base, y, line)?;
    push_marks(alloc, out, blocks, row, base, y, line)
}

// The first piece of a line.
fn first_piece(line: &[Piece]) -> Piece
    ensures { result ≡ first_piece line.now }
{
    match line.first() {
        Some(piece) => *piece,
        None => Piece {
            start: 0,
            end: 0,
            of: Extent {
                at: 0,
                size: 0,
                kind: Kind::Used,
            },
        },
    }
}

// Puts a line at the end.
fn push_line(
    alloc: Global,
    out: &mut String,
    blocks: &BTreeMap<u128, NamedBlock>,
    row: u128,
    y: u128,
    line: &[Piece],
) -> Result<(), AllocError>
    requires row { (512 ≤ row) × (row ≤ 2 ^ 53) }
    requires y { y < 2 ^ 90 }
    ensures { OnOk result (string_bytes out.new ≡ string_bytes out.old ++ map_line_text (named_at blocks.now) row y line.now) }
{
    let base = row_base(row, line);
    let piece = first_piece(line);
    if piece.end.saturating_sub(piece.start) >= row {
        return push_whole(alloc, out, blocks, row, base, y, piece);
    }
    push_row(alloc, out, blocks, row, base, y, line)
}

// Puts the lines of pieces at the end.
#[tactic(auto, using(crate::proofs::Lines::lines_step, crate::proofs::Lines::lines_last, crate::proofs::Lines::lines_first, std::proofs::lemmas::Grind::common_steps))]
fn push_lines(
    alloc: Global,
    out: &mut String,
    blocks: &BTreeMap<u128, NamedBlock>,
    row: u128,
    pieces: &[Piece],
) -> Result<(), AllocError>
    requires row { (512 ≤ row) × (row ≤ 2 ^ 53) }
    ensures { OnOk result (string_bytes out.new ≡ string_bytes out.old ++ lines_text (named_at blocks.now) row 0 (piece_lines row pieces.now)) }
{
    if pieces.is_empty() {
        return Ok(());
    }
    let (mut from, mut above) = (0, 0);
    for next in 1..pieces.len() {
        let line = &pieces[from..next];
        if !is_in_row(row, line, pieces[next]) {
            push_line(alloc, out, blocks, row, 166 + 23 * above, line)?;
            above += 1;
            from = next;
        }
    }
    push_line(alloc, out, blocks, row, 166 + 23 * above, &pieces[from..])
}

/// Puts all lines of a map at the end, with the live blocks by their addresses.
#[tactic(auto, unfolding(crate::specs::Rows::rows_text))]
pub fn push_rows(
    alloc: Global,
    out: &mut String,
    blocks: &BTreeMap<u128, NamedBlock>,
    row: u128,
    extents: &[Extent],
) -> Result<(), AllocError>
    requires row { (512 ≤ row) × (row ≤ 2 ^ 53) }
    ensures { OnOk result (string_bytes out.new ≡ string_bytes out.old ++ rows_text (named_at blocks.now) row extents.now) }
{
    let pieces = pieces_of(alloc, row, extents)?;
    push_lines(alloc, out, blocks, row, &pieces)
}
