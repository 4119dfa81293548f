// The lines of a map.
ghost use Rattle.std.specs.Prelude.{◌≡◌, ◌<◌, ◌≤◌, ◌*◌, ◌/◌, ◌^◌, ◌++◌, ◌&&◌, nat_eq, nat_lt, OnOk, IfOk, length};
ghost use Rattle.heap_map.specs.Pieces.{span, row_from, cut_at_rows, pieces_of, piece_lines, map_lines, row_bytes, most_row, most_lines, line_start};

use dlmalloc_chunks::Extent;
use std::alloc::{AllocError, Global};

/// A part of an extent, from one address to another.
#[derive(Clone, Copy, PartialEq, Eq, Debug)]
pub struct Piece {
    pub start: u128,
    pub end: u128,
    pub of: Extent,
}

// Puts the part of an extent from one address to another at the end, if there is one.
fn push_span(
    pieces: &mut Vec<Piece>,
    extent: Extent,
    start: u128,
    end: u128,
) -> Result<(), AllocError>
    ensures { OnOk result (pieces.new.items ≡ pieces.old.items ++ span extent start end) }
{
    if start < end {
        let piece = Piece {
            start,
            end,
            of: extent,
        };
        pieces.push(piece)?;
    }
    Ok(())
}

// The first address from there on at which a row begins.
#[tactic(auto, using(crate::proofs::Numbers::rest_least))]
fn row_from(row: u128, address: u128) -> u128
    requires row { (512 ≤ row) × (row < 2 ^ 100) }
    requires address { address < 2 ^ 64 }
    ensures value { result ≡ row_from row address }
    ensures few { result < 2 ^ 101 }
{
    let last = address + (row - 1);
    last - last % row
}

// Puts an extent at the end, cut at its rows.
#[tactic(auto, using(crate::proofs::Numbers::rest_least))]
fn push_cut(pieces: &mut Vec<Piece>, row: u128, extent: Extent) -> Result<(), AllocError>
    requires row { (512 ≤ row) × (row < 2 ^ 100) }
    ensures { OnOk result (pieces.new.items ≡ pieces.old.items ++ cut_at_rows row extent) }
{
    let start = u128::from(extent.at);
    let end = start + u128::from(extent.size);
    let head = row_from(row, start).min(end);
    let body = (end - end % row).max(head);
    push_span(pieces, extent, start, head)?;
    push_span(pieces, extent, head, body)?;
    push_span(pieces, extent, body, end)
}

/// All extents, cut at their rows.
pub fn pieces_of(alloc: Global, row: u128, extents: &[Extent]) -> Result<Vec<Piece>, AllocError>
    requires row { (512 ≤ row) × (row < 2 ^ 100) }
    ensures { IfOk result (λ pieces. pieces.items ≡ pieces_of row extents.now) }
{
    let mut pieces = Vec::new(alloc);
    for extent in extents {
        push_cut(&mut pieces, row, *extent)?;
    }
    Ok(pieces)
}

/// The address at which a line begins.
pub fn line_start(line: &[Piece]) -> u128
    ensures { result ≡ line_start line.now }
{
    match line.first() {
        Some(piece) => piece.start,
        None => 0,
    }
}

/// Whether a piece begins in the row of a line.
pub fn is_in_row(row: u128, line: &[Piece], piece: Piece) -> bool
    requires { 512 ≤ row }
    ensures { result ≡ nat_eq (line_start line.now / row) (piece.start / row) }
{
    line_start(line) / row == piece.start / row
}

/// How many lines the pieces have.
#[tactic(auto, using(crate::proofs::Lines::lines_step, crate::proofs::Lines::lines_last, crate::proofs::Lines::lines_first, std::proofs::lemmas::Grind::common_steps))]
pub fn count_lines(row: u128, pieces: &[Piece]) -> u64
    requires { 512 ≤ row }
    ensures { result ≡ length (piece_lines row pieces.now) }
{
    if pieces.is_empty() {
        return 0;
    }
    let (mut from, mut number) = (0, 0);
    for next in 1..pieces.len() {
        if !is_in_row(row, &pieces[from..next], pieces[next]) {
            number += 1;
            from = next;
        }
    }
    number + 1
}

/// How many lines a map has.
pub fn map_lines(alloc: Global, row: u128, extents: &[Extent]) -> Result<u64, AllocError>
    requires row { (512 ≤ row) × (row < 2 ^ 100) }
    ensures { IfOk result (λ lines. lines ≡ length (map_lines row extents.now)) }
{
    let pieces = pieces_of(alloc, row, extents)?;
    Ok(count_lines(row, &pieces))
}

/// The bytes from which on a row grows no more.
const MOST_ROW: u128 = 0x10_0000_0000_0000;

// Whether a row grows that takes this many lines.
fn grows(row: u128, lines: u64) -> bool
    ensures { result ≡ (nat_lt row most_row && nat_lt most_lines lines) }
{
    row < MOST_ROW && lines > 20
}

/// The bytes of a row: the least power of two from 512 on with which the map has at most 20 lines.
#[tactic(auto, using(crate::proofs::Lines::grown_step, crate::proofs::Lines::grown_last, crate::proofs::Lines::grown_begin))]
pub fn row_bytes(alloc: Global, extents: &[Extent]) -> Result<u128, AllocError>
    ensures value { IfOk result (λ row. row ≡ row_bytes extents.now) }
    ensures bounds { IfOk result (λ row. (512 ≤ row) × (row ≤ 2 ^ 53)) }
{
    let mut row = 512;
    for times in 0u64..50 {
        let lines = map_lines(alloc, row, extents)?;
        if grows(row, lines) {
            row *= 2;
        } else {
            return Ok(row);
        }
    }
    Ok(row)
}
