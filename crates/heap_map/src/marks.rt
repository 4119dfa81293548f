// What is said of the extents of a row.
ghost use Rattle.std.specs.Prelude.{◌≡◌, ◌<◌, ◌≤◌, ◌+◌, ◌^◌, ◌++◌, IfOk, OnOk, string_bytes};
ghost use Rattle.heap_map.specs.Blocks.{named_at};
ghost use Rattle.heap_map.specs.Marks.{asked_words, held_words, extent_title, offset, first_cell, mark_text, piece_text, marks_text, counts_text, row_title};

use crate::blocks::{NamedBlock, block_in};
use crate::cells::held_in;
use crate::classes::{Class, kind_words};
use crate::labels::push_label;
use crate::pieces::Piece;
use crate::shapes::{Area, push_rect, push_titled};
use crate::words::{push_address, push_commas, push_counted};
use dlmalloc_chunks::Extent;
use std::alloc::{AllocError, Global};
use std::collections::BTreeMap;

// Puts a block's number and the bytes that were asked for at the end.
#[tactic(auto, unfolding(crate::specs::Marks::asked_words))]
fn push_asked(out: &mut String, block: NamedBlock) -> Result<(), AllocError>
    ensures { OnOk result (string_bytes out.new ≡ string_bytes out.old ++ asked_words block) }
{
    let number = block.number;
    write!(out, "block {number}, ")?;
    push_commas(out, u128::from(block.size))
}

fn push_held(out: &mut String, block: Option<NamedBlock>, extent: Extent) -> Result<(), AllocError>
    ensures { OnOk result (string_bytes out.new ≡ string_bytes out.old ++ held_words block extent) }
{
    match block {
        Some(block) => push_asked(out, block),
        None => out.push_str(kind_words(extent.kind)),
    }
}

/// Puts the address of an extent, what it holds, and its bytes at the end. The block is that which it holds, if it is a live one.
#[tactic(auto, unfolding(crate::specs::Marks::extent_title))]
pub fn push_title(
    out: &mut String,
    block: Option<NamedBlock>,
    extent: Extent,
) -> Result<(), AllocError>
    ensures { OnOk result (string_bytes out.new ≡ string_bytes out.old ++ extent_title block extent) }
{
    push_address(out, extent.at)?;
    out.push_str(": ")?;
    push_held(out, block, extent)?;
    out.push_str(" of ")?;
    push_commas(out, u128::from(extent.size))?;
    out.push_str(" bytes")
}

// Where an address is in a row.
fn offset(row: u128, base: u128, address: u128) -> u128
    ensures value { result ≡ offset row base address }
    ensures few { result ≤ row }
{
    address.saturating_sub(base).min(row)
}

// The first cell that begins there or later.
#[tactic(auto, using(crate::proofs::Numbers::quotient_least))]
fn first_cell(cell: u128, offset: u128) -> u128
    requires cell { (1 ≤ cell) × (cell ≤ 2 ^ 53) }
    requires offset { offset ≤ 2 ^ 53 }
    ensures value { result ≡ first_cell cell offset }
    ensures few { result ≤ 2 ^ 54 }
{
    (offset + (cell - 1)) / cell
}

// Puts a mark over the cells from one to another at the end.
#[tactic(auto, unfolding(crate::specs::Marks::mark_text))]
fn push_mark(
    alloc: Global,
    out: &mut String,
    blocks: &BTreeMap<u128, NamedBlock>,
    base: u128,
    y: u128,
    first: u128,
    last: u128,
    piece: Piece,
) -> Result<(), AllocError>
    requires y { y < 2 ^ 100 }
    requires cells { (first ≤ last) × (last ≤ 2 ^ 55) }
    ensures { OnOk result (string_bytes out.new ≡ string_bytes out.old ++ mark_text (named_at blocks.now) base y first last piece) }
{
    let x = 144 + 2 * first;
    let width = 2 * (last - first);
    if base < piece.start {
        let gap = Area {
            x,
            y,
            width: 1,
            height: 18,
        };
        push_rect(out, "paper", gap)?;
    }
    let area = Area {
        x,
        y,
        width,
        height: 18,
    };
    let block = block_in(blocks, piece.of);
    let mut title = String::new(alloc);
    push_title(&mut title, block, piece.of)?;
    push_titled(out, "none", area, title.as_str())?;
    if piece.start == u128::from(piece.of.at) {
        return push_label(alloc, out, x + 5, y + 13, width, block, piece.of);
    }
    Ok(())
}

// Puts the mark of a piece at the end, if it has four cells or more to itself.
#[tactic(auto, unfolding(crate::specs::Marks::piece_text), using(crate::proofs::Numbers::quotient_least))]
fn push_piece(
    alloc: Global,
    out: &mut String,
    blocks: &BTreeMap<u128, NamedBlock>,
    row: u128,
    base: u128,
    y: u128,
    piece: Piece,
) -> Result<(), AllocError>
    requires row { (512 ≤ row) × (row ≤ 2 ^ 53) }
    requires y { y < 2 ^ 100 }
    ensures { OnOk result (string_bytes out.new ≡ string_bytes out.old ++ piece_text (named_at blocks.now) row base y piece) }
{
    let cell = row / 512;
    let first = first_cell(cell, offset(row, base, piece.start));
    let last = offset(row, base, piece.end) / cell;
    if first + 4 <= last {
        return push_mark(alloc, out, blocks, base, y, first, last, piece);
    }
    Ok(())
}

/// Puts the marks of a row at the end.
#[tactic(auto, unfolding(crate::specs::Marks::marks_text))]
pub fn push_marks(
    alloc: Global,
    out: &mut String,
    blocks: &BTreeMap<u128, NamedBlock>,
    row: u128,
    base: u128,
    y: u128,
    line: &[Piece],
) -> Result<(), AllocError>
    requires row { (512 ≤ row) × (row ≤ 2 ^ 53) }
    requires y { y < 2 ^ 100 }
    ensures { OnOk result (string_bytes out.new ≡ string_bytes out.old ++ marks_text (named_at blocks.now) row base y line.now) }
{
    for piece in line {
        push_piece(alloc, out, blocks, row, base, y, *piece)?;
    }
    Ok(())
}

// Puts how many extents a row has at the end, and how many of its bytes are in blocks.
#[tactic(auto, unfolding(crate::specs::Marks::counts_text))]
fn push_counts(out: &mut String, number: u128, used: u128, row: u128) -> Result<(), AllocError>
    ensures { OnOk result (string_bytes out.new ≡ string_bytes out.old ++ counts_text number used row) }
{
    push_counted(out, "extent", number)?;
    out.push_str(", ")?;
    push_commas(out, used)?;
    out.push_str(" of ")?;
    push_commas(out, row)?;
    out.push_str(" bytes in blocks")
}

/// Puts what is said of a whole row at the end.
#[tactic(auto, unfolding(crate::specs::Marks::row_title))]
pub fn push_row_title(
    out: &mut String,
    row: u128,
    base: u128,
    line: &[Piece],
) -> Result<(), AllocError>
    requires row { row ≤ 2 ^ 53 }
    requires base { base < 2 ^ 64 }
    ensures { OnOk result (string_bytes out.new ≡ string_bytes out.old ++ row_title row base line.now) }
{
    let used = held_in(line, Class::Block, base, base + row);
    push_address(out, base as u64)?;
    out.push_str(": ")?;
    push_counts(out, line.len() as u128, used, row)
}
