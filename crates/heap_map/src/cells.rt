// The cells of a row.
ghost use Rattle.std.specs.Prelude.{◌≡◌, ◌<◌, ◌≤◌, ◌+◌, ◌-◌, ◌*◌, ◌^◌, ◌++◌, [], codes, min, max, nat_eq, nat_lt, if◌then◌else◌, OnOk, string_bytes};
ghost use Rattle.heap_map.specs.Classes.{is_of_class, class_name};
ghost use Rattle.heap_map.specs.Shapes.{rect};
ghost use Rattle.heap_map.specs.Cells.{held_in, pixels, most_of, drawn_cell, look_same, run_text, row_cells_text};

use crate::classes::{Class, class_name, class_place, is_in};
use crate::pieces::Piece;
use crate::shapes::{Area, push_rect};
use std::alloc::AllocError;

/// How a cell looks.
#[derive(Clone, Copy, PartialEq, Eq, Debug)]
pub struct Cell {
    /// The pixels of blocks, from the ground up.
    pub used: u128,
    /// The pixels of all extents.
    pub held: u128,
    /// The class that most of the other bytes are of.
    pub rest: Class,
}

// The bytes of a piece from one address to another, if it is of the class.
fn piece_bytes(piece: Piece, class: Class, low: u128, high: u128) -> u128
    requires { high ≤ low + 2 ^ 53 }
    ensures value { result ≡ (if is_of_class class piece.of.kind then min piece.end high - max piece.start low else 0) }
    ensures few { result ≤ 2 ^ 53 }
{
    if is_in(class, piece.of.kind) {
        piece.end.min(high).saturating_sub(piece.start.max(low))
    } else {
        0
    }
}

/// The bytes from one address to another that a line has of a class.
pub fn held_in(line: &[Piece], class: Class, low: u128, high: u128) -> u128
    requires { high ≤ low + 2 ^ 53 }
    ensures value { result ≡ held_in class low high line.now }
    ensures few { result < 2 ^ 117 }
{
    let mut bytes = 0;
    for piece in line {
        bytes += piece_bytes(*piece, class, low, high);
    }
    bytes
}

// The pixels of some bytes of a cell.
fn pixels(bytes: u128, cell: u128) -> u128
    requires bytes { bytes < 2 ^ 120 }
    requires cell { (1 ≤ cell) × (cell < 2 ^ 100) }
    ensures value { result ≡ pixels bytes cell }
    ensures few { result ≤ 18 }
{
    ((18 * bytes + (cell - 1)) / cell).min(18)
}

// The class that has most of these bytes.
fn most_of(binned: u128, victim: u128, top: u128, own: u128) -> Class
    ensures { result ≡ most_of binned victim top own }
{
    if victim <= binned && (top <= binned && own <= binned) {
        Class::Binned
    } else if top <= victim && own <= victim {
        Class::Victim
    } else if own <= top {
        Class::Top
    } else {
        Class::Own
    }
}

// How a cell looks that begins at an address.
#[tactic(auto, unfolding(crate::specs::Cells::drawn_cell))]
fn cell_at(line: &[Piece], low: u128, cell: u128) -> Cell
    requires low { low < 2 ^ 100 }
    requires cell { (1 ≤ cell) × (cell ≤ 2 ^ 53) }
    ensures value { result ≡ drawn_cell cell low line.now }
    ensures few { (result.used ≤ 18) × (result.held ≤ 18) }
{
    let high = low + cell;
    let block = held_in(line, Class::Block, low, high);
    let binned = held_in(line, Class::Binned, low, high);
    let victim = held_in(line, Class::Victim, low, high);
    let top = held_in(line, Class::Top, low, high);
    let own = held_in(line, Class::Own, low, high);
    Cell {
        used: pixels(block, cell),
        held: pixels(block + (binned + (victim + (top + own))), cell),
        rest: most_of(binned, victim, top, own),
    }
}

// Whether two cells look the same.
fn look_same(one: Cell, other: Cell) -> bool
    ensures { result ≡ look_same one other }
{
    one.used == other.used
        && (one.held == other.held && class_place(one.rest) == class_place(other.rest))
}

// Puts the blocks of cells that look the same at the end.
fn push_used(
    out: &mut String,
    y: u128,
    start: u128,
    end: u128,
    cell: Cell,
) -> Result<(), AllocError>
    requires y { y < 2 ^ 100 }
    requires cells { (start ≤ end) × (end ≤ 512) }
    requires cell { cell.used ≤ 18 }
    ensures { OnOk result (string_bytes out.new ≡ string_bytes out.old ++ (if nat_eq cell.used 0 then [] else rect (codes "u") (144 + 2 * start) (y + 18 - cell.used) (2 * (end - start)) cell.used)) }
{
    if cell.used == 0 {
        return Ok(());
    }
    let area = Area {
        x: 144 + 2 * start,
        y: y + 18 - cell.used,
        width: 2 * (end - start),
        height: cell.used,
    };
    push_rect(out, "u", area)
}

// Puts what other extents have of them at the end.
fn push_rest(
    out: &mut String,
    y: u128,
    start: u128,
    end: u128,
    cell: Cell,
) -> Result<(), AllocError>
    requires y { y < 2 ^ 100 }
    requires cells { (start ≤ end) × (end ≤ 512) }
    requires cell { cell.held ≤ 18 }
    ensures { OnOk result (string_bytes out.new ≡ string_bytes out.old ++ (if nat_lt cell.used cell.held then rect (class_name cell.rest) (144 + 2 * start) (y + 18 - cell.held) (2 * (end - start)) (cell.held - cell.used) else [])) }
{
    if cell.used < cell.held {
        let area = Area {
            x: 144 + 2 * start,
            y: y + 18 - cell.held,
            width: 2 * (end - start),
            height: cell.held - cell.used,
        };
        return push_rect(out, class_name(cell.rest), area);
    }
    Ok(())
}

// Puts cells that look the same at the end.
#[tactic(auto, unfolding(crate::specs::Cells::run_text))]
fn push_run(out: &mut String, y: u128, start: u128, end: u128, cell: Cell) -> Result<(), AllocError>
    requires y { y < 2 ^ 100 }
    requires cells { (start ≤ end) × (end ≤ 512) }
    requires cell { (cell.used ≤ 18) × (cell.held ≤ 18) }
    ensures { OnOk result (string_bytes out.new ≡ string_bytes out.old ++ run_text y start end cell) }
{
    push_used(out, y, start, end, cell)?;
    push_rest(out, y, start, end, cell)
}

// The address at which a cell begins.
#[tactic(auto, using(crate::proofs::Numbers::product_least))]
fn cell_start(base: u128, cell: u128, place: u128) -> u128
    requires base { base < 2 ^ 90 }
    requires cell { cell ≤ 2 ^ 53 }
    requires place { place ≤ 512 }
    ensures value { result ≡ base + cell * place }
    ensures few { result < 2 ^ 91 }
{
    base + cell * place
}

/// Puts the cells of a row that begins at an address at the end.
#[tactic(auto, using(crate::proofs::Bars::runs_step, crate::proofs::Bars::runs_last, std::proofs::lemmas::Grind::common_steps))]
pub fn push_cells(
    out: &mut String,
    cell: u128,
    base: u128,
    y: u128,
    line: &[Piece],
) -> Result<(), AllocError>
    requires cell { (1 ≤ cell) × (cell ≤ 2 ^ 53) }
    requires base { base < 2 ^ 90 }
    requires y { y < 2 ^ 100 }
    ensures { OnOk result (string_bytes out.new ≡ string_bytes out.old ++ row_cells_text cell base y line.now) }
{
    let mut start = 0;
    let mut same = cell_at(line, base, cell);
    for next in 1..512usize {
        let place = next as u128;
        let one = cell_at(line, cell_start(base, cell, place), cell);
        if !look_same(same, one) {
            push_run(out, y, start, place, same)?;
            start = place;
            same = one;
        }
    }
    push_run(out, y, start, 512, same)
}
