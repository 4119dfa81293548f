// What the heap's bytes are.
ghost use Rattle.std.specs.Prelude.{◌≡◌, ◌<◌, ◌≤◌, ◌^◌, ◌++◌, OnOk, string_bytes};
ghost use Rattle.dlmalloc_chunks.specs.Tiling.{AreInSegments};
ghost use Rattle.heap_map.specs.Classes.{bytes_in};
ghost use Rattle.heap_map.specs.Composition.{bar_end, part_title, part_text, class_line, class_text, unasked_text, classes_text, composition_text};

use crate::classes::{Class, bytes_in, class_name, class_place, class_words, number_in};
use crate::shapes::{Area, push_rect, push_text, push_titled};
use crate::tiles::total_of;
use crate::words::{push_commas, push_percent};
use dlmalloc_chunks::Extent;
use std::alloc::{AllocError, Global};

// The bytes of the extents of a class, of which there are no more than of all.
#[tactic(auto, using(crate::proofs::Bytes::bytes_least))]
fn class_bytes(extents: &[Extent], class: Class) -> u128
    requires { AreInSegments extents.now }
    ensures value { result ≡ bytes_in class extents.now }
    ensures few { result < 2 ^ 67 }
{
    let _total = total_of(extents);
    bytes_in(extents, class)
}

// Where the first `bytes` of all bytes end in the bar.
fn bar_end(bytes: u128, total: u128) -> u128
    requires { bytes < 2 ^ 119 }
    ensures value { result ≡ bar_end bytes total }
    ensures few { result ≤ 392 }
{
    (392 * bytes / total.max(1)).min(392)
}

#[tactic(auto, unfolding(crate::specs::Composition::part_title))]
fn push_part_title(out: &mut String, class: Class, bytes: u128) -> Result<(), AllocError>
    ensures { OnOk result (string_bytes out.new ≡ string_bytes out.old ++ part_title class bytes) }
{
    out.push_str(class_words(class))?;
    out.push_str(": ")?;
    push_commas(out, bytes)?;
    out.push_str(" bytes")
}

// Puts the part of the bar at the end that a class has, if it has any.
#[tactic(auto, unfolding(crate::specs::Composition::part_text))]
fn push_part(
    alloc: Global,
    out: &mut String,
    y: u128,
    class: Class,
    before: u128,
    bytes: u128,
    total: u128,
) -> Result<(), AllocError>
    requires y { y < 2 ^ 100 }
    requires few { (before < 2 ^ 118) × (bytes < 2 ^ 118) }
    ensures { OnOk result (string_bytes out.new ≡ string_bytes out.old ++ part_text y class before bytes total) }
{
    if bytes == 0 {
        return Ok(());
    }
    let start = bar_end(before, total);
    let end = bar_end(before + bytes, total);
    let area = Area {
        x: 24 + start,
        y: y + 12,
        width: end.saturating_sub(start).max(1),
        height: 14,
    };
    let mut title = String::new(alloc);
    push_part_title(&mut title, class, bytes)?;
    push_titled(out, class_name(class), area, title.as_str())
}

// Puts the line of a class at the end.
#[tactic(auto, unfolding(crate::specs::Composition::class_line))]
fn push_class_line(
    alloc: Global,
    out: &mut String,
    y: u128,
    class: Class,
    number: u64,
    bytes: u128,
    total: u128,
) -> Result<(), AllocError>
    requires y { (10 ≤ y) × (y < 2 ^ 100) }
    requires total { total < 2 ^ 100 }
    ensures { OnOk result (string_bytes out.new ≡ string_bytes out.old ++ class_line y class number bytes total) }
{
    let area = Area {
        x: 24,
        y: y - 10,
        width: 12,
        height: 12,
    };
    push_rect(out, class_name(class), area)?;
    push_text(out, "p", 44, y, class_words(class))?;
    let mut many = String::new(alloc);
    push_commas(&mut many, u128::from(number))?;
    push_text(out, "m e", 268, y, many.as_str())?;
    let mut size = String::new(alloc);
    push_commas(&mut size, bytes)?;
    push_text(out, "m e", 360, y, size.as_str())?;
    let mut share = String::new(alloc);
    push_percent(&mut share, bytes.min(total), total)?;
    push_text(out, "m e faint", 416, y, share.as_str())
}

// Puts a class at the end, after the bytes of others.
#[tactic(auto, unfolding(crate::specs::Composition::class_text))]
fn push_class(
    alloc: Global,
    out: &mut String,
    y: u128,
    class: Class,
    before: u128,
    extents: &[Extent],
) -> Result<(), AllocError>
    requires segments { AreInSegments extents.now }
    requires y { y < 2 ^ 90 }
    requires few { before < 2 ^ 118 }
    ensures { OnOk result (string_bytes out.new ≡ string_bytes out.old ++ class_text y class before extents.now) }
{
    let bytes = class_bytes(extents, class);
    let total = total_of(extents);
    let line = y + 48 + 20 * class_place(class);
    push_part(alloc, out, y, class, before, bytes, total)?;
    push_class_line(
        alloc,
        out,
        line,
        class,
        number_in(extents, class),
        bytes,
        total,
    )
}

// Puts the bytes of blocks at the end that nobody asked for.
#[tactic(auto, unfolding(crate::specs::Composition::unasked_text))]
fn push_unasked(
    alloc: Global,
    out: &mut String,
    y: u128,
    live: u128,
    extents: &[Extent],
) -> Result<(), AllocError>
    requires { AreInSegments extents.now }
    ensures { OnOk result (string_bytes out.new ≡ string_bytes out.old ++ unasked_text y live extents.now) }
{
    push_text(out, "faint", 44, y, "in blocks, not asked for")?;
    let mut bytes = String::new(alloc);
    push_commas(
        &mut bytes,
        class_bytes(extents, Class::Block).saturating_sub(live),
    )?;
    push_text(out, "m e faint", 360, y, bytes.as_str())
}

// Puts the classes at the end, one after the other.
#[tactic(auto, unfolding(crate::specs::Composition::classes_text))]
fn push_classes(
    alloc: Global,
    out: &mut String,
    y: u128,
    extents: &[Extent],
) -> Result<(), AllocError>
    requires segments { AreInSegments extents.now }
    requires y { y < 2 ^ 90 }
    ensures { OnOk result (string_bytes out.new ≡ string_bytes out.old ++ classes_text y extents.now) }
{
    let block = class_bytes(extents, Class::Block);
    let binned = class_bytes(extents, Class::Binned);
    let victim = class_bytes(extents, Class::Victim);
    let top = class_bytes(extents, Class::Top);
    push_class(alloc, out, y, Class::Block, 0, extents)?;
    push_class(alloc, out, y, Class::Binned, block, extents)?;
    push_class(alloc, out, y, Class::Victim, block + binned, extents)?;
    push_class(alloc, out, y, Class::Top, block + binned + victim, extents)?;
    push_class(
        alloc,
        out,
        y,
        Class::Own,
        block + binned + victim + top,
        extents,
    )
}

/// Puts what the heap consists of at the end, from a base line on.
#[tactic(auto, unfolding(crate::specs::Composition::composition_text))]
pub fn push_composition(
    alloc: Global,
    out: &mut String,
    y: u128,
    live: u128,
    extents: &[Extent],
) -> Result<(), AllocError>
    requires segments { AreInSegments extents.now }
    requires y { y < 2 ^ 90 }
    ensures { OnOk result (string_bytes out.new ≡ string_bytes out.old ++ composition_text y live extents.now) }
{
    push_text(out, "q", 24, y, "What the heap consists of")?;
    push_classes(alloc, out, y, extents)?;
    push_unasked(alloc, out, y + 148, live, extents)
}
