// What is written on extents.
ghost use Rattle.std.specs.Prelude.{◌≡◌, ◌++◌, OnOk, string_bytes};
ghost use Rattle.heap_map.specs.Labels.{size_label, kind_label, number_label, block_label, fits, name_text, kind_text, label_text};

use crate::blocks::NamedBlock;
use crate::classes::{kind_words, letters};
use crate::shapes::push_text;
use crate::words::push_commas;
use dlmalloc_chunks::Extent;
use std::alloc::{AllocError, Global};

#[tactic(auto, unfolding(crate::specs::Labels::size_label))]
fn push_size(out: &mut String, extent: Extent) -> Result<(), AllocError>
    ensures { OnOk result (string_bytes out.new ≡ string_bytes out.old ++ size_label extent) }
{
    push_commas(out, u128::from(extent.size))?;
    out.push_str(" B")
}

#[tactic(auto, unfolding(crate::specs::Labels::kind_label))]
fn push_kind(out: &mut String, extent: Extent) -> Result<(), AllocError>
    ensures { OnOk result (string_bytes out.new ≡ string_bytes out.old ++ kind_label extent) }
{
    out.push_str(kind_words(extent.kind))?;
    out.push_str(" ")?;
    push_size(out, extent)
}

#[tactic(auto, unfolding(crate::specs::Labels::number_label))]
fn push_number(out: &mut String, block: NamedBlock, extent: Extent) -> Result<(), AllocError>
    ensures { OnOk result (string_bytes out.new ≡ string_bytes out.old ++ number_label block extent) }
{
    let number = block.number;
    write!(out, "{number}: ")?;
    push_size(out, extent)
}

#[tactic(auto, unfolding(crate::specs::Labels::block_label))]
fn push_block(out: &mut String, block: NamedBlock, extent: Extent) -> Result<(), AllocError>
    ensures { OnOk result (string_bytes out.new ≡ string_bytes out.old ++ block_label block extent) }
{
    out.push_str("block ")?;
    push_number(out, block, extent)
}

// Whether words fit a width in pixels.
fn fits(width: u128, words: &str) -> bool
    ensures { result ≡ fits width words.now }
{
    8 * words.len() as u128 + 8 <= width
}

// Puts the label of a live block at the end that fits the width, if one does.
#[tactic(auto, unfolding(crate::specs::Labels::name_text))]
fn push_name_label(
    alloc: Global,
    out: &mut String,
    x: u128,
    y: u128,
    width: u128,
    block: NamedBlock,
    extent: Extent,
) -> Result<(), AllocError>
    ensures { OnOk result (string_bytes out.new ≡ string_bytes out.old ++ name_text x y width block extent) }
{
    let mut long = String::new(alloc);
    push_block(&mut long, block, extent)?;
    if fits(width, long.as_str()) {
        return push_text(out, letters(extent.kind), x, y, long.as_str());
    }
    let mut short = String::new(alloc);
    push_number(&mut short, block, extent)?;
    if fits(width, short.as_str()) {
        return push_text(out, letters(extent.kind), x, y, short.as_str());
    }
    let mut least = String::new(alloc);
    let number = block.number;
    write!(&mut least, "{number}")?;
    if fits(width, least.as_str()) {
        return push_text(out, letters(extent.kind), x, y, least.as_str());
    }
    Ok(())
}

// Puts the label of another extent at the end that fits the width, if one does.
#[tactic(auto, unfolding(crate::specs::Labels::kind_text))]
fn push_kind_label(
    alloc: Global,
    out: &mut String,
    x: u128,
    y: u128,
    width: u128,
    extent: Extent,
) -> Result<(), AllocError>
    ensures { OnOk result (string_bytes out.new ≡ string_bytes out.old ++ kind_text x y width extent) }
{
    let mut long = String::new(alloc);
    push_kind(&mut long, extent)?;
    if fits(width, long.as_str()) {
        return push_text(out, letters(extent.kind), x, y, long.as_str());
    }
    let mut short = String::new(alloc);
    push_size(&mut short, extent)?;
    if fits(width, short.as_str()) {
        return push_text(out, letters(extent.kind), x, y, short.as_str());
    }
    Ok(())
}

/// Puts the label of an extent at the end that fits a width in pixels, if one does.
pub fn push_label(
    alloc: Global,
    out: &mut String,
    x: u128,
    y: u128,
    width: u128,
    block: Option<NamedBlock>,
    extent: Extent,
) -> Result<(), AllocError>
    ensures { OnOk result (string_bytes out.new ≡ string_bytes out.old ++ label_text x y width block extent) }
{
    match block {
        Some(block) => push_name_label(alloc, out, x, y, width, block, extent),
        None => push_kind_label(alloc, out, x, y, width, extent),
    }
}
