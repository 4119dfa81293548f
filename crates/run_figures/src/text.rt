// The text of the figures.
ghost use Rattle.std.specs.Prelude.{◌≡◌, ◌++◌, List, ℕ, OnOk, codes, string_bytes};
ghost use Rattle.dlmalloc_chunks.specs.declared.extent.Extent.{Extent};
ghost use Rattle.dlmalloc_chunks.specs.Tiling.{AreInSegments};
ghost use Rattle.run_figures.specs.Text.{one_text, two_text, line_between, bin_class_text, small_texts, tree_texts, extent_texts, figures_text};

use crate::classes::{small_counts, tree_counts};
use crate::counting::{Part, count_part, greatest_free, permille};
use dlmalloc_chunks::Extent;
use std::alloc::AllocError;

// A word and a number, between two texts.
fn push_one(
    out: &mut String,
    before: &str,
    word: &str,
    number: u128,
    behind: &str,
) -> Result<(), AllocError>
    ensures { OnOk result (string_bytes out.new ≡ string_bytes out.old ++ line_between before.now behind.now (one_text word.now number)) }
{
    write!(out, "{before}{word} {number}{behind}")
}

// A word and two numbers, between two texts.
fn push_two(
    out: &mut String,
    before: &str,
    word: &str,
    first: u64,
    second: u128,
    behind: &str,
) -> Result<(), AllocError>
    ensures { OnOk result (string_bytes out.new ≡ string_bytes out.old ++ line_between before.now behind.now (two_text word.now first second)) }
{
    write!(out, "{before}{word} {first} {second}{behind}")
}

// A class of free chunks, if there are any.
fn push_class(
    out: &mut String,
    before: &str,
    word: &str,
    class: u64,
    count: u64,
    behind: &str,
) -> Result<(), AllocError>
    ensures { OnOk result (string_bytes out.new ≡ string_bytes out.old ++ bin_class_text before.now behind.now word.now class count) }
{
    if count == 0 {
        return Ok(());
    }
    push_two(out, before, word, class, u128::from(count), behind)
}

// The small classes, by ascending size.
fn push_small(
    out: &mut String,
    before: &str,
    extents: &[Extent],
    behind: &str,
) -> Result<(), AllocError>
    ensures { OnOk result (string_bytes out.new ≡ string_bytes out.old ++ small_texts before.now behind.now extents.now 256) }
{
    let counts = small_counts(extents);
    for size in 0..256 {
        push_class(out, before, "small", size as u64, counts[size], behind)?;
    }
    Ok(())
}

// The tree bins, by ascending index.
fn push_trees(
    out: &mut String,
    before: &str,
    extents: &[Extent],
    behind: &str,
) -> Result<(), AllocError>
    ensures { OnOk result (string_bytes out.new ≡ string_bytes out.old ++ tree_texts before.now behind.now extents.now 32) }
{
    let counts = tree_counts(extents);
    for index in 0..32 {
        push_class(out, before, "tree", index as u64, counts[index], behind)?;
    }
    Ok(())
}

// What the extents say, each line between two texts.
#[tactic(auto, unfolding(crate::specs::Text::extent_texts))]
fn push_parts(
    out: &mut String,
    before: &str,
    extents: &[Extent],
    behind: &str,
) -> Result<(), AllocError>
    requires { AreInSegments extents.now }
    ensures { OnOk result (string_bytes out.new ≡ string_bytes out.old ++ extent_texts before.now behind.now extents.now) }
{
    let used = count_part(extents, Part::Used);
    let free = count_part(extents, Part::Free);
    let overhead = count_part(extents, Part::Overhead);
    let greatest = greatest_free(extents);
    let scattered = permille(free.bytes, greatest);
    push_two(out, before, "used", used.number, used.bytes, behind)?;
    push_two(out, before, "free", free.number, free.bytes, behind)?;
    push_one(out, before, "greatest", u128::from(greatest), behind)?;
    push_one(out, before, "overhead", overhead.bytes, behind)?;
    push_one(out, before, "permille", u128::from(scattered), behind)
}

/// Puts the figures of a run at the end, a line each between the texts `before` and `behind`: the bytes that are live and
/// were at most, the extents in use, the free ones, the greatest of these, the bytes of records and the foot, of 1000 free
/// bytes those beside the greatest, and each class of free chunks that has any, first those below 256 bytes by size, and
/// then the tree bins by index. An `Err` says that the host had too little memory.
#[tactic(auto, unfolding(crate::specs::Text::figures_text))]
pub fn push_figures(
    out: &mut String,
    before: &str,
    live: u128,
    peak: u128,
    extents: &[Extent],
    behind: &str,
) -> Result<(), AllocError>
    requires { AreInSegments extents.now }
    ensures { OnOk result (string_bytes out.new ≡ string_bytes out.old ++ figures_text before.now behind.now live peak extents.now) }
{
    push_one(out, before, "live", live, behind)?;
    push_one(out, before, "peak", peak, behind)?;
    push_parts(out, before, extents, behind)?;
    push_small(out, before, extents, behind)?;
    push_trees(out, before, extents, behind)
}
