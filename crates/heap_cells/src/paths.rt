// Bars as paths of an SVG document.
ghost use Rattle.std.specs.Prelude.{◌≡◌, ◌++◌, OnOk, string_bytes};
ghost use Rattle.heap_cells.specs.Paths.{bar_path, shade_bars_text, bars_path_front, plain_end, shade_end, heap_path, shade_path, paths_text};

use crate::bars::Bar;
use std::alloc::AllocError;

// Puts a bar at the end, as a line.
#[tactic(auto, unfolding(crate::specs::Paths::bar_path))]
fn push_bar_text(out: &mut String, bar: Bar) -> Result<(), AllocError>
    ensures { OnOk result (string_bytes out.new ≡ string_bytes out.old ++ bar_path bar) }
{
    let (x, y, width) = (bar.x, bar.y, bar.width);
    write!(out, "M{x} {y}h{width}")
}

// Puts the bars of a shade at the end.
fn push_bars_text(out: &mut String, shade: u128, bars: &[Bar]) -> Result<(), AllocError>
    ensures { OnOk result (string_bytes out.new ≡ string_bytes out.old ++ shade_bars_text shade bars.now) }
{
    for bar in bars {
        if bar.shade == shade {
            push_bar_text(out, *bar)?;
        }
    }
    Ok(())
}

// Puts the front of a path at the end.
#[tactic(auto, unfolding(crate::specs::Paths::bars_path_front))]
fn push_front(out: &mut String, class: &str) -> Result<(), AllocError>
    ensures { OnOk result (string_bytes out.new ≡ string_bytes out.old ++ bars_path_front class.now) }
{
    write!(out, "<path class=\"{class}\" d=\"")
}

// Puts the end of a path at the end.
#[tactic(auto, unfolding(crate::specs::Paths::plain_end))]
fn push_plain_end(out: &mut String, side: u64) -> Result<(), AllocError>
    ensures { OnOk result (string_bytes out.new ≡ string_bytes out.old ++ plain_end side) }
{
    writeln!(out, "\" stroke-width=\"{side}\"/>")
}

// Puts the end of a path that is not opaque at the end.
#[tactic(auto, unfolding(crate::specs::Paths::shade_end))]
fn push_shade_end(out: &mut String, side: u64, opacity: &str) -> Result<(), AllocError>
    ensures { OnOk result (string_bytes out.new ≡ string_bytes out.old ++ shade_end side opacity.now) }
{
    writeln!(out, "\" stroke-width=\"{side}\" opacity=\"{opacity}\"/>")
}

// Puts the path of the heap's regions at the end.
#[tactic(auto, unfolding(crate::specs::Paths::heap_path))]
fn push_heap_path(out: &mut String, side: u64, heap: &[Bar]) -> Result<(), AllocError>
    ensures { OnOk result (string_bytes out.new ≡ string_bytes out.old ++ heap_path side heap.now) }
{
    push_front(out, "sh")?;
    push_bars_text(out, 1, heap)?;
    push_plain_end(out, side)
}

// Puts the path of a shade of blocks at the end.
#[tactic(auto, unfolding(crate::specs::Paths::shade_path))]
fn push_shade_path(
    out: &mut String,
    side: u64,
    opacity: &str,
    shade: u128,
    blocks: &[Bar],
) -> Result<(), AllocError>
    ensures { OnOk result (string_bytes out.new ≡ string_bytes out.old ++ shade_path side opacity.now shade blocks.now) }
{
    push_front(out, "su")?;
    push_bars_text(out, shade, blocks)?;
    push_shade_end(out, side, opacity)
}

/// Puts the paths of the heap's regions and of the blocks at the end.
#[tactic(auto, unfolding(crate::specs::Paths::paths_text))]
pub fn push_paths(
    out: &mut String,
    side: u64,
    heap: &[Bar],
    blocks: &[Bar],
) -> Result<(), AllocError>
    ensures { OnOk result (string_bytes out.new ≡ string_bytes out.old ++ paths_text side heap.now blocks.now) }
{
    push_heap_path(out, side, heap)?;
    push_shade_path(out, side, ".25", 1, blocks)?;
    push_shade_path(out, side, ".5", 2, blocks)?;
    push_shade_path(out, side, ".75", 3, blocks)?;
    push_shade_path(out, side, "1", 4, blocks)
}
