// Parts of an SVG document.
ghost use Rattle.std.specs.Prelude.{◌≡◌, ◌++◌, OnOk, string_bytes};
ghost use Rattle.heap_time.specs.Bands.{IsBand};
ghost use Rattle.heap_time.specs.Shapes.{view_front, view_text, region_words};

use crate::bands::band_units;
use heap_history::Band;
use std::alloc::AllocError;

#[tactic(auto, unfolding(crate::specs::Shapes::view_front))]
fn push_front(out: &mut String, y: u128, height: u128, units: u128) -> Result<(), AllocError>
    ensures { OnOk result (string_bytes out.new ≡ string_bytes out.old ++ view_front y height units) }
{
    writeln!(
        out,
        "<svg x=\"144\" y=\"{y}\" width=\"1024\" height=\"{height}\" viewBox=\"0 0 65536 {units}\">"
    )
}

/// Puts the front of a drawing at the end, over a band, in which the units are 64ths of a pixel.
pub fn push_view(out: &mut String, band: Band) -> Result<(), AllocError>
    requires { IsBand band }
    ensures { OnOk result (string_bytes out.new ≡ string_bytes out.old ++ view_text band) }
{
    push_front(out, band.y, band.height, band_units(band))
}

/// What pages of the heap are called.
#[tactic(auto, unfolding(crate::specs::Shapes::region_words))]
pub fn region_words() -> &'static str
    ensures { result.now ≡ region_words }
{
    "heap region"
}
