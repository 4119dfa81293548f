// The bytes of a heap over a run, as curves.
ghost use Rattle.std.specs.Prelude.{◌≡◌, ◌<◌, ◌≤◌, ◌^◌, ◌++◌, if◌then◌else◌, [], OnOk, string_bytes};
ghost use Rattle.heap_curves.specs.Columns.{columns_of};
ghost use Rattle.heap_curves.specs.Paths.{IsScale};
ghost use Rattle.heap_curves.specs.Curves.{most_live, most_heap, are_together, live_scale, strip_scale, scale_text, heap_text, half, thick, dashes, live_text, main_text, heap_strip_text, curves_text, curves_height};

use crate::columns::{Column, Counted, columns_of, greatest};
use crate::ends::{last_moment, push_ends};
use crate::paths::{Curve, Scale, floor_of, push_area, push_curve, told};
use heap_history::Moment;
use heap_map::{Area, push_about, push_rect, push_text};
use std::alloc::{AllocError, Global};

// The most bytes that were live.
fn most_live(moments: &[Moment]) -> u128
    ensures value { result ≡ most_live moments.now }
    ensures few { result < 2 ^ 100 }
{
    told(greatest(Counted::Live, moments))
}

// The most bytes that the heap had.
fn most_heap(moments: &[Moment]) -> u128
    ensures value { result ≡ most_heap moments.now }
    ensures few { result < 2 ^ 100 }
{
    told(greatest(Counted::Heap, moments))
}

// Whether heap and live bytes are drawn to one scale.
fn are_together(moments: &[Moment]) -> bool
    ensures { result ≡ are_together moments.now }
{
    most_heap(moments) <= 8 * most_live(moments)
}

// The scale of the live bytes.
fn live_scale(y: u128, moments: &[Moment]) -> Scale
    requires { y < 2 ^ 99 }
    ensures value { result ≡ live_scale y moments.now }
    ensures scale { IsScale result }
{
    let most = if are_together(moments) {
        most_heap(moments)
    } else {
        most_live(moments)
    };
    Scale {
        y,
        height: 112,
        most: most.max(1),
    }
}

// The scale of a heap that has a strip of its own.
fn strip_scale(y: u128, moments: &[Moment]) -> Scale
    requires { y < 2 ^ 99 }
    ensures value { result ≡ strip_scale y moments.now }
    ensures scale { IsScale result }
{
    Scale {
        y: y + 122,
        height: 24,
        most: most_heap(moments).max(1),
    }
}

// Puts the name of a scale, its floor and its most bytes at the end.
#[tactic(auto, unfolding(crate::specs::Curves::scale_text))]
fn push_scale(
    alloc: Global,
    out: &mut String,
    name: &str,
    scale: Scale,
    y: u128,
) -> Result<(), AllocError>
    requires { IsScale scale }
    ensures { OnOk result (string_bytes out.new ≡ string_bytes out.old ++ scale_text name.now scale y) }
{
    push_text(out, "q", 24, scale.y + 12, name)?;
    let floor = Area {
        x: 144,
        y: floor_of(scale),
        width: 1024,
        height: 1,
    };
    push_rect(out, "line", floor)?;
    let mut words = String::new(alloc);
    push_about(&mut words, told(scale.most))?;
    push_text(out, "m e faint", 134, y, words.as_str())
}

// Puts the heap at the end, as ground.
#[tactic(auto, unfolding(crate::specs::Curves::heap_text))]
fn push_heap(out: &mut String, scale: Scale, columns: &[Column]) -> Result<(), AllocError>
    requires { IsScale scale }
    ensures { OnOk result (string_bytes out.new ≡ string_bytes out.old ++ heap_text scale columns.now) }
{
    push_area(out, "heap", "", Curve::Heap, scale, columns)?;
    push_curve(out, "wire", "", Curve::Heap, scale, columns)
}

// Puts the heap at the end, if it is drawn to the scale of the live bytes.
fn push_heap_if(
    out: &mut String,
    together: bool,
    scale: Scale,
    columns: &[Column],
) -> Result<(), AllocError>
    requires { IsScale scale }
    ensures { OnOk result (string_bytes out.new ≡ string_bytes out.old ++ (if together then heap_text scale columns.now else [])) }
{
    if !together {
        return Ok(());
    }
    push_heap(out, scale, columns)
}

// How live bytes and their peak look.
#[tactic(auto, unfolding(crate::specs::Curves::half))]
fn half() -> &'static str
    ensures { result.now ≡ half }
{
    " opacity=\".5\""
}

#[tactic(auto, unfolding(crate::specs::Curves::thick))]
fn thick() -> &'static str
    ensures { result.now ≡ thick }
{
    " stroke-width=\"2\""
}

#[tactic(auto, unfolding(crate::specs::Curves::dashes))]
fn dashes() -> &'static str
    ensures { result.now ≡ dashes }
{
    " stroke-dasharray=\"3 3\""
}

// Puts the live bytes and their peak at the end.
#[tactic(auto, unfolding(crate::specs::Curves::live_text))]
fn push_live(out: &mut String, scale: Scale, columns: &[Column]) -> Result<(), AllocError>
    requires { IsScale scale }
    ensures { OnOk result (string_bytes out.new ≡ string_bytes out.old ++ live_text scale columns.now) }
{
    push_area(out, "u", half(), Curve::Live, scale, columns)?;
    push_curve(out, "su", thick(), Curve::Live, scale, columns)?;
    push_curve(out, "mark", dashes(), Curve::Peak, scale, columns)
}

// Puts the curves at the end that are drawn to one scale, with what stands around them.
#[tactic(auto, unfolding(crate::specs::Curves::main_text))]
fn push_main(
    alloc: Global,
    out: &mut String,
    together: bool,
    scale: Scale,
    moments: &[Moment],
) -> Result<(), AllocError>
    requires { IsScale scale }
    ensures { OnOk result (string_bytes out.new ≡ string_bytes out.old ++ main_text together scale moments.now) }
{
    let columns = columns_of(alloc, moments)?;
    let peak = greatest(Counted::Live, moments);
    push_scale(alloc, out, "bytes", scale, scale.y + 9)?;
    push_text(out, "m e faint", 134, floor_of(scale) + 1, "0")?;
    push_heap_if(out, together, scale, &columns)?;
    push_live(out, scale, &columns)?;
    push_ends(alloc, out, together, scale, peak, last_moment(moments))
}

// Puts the strip of a heap at the end.
#[tactic(auto, unfolding(crate::specs::Curves::heap_strip_text))]
fn push_strip(
    alloc: Global,
    out: &mut String,
    scale: Scale,
    moments: &[Moment],
) -> Result<(), AllocError>
    requires { IsScale scale }
    ensures { OnOk result (string_bytes out.new ≡ string_bytes out.old ++ heap_strip_text scale moments.now) }
{
    let columns = columns_of(alloc, moments)?;
    push_scale(alloc, out, "heap", scale, scale.y + 24)?;
    push_heap(out, scale, &columns)
}

/// Puts the curves of a run at the end: live bytes, their peak and the heap's bytes, by what is so after each call.
#[tactic(auto, unfolding(crate::specs::Curves::curves_text))]
pub fn push_curves(
    alloc: Global,
    out: &mut String,
    y: u128,
    moments: &[Moment],
) -> Result<(), AllocError>
    requires { y < 2 ^ 99 }
    ensures { OnOk result (string_bytes out.new ≡ string_bytes out.old ++ curves_text y moments.now) }
{
    let together = are_together(moments);
    push_main(alloc, out, together, live_scale(y, moments), moments)?;
    if together {
        return Ok(());
    }
    push_strip(alloc, out, strip_scale(y, moments), moments)
}

/// The height of the curves, in pixels.
pub fn curves_height(moments: &[Moment]) -> u128
    ensures few { result ≤ 156 }
    ensures value { result ≡ curves_height moments.now }
{
    if are_together(moments) { 122 } else { 156 }
}
