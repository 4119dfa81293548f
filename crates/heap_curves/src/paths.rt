// Curves as paths.
ghost use Rattle.std.specs.Prelude.{◌≡◌, ◌<◌, ◌≤◌, ◌+◌, ◌^◌, ◌++◌, length, OnOk, string_bytes};
ghost use Rattle.heap_curves.specs.Paths.{IsScale, told, height_of, floor_of, curve_bytes, step_text, steps_text, first_height, path_front, area_text, curve_text};

use crate::columns::Column;
use heap_history::x_of;
use std::alloc::AllocError;

/// What a curve is of.
#[derive(Clone, Copy, PartialEq, Eq, Debug)]
pub enum Curve {
    /// The bytes of live blocks.
    Live,
    /// The bytes of the heap.
    Heap,
    /// The most that were live until then.
    Peak,
}

/// How bytes are drawn, in pixels.
#[derive(Clone, Copy, PartialEq, Eq, Debug)]
pub struct Scale {
    /// The height of the most bytes.
    pub y: u128,
    /// From there down to the floor.
    pub height: u128,
    /// The most bytes.
    pub most: u128,
}

/// Bytes as they are drawn and told: below 2^100, as those of each run are.
pub fn told(bytes: u128) -> u128
    ensures value { result ≡ told bytes }
    ensures few { result < 2 ^ 100 }
{
    bytes.min(0xf_ffff_ffff_ffff_ffff_ffff_ffff)
}

/// The height at which bytes are drawn.
pub fn height_of(scale: Scale, bytes: u128) -> u128
    requires { IsScale scale }
    ensures value { result ≡ height_of scale bytes }
    ensures few { result ≤ scale.y + 112 }
{
    scale.y
        + scale
            .height
            .saturating_sub(told(bytes) * scale.height / scale.most)
}

/// The floor.
pub fn floor_of(scale: Scale) -> u128
    requires { IsScale scale }
    ensures value { result ≡ floor_of scale }
    ensures few { result ≤ scale.y + 112 }
{
    scale.y + scale.height
}

// What a curve has in a column.
fn curve_bytes(curve: Curve, column: Column) -> u128
    ensures { result ≡ curve_bytes curve column }
{
    match curve {
        Curve::Live => column.live,
        Curve::Heap => column.heap,
        Curve::Peak => column.peak,
    }
}

// Puts a step at a place to a height at the end.
#[tactic(auto, unfolding(crate::specs::Paths::step_text))]
fn push_step(out: &mut String, x: u128, height: u128) -> Result<(), AllocError>
    ensures { OnOk result (string_bytes out.new ≡ string_bytes out.old ++ step_text x height) }
{
    write!(out, "H{x}V{height}")
}

// Puts the steps of a curve at the end, after a line at a height.
#[tactic(auto, using(crate::proofs::Loops::steps_step, crate::proofs::Loops::steps_last, std::proofs::lemmas::Grind::common_steps))]
fn push_steps(
    out: &mut String,
    curve: Curve,
    scale: Scale,
    first: u128,
    columns: &[Column],
) -> Result<(), AllocError>
    requires { IsScale scale }
    ensures { OnOk result (string_bytes out.new ≡ string_bytes out.old ++ steps_text curve scale (length columns.now) 0 first columns.now) }
{
    let number = columns.len() as u64;
    let (mut place, mut height) = (0, first);
    for column in columns {
        let next = height_of(scale, curve_bytes(curve, *column));
        if next != height {
            push_step(out, x_of(place, number), next)?;
        }
        place += 1;
        height = next;
    }
    Ok(())
}

// The height at which a curve begins.
fn first_height(curve: Curve, scale: Scale, columns: &[Column]) -> u128
    requires { IsScale scale }
    ensures { result ≡ first_height curve scale columns.now }
{
    match columns.first() {
        Some(column) => height_of(scale, curve_bytes(curve, *column)),
        None => floor_of(scale),
    }
}

#[tactic(auto, unfolding(crate::specs::Paths::path_front))]
fn push_front(out: &mut String, class: &str, height: u128) -> Result<(), AllocError>
    ensures { OnOk result (string_bytes out.new ≡ string_bytes out.old ++ path_front class.now height) }
{
    write!(out, "<path class=\"{class}\" d=\"M144 {height}")
}

/// Puts what is under a curve at the end, as a path of a class with more attributes.
#[tactic(auto, unfolding(crate::specs::Paths::area_text))]
pub fn push_area(
    out: &mut String,
    class: &str,
    more: &str,
    curve: Curve,
    scale: Scale,
    columns: &[Column],
) -> Result<(), AllocError>
    requires { IsScale scale }
    ensures { OnOk result (string_bytes out.new ≡ string_bytes out.old ++ area_text class.now more.now curve scale columns.now) }
{
    let floor = floor_of(scale);
    push_front(out, class, floor)?;
    push_steps(out, curve, scale, floor, columns)?;
    writeln!(out, "H1168V{floor}z\"{more}/>")
}

/// Puts a curve at the end, as a path of a class with more attributes.
#[tactic(auto, unfolding(crate::specs::Paths::curve_text))]
pub fn push_curve(
    out: &mut String,
    class: &str,
    more: &str,
    curve: Curve,
    scale: Scale,
    columns: &[Column],
) -> Result<(), AllocError>
    requires { IsScale scale }
    ensures { OnOk result (string_bytes out.new ≡ string_bytes out.old ++ curve_text class.now more.now curve scale columns.now) }
{
    let first = first_height(curve, scale, columns);
    push_front(out, class, first)?;
    push_steps(out, curve, scale, first, columns)?;
    writeln!(out, "H1168\"{more}/>")
}
