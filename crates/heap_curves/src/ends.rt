// What stands at the right of the curves.
ghost use Rattle.std.specs.Prelude.{◌≡◌, ◌<◌, ◌≤◌, ◌+◌, ◌*◌, ◌^◌, ◌++◌, OnOk, string_bytes};
ghost use Rattle.heap_curves.specs.Paths.{IsScale};
ghost use Rattle.heap_curves.specs.Ends.{last_moment, lowest_line, beside, end_text, two_ends, three_ends, ends_text};

use crate::paths::{Scale, floor_of, height_of, told};
use heap_history::Moment;
use heap_map::{push_about, push_text};
use std::alloc::{AllocError, Global};

/// The last moment; nothing if there is none.
pub fn last_moment(moments: &[Moment]) -> Moment
    ensures { result ≡ last_moment moments.now }
{
    match moments.last() {
        Some(moment) => *moment,
        None => Moment { live: 0, heap: 0 },
    }
}

// A base line beside bytes, with room for `rest` lines below. If there is room, it is at least 13 below the one above.
fn beside(scale: Scale, above: u128, bytes: u128, rest: u128) -> u128
    requires scale { IsScale scale }
    requires above { above < 2 ^ 101 }
    requires rest { rest ≤ 2 }
    ensures value { result ≡ beside scale above bytes rest }
    ensures few { result < 2 ^ 101 }
    ensures room { result ≤ lowest_line scale rest }
    ensures apart { above + 13 ≤ lowest_line scale rest → above + 13 ≤ result }
{
    let lowest = (floor_of(scale) + 4).saturating_sub(13 * rest);
    (height_of(scale, bytes) + 4).max(above + 13).min(lowest)
}

// Puts bytes with their name at the end.
#[tactic(auto, unfolding(crate::specs::Ends::end_text))]
fn push_end(
    alloc: Global,
    out: &mut String,
    y: u128,
    name: &str,
    bytes: u128,
) -> Result<(), AllocError>
    ensures { OnOk result (string_bytes out.new ≡ string_bytes out.old ++ end_text y name.now bytes) }
{
    push_text(out, "faint", 1176, y, name)?;
    let mut words = String::new(alloc);
    push_about(&mut words, told(bytes))?;
    push_text(out, "m e", 1280, y, words.as_str())
}

// Puts the peak and what is live at the end.
#[tactic(auto, unfolding(crate::specs::Ends::two_ends))]
fn push_two_ends(
    alloc: Global,
    out: &mut String,
    scale: Scale,
    peak: u128,
    live: u128,
) -> Result<(), AllocError>
    requires { IsScale scale }
    ensures { OnOk result (string_bytes out.new ≡ string_bytes out.old ++ two_ends scale peak live) }
{
    let first = beside(scale, 0, peak, 1);
    push_end(alloc, out, first, "peak", peak)?;
    push_end(alloc, out, beside(scale, first, live, 0), "live", live)
}

// Puts what is greatest, what is second and what is live at the end.
#[tactic(auto, unfolding(crate::specs::Ends::three_ends))]
fn push_three_ends(
    alloc: Global,
    out: &mut String,
    scale: Scale,
    name: &str,
    bytes: u128,
    second_name: &str,
    second: u128,
    live: u128,
) -> Result<(), AllocError>
    requires { IsScale scale }
    ensures { OnOk result (string_bytes out.new ≡ string_bytes out.old ++ three_ends scale name.now bytes second_name.now second live) }
{
    let above = beside(scale, 0, bytes, 2);
    push_end(alloc, out, above, name, bytes)?;
    let middle = beside(scale, above, second, 1);
    push_end(alloc, out, middle, second_name, second)?;
    push_end(alloc, out, beside(scale, middle, live, 0), "live", live)
}

/// Puts the peak and the last bytes at the end, the heap's only if it is drawn to the same scale.
#[tactic(auto, unfolding(crate::specs::Ends::ends_text))]
pub fn push_ends(
    alloc: Global,
    out: &mut String,
    together: bool,
    scale: Scale,
    peak: u128,
    last: Moment,
) -> Result<(), AllocError>
    requires { IsScale scale }
    ensures { OnOk result (string_bytes out.new ≡ string_bytes out.old ++ ends_text together scale peak last) }
{
    let (live, heap) = (last.live, last.heap);
    if !together {
        return push_two_ends(alloc, out, scale, peak, live);
    }
    if peak <= heap {
        return push_three_ends(alloc, out, scale, "heap", heap, "peak", peak, live);
    }
    push_three_ends(alloc, out, scale, "peak", peak, "heap", heap, live)
}
