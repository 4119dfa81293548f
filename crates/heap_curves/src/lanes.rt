// The user's regions over a run.
ghost use Rattle.std.specs.Prelude.{◌≡◌, ◌<◌, ◌≤◌, ◌+◌, ◌^◌, ◌++◌, OnOk, string_bytes};
ghost use Rattle.heap_curves.specs.Lanes.{mapping_words, label_words, when_words, region_title, region_left, region_right, region_width, region_label_text, large_region_mark, region_text, is_drawn, lane_regions_text, lane_ground_text, lane_text, addresses_word, more_addresses_words, more_addresses_text, lanes_text, lanes_height};

use crate::addresses::{NONE, all_addresses, least_start};
use call_lines::push_rights;
use heap_history::{Mapping, x_of};
use heap_map::{Area, push_address, push_commas, push_counted, push_rect, push_text, push_titled};
use std::alloc::{AllocError, Global};

#[tactic(auto, unfolding(crate::specs::Lanes::mapping_words))]
fn push_pages(out: &mut String, user: Mapping) -> Result<(), AllocError>
    ensures { OnOk result (string_bytes out.new ≡ string_bytes out.old ++ mapping_words user) }
{
    push_counted(out, "page", u128::from(user.region.pages))?;
    out.push_str(" ")?;
    push_rights(out, user.region.rights)
}

// Puts the label of a region at the end.
#[tactic(auto, unfolding(crate::specs::Lanes::label_words))]
fn push_label_words(out: &mut String, user: Mapping) -> Result<(), AllocError>
    ensures { OnOk result (string_bytes out.new ≡ string_bytes out.old ++ label_words user) }
{
    push_pages(out, user)?;
    if user.large == 0 {
        return Ok(());
    }
    out.push_str(", ")?;
    push_commas(out, u128::from(user.large))?;
    out.push_str(" large")
}

#[tactic(auto, unfolding(crate::specs::Lanes::when_words))]
fn push_when(out: &mut String, user: Mapping) -> Result<(), AllocError>
    ensures { OnOk result (string_bytes out.new ≡ string_bytes out.old ++ when_words user) }
{
    out.push_str(", from call ")?;
    push_commas(out, u128::from(user.born) + 1)?;
    out.push_str(" to call ")?;
    push_commas(out, u128::from(user.end))
}

#[tactic(auto, unfolding(crate::specs::Lanes::region_title))]
fn push_title(out: &mut String, user: Mapping) -> Result<(), AllocError>
    ensures { OnOk result (string_bytes out.new ≡ string_bytes out.old ++ region_title user) }
{
    push_address(out, user.region.start)?;
    out.push_str(" + ")?;
    push_label_words(out, user)?;
    push_when(out, user)
}

// The left edge of a region.
fn region_left(calls: u64, user: Mapping) -> u128
    ensures value { result ≡ region_left calls user }
    ensures few { result < 2 ^ 81 }
{
    x_of(user.born, calls)
}

// The right edge of a region, at least three pixels on.
fn region_right(calls: u64, user: Mapping) -> u128
    ensures value { result ≡ region_right calls user }
    ensures few { result < 2 ^ 81 }
{
    x_of(user.end, calls).max(x_of(user.born, calls) + 3)
}

fn region_width(calls: u64, user: Mapping) -> u128
    ensures { result ≡ region_width calls user }
{
    region_right(calls, user).saturating_sub(region_left(calls, user))
}

// Puts the label in a region at the end, if it has room.
#[tactic(auto, unfolding(crate::specs::Lanes::region_label_text))]
fn push_label(
    alloc: Global,
    out: &mut String,
    calls: u64,
    y: u128,
    user: Mapping,
) -> Result<(), AllocError>
    requires { y < 2 ^ 100 }
    ensures { OnOk result (string_bytes out.new ≡ string_bytes out.old ++ region_label_text calls y user) }
{
    let mut words = String::new(alloc);
    push_label_words(&mut words, user)?;
    if 8 * (words.len() as u128) + 8 <= region_width(calls, user) {
        let x = region_left(calls, user) + 5;
        return push_text(out, "m in", x, y + 13, words.as_str());
    }
    Ok(())
}

// Puts the mark of large pages at the end, if there are some.
#[tactic(auto, unfolding(crate::specs::Lanes::large_region_mark))]
fn push_large(out: &mut String, calls: u64, y: u128, user: Mapping) -> Result<(), AllocError>
    ensures { OnOk result (string_bytes out.new ≡ string_bytes out.old ++ large_region_mark calls y user) }
{
    if user.large == 0 {
        return Ok(());
    }
    let area = Area {
        x: region_left(calls, user),
        y,
        width: region_width(calls, user),
        height: 3,
    };
    push_rect(out, "l", area)
}

// Puts a region at the end.
#[tactic(auto, unfolding(crate::specs::Lanes::region_text))]
fn push_region(
    alloc: Global,
    out: &mut String,
    calls: u64,
    y: u128,
    user: Mapping,
) -> Result<(), AllocError>
    requires { y < 2 ^ 100 }
    ensures { OnOk result (string_bytes out.new ≡ string_bytes out.old ++ region_text calls y user) }
{
    let area = Area {
        x: region_left(calls, user),
        y,
        width: region_width(calls, user),
        height: 16,
    };
    let mut title = String::new(alloc);
    push_title(&mut title, user)?;
    push_titled(out, "w", area, title.as_str())?;
    push_large(out, calls, y, user)?;
    push_label(alloc, out, calls, y, user)
}

// Whether a region is drawn in the lane of an address that is drawn up to a pixel.
fn is_drawn(calls: u64, start: u128, drawn: u128, user: Mapping) -> bool
    requires { drawn < 2 ^ 81 }
    ensures { result ≡ is_drawn calls start drawn user }
{
    u128::from(user.region.start) == start && drawn + 3 <= region_right(calls, user)
}

// Puts the regions of the lane of an address at the end.
#[tactic(auto, using(crate::proofs::Loops::regions_step, crate::proofs::Loops::regions_last, std::proofs::lemmas::Grind::common_steps))]
fn push_regions(
    alloc: Global,
    out: &mut String,
    calls: u64,
    y: u128,
    start: u128,
    users: &[Mapping],
) -> Result<(), AllocError>
    requires { y < 2 ^ 100 }
    ensures { OnOk result (string_bytes out.new ≡ string_bytes out.old ++ lane_regions_text calls y start 0 users.now) }
{
    let mut drawn = 0;
    for user in users {
        if is_drawn(calls, start, drawn, *user) {
            push_region(alloc, out, calls, y, *user)?;
            drawn = region_right(calls, *user);
        }
    }
    Ok(())
}

// Puts the ground of a lane at the end, with its address.
#[tactic(auto, unfolding(crate::specs::Lanes::lane_ground_text))]
fn push_ground(alloc: Global, out: &mut String, y: u128, start: u128) -> Result<(), AllocError>
    requires y { y < 2 ^ 100 }
    requires start { start < 2 ^ 64 }
    ensures { OnOk result (string_bytes out.new ≡ string_bytes out.old ++ lane_ground_text y start) }
{
    let mut words = String::new(alloc);
    push_address(&mut words, start as u64)?;
    push_text(out, "m e faint", 134, y + 12, words.as_str())?;
    let area = Area {
        x: 144,
        y,
        width: 1024,
        height: 16,
    };
    push_rect(out, "panel", area)
}

// Puts a lane at the end.
#[tactic(auto, unfolding(crate::specs::Lanes::lane_text))]
fn push_lane(
    alloc: Global,
    out: &mut String,
    calls: u64,
    y: u128,
    start: u128,
    users: &[Mapping],
) -> Result<(), AllocError>
    requires y { y < 2 ^ 100 }
    requires start { start < 2 ^ 64 }
    ensures { OnOk result (string_bytes out.new ≡ string_bytes out.old ++ lane_text calls y start users.now) }
{
    push_ground(alloc, out, y, start)?;
    push_regions(alloc, out, calls, y, start, users)
}

#[tactic(auto, unfolding(crate::specs::Lanes::addresses_word))]
fn addresses_word(more: u64) -> &'static str
    ensures { result.now ≡ addresses_word more }
{
    if more == 1 {
        " more address"
    } else {
        " more addresses"
    }
}

#[tactic(auto, unfolding(crate::specs::Lanes::more_addresses_words))]
fn push_more_words(out: &mut String, more: u64) -> Result<(), AllocError>
    ensures { OnOk result (string_bytes out.new ≡ string_bytes out.old ++ more_addresses_words more) }
{
    out.push_str("and ")?;
    push_commas(out, u128::from(more))?;
    out.push_str(addresses_word(more))
}

// Puts how many addresses from one on have no lane at the end, if there are some.
#[tactic(auto, unfolding(crate::specs::Lanes::more_addresses_text))]
fn push_more(
    alloc: Global,
    out: &mut String,
    y: u128,
    low: u128,
    users: &[Mapping],
) -> Result<(), AllocError>
    requires { y < 2 ^ 100 }
    ensures { OnOk result (string_bytes out.new ≡ string_bytes out.old ++ more_addresses_text y low users.now) }
{
    if least_start(low, users) == NONE {
        return Ok(());
    }
    let mut words = String::new(alloc);
    push_more_words(&mut words, all_addresses(alloc, low, users)?)?;
    push_text(out, "faint", 149, y + 12, words.as_str())
}

/// Puts a lane at the end for each of the six lowest addresses at which the user's regions begin, and how many more addresses
/// there are.
#[tactic(auto, using(crate::proofs::Loops::lanes_step, crate::proofs::Loops::lanes_last, std::proofs::lemmas::Grind::common_steps))]
pub fn push_lanes(
    alloc: Global,
    out: &mut String,
    y: u128,
    calls: u64,
    users: &[Mapping],
) -> Result<(), AllocError>
    requires { y < 2 ^ 99 }
    ensures { OnOk result (string_bytes out.new ≡ string_bytes out.old ++ lanes_text y calls users.now) }
{
    let (mut below, mut low) = (y, 0);
    for lane in 0u64..6 {
        let start = least_start(low, users);
        if start == NONE {
            return Ok(());
        }
        push_lane(alloc, out, calls, below, start, users)?;
        below += 19;
        low = start + 1;
    }
    push_more(alloc, out, below, low, users)
}

/// The height of the lanes, in pixels.
#[tactic(auto, using(crate::proofs::Loops::height_step, crate::proofs::Loops::height_last, std::proofs::lemmas::Grind::common_steps))]
pub fn lanes_height(users: &[Mapping]) -> u128
    ensures value { result ≡ lanes_height users.now }
    ensures few { result ≤ 133 }
{
    let (mut height, mut low) = (0, 0);
    for lane in 0u64..6 {
        let start = least_start(low, users);
        if start == NONE {
            return height;
        }
        height += 19;
        low = start + 1;
    }
    if least_start(low, users) == NONE {
        height
    } else {
        height + 19
    }
}
