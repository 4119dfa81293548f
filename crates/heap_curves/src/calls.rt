// The axis of calls.
ghost use Rattle.std.specs.Prelude.{◌≡◌, ◌<◌, ◌≤◌, ◌+◌, ◌*◌, ◌/◌, ◌^◌, ◌++◌, map, length, take, OnOk, string_bytes};
ghost use Rattle.heap_curves.specs.Calls.{plain, short_words, down_text, grid_text, column_middle, call_line_text, call_lines_text, most_letters, calls_per_tick, call_tick_text, call_ticks_text, numbers_text, calls_text, calls_height};

use crate::upright::{are_upright, most_words, push_uprights};
use heap_history::x_of;
use heap_map::{Area, push_commas, push_rect, push_text};
use machine_model::Bytes;
use std::alloc::{AllocError, Global};

/// A letter that can stand in a document as it is; else a question mark.
pub fn plain(letter: u8) -> u8
    ensures value { result ≡ plain letter }
    ensures few { result < 128 }
{
    if letter < 32 {
        b'?'
    } else if 126 < letter {
        b'?'
    } else if letter == b'&' {
        b'?'
    } else if letter == b'<' {
        b'?'
    } else if letter == b'>' {
        b'?'
    } else {
        letter
    }
}

// Puts letters at the end.
fn push_letters(out: &mut String, letters: &[u8]) -> Result<(), AllocError>
    ensures { OnOk result (string_bytes out.new ≡ string_bytes out.old ++ map plain letters.now) }
{
    for letter in letters {
        out.push(plain(*letter) as char)?;
    }
    Ok(())
}

// The letters of a long line that are told.
fn first_letters(letters: &[u8]) -> &[u8]
    requires { 28 < length letters.now }
    ensures { result.now ≡ take 26 letters.now }
{
    &letters[..26]
}

// Puts the line of a call at the end, in 28 letters at most.
#[tactic(auto, unfolding(crate::specs::Calls::short_words))]
fn push_short(out: &mut String, line: &[u8]) -> Result<(), AllocError>
    ensures { OnOk result (string_bytes out.new ≡ string_bytes out.old ++ short_words line.now) }
{
    if line.len() <= 28 {
        return push_letters(out, line);
    }
    push_letters(out, first_letters(line))?;
    out.push_str("..")
}

// Puts words at the end, downwards from a place.
#[tactic(auto, unfolding(crate::specs::Calls::down_text))]
fn push_down(out: &mut String, x: u128, y: u128, words: &str) -> Result<(), AllocError>
    ensures { OnOk result (string_bytes out.new ≡ string_bytes out.old ++ down_text x y words.now) }
{
    writeln!(
        out,
        "<text class=\"m\" transform=\"translate({x} {y})rotate(90)\">{words}</text>"
    )
}

/// Puts a line of the grid at the end, at the begin of a call, from a height down to another.
#[tactic(auto, unfolding(crate::specs::Calls::grid_text))]
pub fn push_grid(
    out: &mut String,
    top: u128,
    y: u128,
    calls: u64,
    call: u64,
) -> Result<(), AllocError>
    ensures { OnOk result (string_bytes out.new ≡ string_bytes out.old ++ grid_text top y calls call) }
{
    let area = Area {
        x: x_of(call, calls),
        y: top,
        width: 1,
        height: y.saturating_sub(top),
    };
    push_rect(out, "line", area)
}

// The middle of the column of a call, for words downwards.
fn middle_of(calls: u64, call: u64) -> u128
    ensures { result ≡ column_middle calls call }
{
    x_of(call, calls) + (1024 / u128::from(calls).max(1) / 2).saturating_sub(3)
}

// Puts a call at the end, with its line.
#[tactic(auto, unfolding(crate::specs::Calls::call_line_text))]
fn push_line(
    alloc: Global,
    out: &mut String,
    top: u128,
    y: u128,
    calls: u64,
    call: u64,
    line: &[u8],
) -> Result<(), AllocError>
    requires { y < 2 ^ 100 }
    ensures { OnOk result (string_bytes out.new ≡ string_bytes out.old ++ call_line_text top y calls call line.now) }
{
    push_grid(out, top, y, calls, call)?;
    let mut words = String::new(alloc);
    push_short(&mut words, line)?;
    push_down(out, middle_of(calls, call), y + 6, words.as_str())
}

// Puts the calls at the end, with their lines.
#[tactic(auto, using(crate::proofs::Loops::lines_step, crate::proofs::Loops::lines_last, std::proofs::lemmas::Grind::common_steps))]
fn push_lines(
    alloc: Global,
    out: &mut String,
    top: u128,
    y: u128,
    calls: u64,
    lines: &[Bytes],
) -> Result<(), AllocError>
    requires { y < 2 ^ 100 }
    ensures { OnOk result (string_bytes out.new ≡ string_bytes out.old ++ call_lines_text top y calls 0 lines.now) }
{
    let mut call = 0;
    for line in lines {
        push_line(alloc, out, top, y, calls, call, line.as_slice())?;
        call += 1;
    }
    Ok(())
}

// The letters of the longest line, and 28 at most.
#[tactic(auto, using(crate::proofs::Loops::letters_step, crate::proofs::Loops::letters_last, std::proofs::lemmas::Grind::common_steps))]
fn most_letters(lines: &[Bytes]) -> u128
    ensures value { result ≡ most_letters lines.now }
    ensures few { result ≤ 28 }
{
    let mut most = 0;
    for line in lines {
        most = (line.len() as u128).min(28).max(most);
    }
    most
}

// The calls from one tick to the next.
#[tactic(auto, using(crate::proofs::Loops::power_step, crate::proofs::Loops::power_last, crate::proofs::Numbers::ten_more, crate::proofs::Numbers::ten_some, crate::proofs::Numbers::ten_most, std::proofs::lemmas::Grind::common_steps))]
fn step_of(calls: u64) -> u128
    ensures value { result ≡ calls_per_tick calls }
    ensures some { 1 ≤ result }
    ensures few { calls ≤ 10 * result }
{
    let all = u128::from(calls);
    let mut power = 1;
    for _times in 0..20usize {
        if all <= 10 * power {
            return power;
        }
        if all <= 20 * power {
            return 2 * power;
        }
        if all <= 50 * power {
            return 5 * power;
        }
        power *= 10;
    }
    power
}

// Puts a tick at a call at the end.
#[tactic(auto, unfolding(crate::specs::Calls::call_tick_text))]
fn push_tick(
    alloc: Global,
    out: &mut String,
    top: u128,
    y: u128,
    calls: u64,
    call: u64,
) -> Result<(), AllocError>
    requires { y < 2 ^ 100 }
    ensures { OnOk result (string_bytes out.new ≡ string_bytes out.old ++ call_tick_text top y calls call) }
{
    push_grid(out, top, y, calls, call)?;
    let mut words = String::new(alloc);
    push_commas(&mut words, u128::from(call))?;
    push_text(out, "m c faint", x_of(call, calls), y + 14, words.as_str())
}

// The call of a tick.
#[tactic(auto, using(crate::proofs::Numbers::tick_within))]
fn tick_call(calls: u64, step: u128, tick: u128) -> u64
    requires step { 1 ≤ step }
    requires tick { tick < calls / step + 1 }
    ensures { result ≡ step * tick }
{
    (step * tick) as u64
}

// Puts this number of ticks at the end.
#[tactic(auto, using(crate::proofs::Loops::ticks_step, std::proofs::lemmas::Grind::common_steps))]
fn push_ticks(
    alloc: Global,
    out: &mut String,
    top: u128,
    y: u128,
    calls: u64,
    step: u128,
) -> Result<(), AllocError>
    requires y { y < 2 ^ 100 }
    requires step { 1 ≤ step }
    ensures { OnOk result (string_bytes out.new ≡ string_bytes out.old ++ call_ticks_text top y calls step (calls / step + 1)) }
{
    for tick in 0..u128::from(calls) / step + 1 {
        push_tick(alloc, out, top, y, calls, tick_call(calls, step, tick))?;
    }
    Ok(())
}

// Puts the numbers of calls at the end.
#[tactic(auto, unfolding(crate::specs::Calls::numbers_text))]
fn push_numbers(
    alloc: Global,
    out: &mut String,
    top: u128,
    y: u128,
    calls: u64,
) -> Result<(), AllocError>
    requires { y < 2 ^ 100 }
    ensures { OnOk result (string_bytes out.new ≡ string_bytes out.old ++ numbers_text top y calls) }
{
    push_text(out, "q", 24, y + 14, "calls")?;
    push_ticks(alloc, out, top, y, calls, step_of(calls))
}

/// Puts the axis of calls at the end: a grid from the top on, and below a height the lines of the calls, if there are some,
/// and else their numbers. The lines stand upright if they have room, a word below the other, and else downwards.
#[tactic(auto, unfolding(crate::specs::Calls::calls_text))]
pub fn push_calls(
    alloc: Global,
    out: &mut String,
    top: u128,
    y: u128,
    calls: u64,
    lines: &[Bytes],
) -> Result<(), AllocError>
    requires { y < 2 ^ 100 }
    ensures { OnOk result (string_bytes out.new ≡ string_bytes out.old ++ calls_text top y calls lines.now) }
{
    if lines.is_empty() {
        return push_numbers(alloc, out, top, y, calls);
    }
    if are_upright(calls, lines) {
        return push_uprights(alloc, out, top, y, calls, lines);
    }
    push_lines(alloc, out, top, y, calls, lines)
}

/// The height of the axis below that, in pixels.
pub fn calls_height(calls: u64, lines: &[Bytes]) -> u128
    ensures few { result ≤ 234 }
    ensures value { result ≡ calls_height calls lines.now }
{
    if lines.is_empty() {
        return 18;
    }
    if are_upright(calls, lines) {
        return 14 * u128::from(most_words(lines)) + 4;
    }
    8 * most_letters(lines) + 10
}
