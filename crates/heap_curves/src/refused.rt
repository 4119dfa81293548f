// The calls that were refused, over a run.
ghost use Rattle.std.specs.Prelude.{◌≡◌, ◌<◌, ◌≤◌, ◌+◌, ◌^◌, ◌++◌, OnOk, string_bytes};
ghost use Rattle.heap_curves.specs.Refused.{refused_columns, refused_column, bar_call, bar_left, refused_bar_width, refused_bar_height, call_title, span_words, refused_of, calls_title, refused_bar_title, refused_column_text, refused_columns_text, refused_ground, refused_text, refused_height};

use call_lines::refusal_word;
use heap_history::RefusedCall;
use heap_map::{Area, push_commas, push_rect, push_text, push_titled};
use std::alloc::{AllocError, Global};

// The number of columns for a number of calls.
fn bars_number(calls: u64) -> u128
    ensures value { result ≡ refused_columns calls }
    ensures some { 1 ≤ result }
    ensures few { result ≤ 512 }
{
    u128::from(calls).min(512).max(1)
}

// The column of a call.
fn bar_of(calls: u64, call: u64) -> u128
    ensures value { result ≡ refused_column calls call }
    ensures few { result < 512 }
{
    let bars = bars_number(calls);
    (u128::from(call) * bars / u128::from(calls).max(1)).min(bars - 1)
}

// The first call of a column.
#[tactic(auto, using(crate::proofs::Numbers::product_least, crate::proofs::Numbers::quotient_least))]
fn bar_call(calls: u64, bar: u128) -> u128
    requires { bar ≤ 512 }
    ensures value { result ≡ bar_call calls bar }
    ensures few { result < 2 ^ 80 }
{
    let bars = bars_number(calls);
    (bar * u128::from(calls) + (bars - 1)) / bars
}

// Where a column begins.
#[tactic(auto, using(crate::proofs::Numbers::quotient_least))]
fn bar_left(calls: u64, bar: u128) -> u128
    requires { bar ≤ 512 }
    ensures value { result ≡ bar_left calls bar }
    ensures few { result < 2 ^ 40 }
{
    144 + bar * 1024 / bars_number(calls)
}

// Its width.
fn bar_width(calls: u64, bar: u128) -> u128
    requires { bar < 512 }
    ensures { result ≡ refused_bar_width calls bar }
{
    bar_left(calls, bar + 1)
        .saturating_sub(bar_left(calls, bar))
        .min(12)
}

// The height of a column with this number of refused calls.
fn bar_height(calls: u64, bar: u128, number: u64) -> u128
    requires { bar < 512 }
    ensures value { result ≡ refused_bar_height calls bar number }
    ensures few { result ≤ 20 }
{
    let all = bar_call(calls, bar + 1)
        .saturating_sub(bar_call(calls, bar))
        .max(1);
    ((20 * u128::from(number) + (all - 1)) / all).min(20)
}

#[tactic(auto, unfolding(crate::specs::Refused::call_title))]
fn push_call_title(out: &mut String, one: RefusedCall) -> Result<(), AllocError>
    ensures { OnOk result (string_bytes out.new ≡ string_bytes out.old ++ call_title one) }
{
    out.push_str("call ")?;
    push_commas(out, u128::from(one.call) + 1)?;
    out.push_str(": ")?;
    out.push_str(refusal_word(one.cause))
}

#[tactic(auto, unfolding(crate::specs::Refused::span_words))]
fn push_span(out: &mut String, calls: u64, bar: u128) -> Result<(), AllocError>
    requires { bar < 512 }
    ensures { OnOk result (string_bytes out.new ≡ string_bytes out.old ++ span_words calls bar) }
{
    push_commas(out, bar_call(calls, bar) + 1)?;
    out.push_str(" to ")?;
    push_commas(out, bar_call(calls, bar + 1))
}

#[tactic(auto, unfolding(crate::specs::Refused::refused_of))]
fn refused_of() -> &'static str
    ensures { result.now ≡ refused_of }
{
    " refused of the calls "
}

#[tactic(auto, unfolding(crate::specs::Refused::calls_title))]
fn push_calls_title(out: &mut String, calls: u64, bar: u128, number: u64) -> Result<(), AllocError>
    requires { bar < 512 }
    ensures { OnOk result (string_bytes out.new ≡ string_bytes out.old ++ calls_title calls bar number) }
{
    push_commas(out, u128::from(number))?;
    out.push_str(refused_of())?;
    push_span(out, calls, bar)
}

// Puts the title of a column at the end: it has this number of refused calls, and this is the first.
#[tactic(auto, unfolding(crate::specs::Refused::refused_bar_title))]
fn push_title(
    out: &mut String,
    calls: u64,
    first: RefusedCall,
    number: u64,
) -> Result<(), AllocError>
    ensures { OnOk result (string_bytes out.new ≡ string_bytes out.old ++ refused_bar_title calls first number) }
{
    if number == 1 {
        return push_call_title(out, first);
    }
    push_calls_title(out, calls, bar_of(calls, first.call), number)
}

// Puts a column at the end.
#[tactic(auto, unfolding(crate::specs::Refused::refused_column_text))]
fn push_bar(
    alloc: Global,
    out: &mut String,
    calls: u64,
    y: u128,
    first: RefusedCall,
    number: u64,
) -> Result<(), AllocError>
    requires { y < 2 ^ 100 }
    ensures { OnOk result (string_bytes out.new ≡ string_bytes out.old ++ refused_column_text calls y first number) }
{
    let bar = bar_of(calls, first.call);
    let height = bar_height(calls, bar, number);
    let area = Area {
        x: bar_left(calls, bar),
        y: y + 20 - height,
        width: bar_width(calls, bar),
        height,
    };
    let mut title = String::new(alloc);
    push_title(&mut title, calls, first, number)?;
    push_titled(out, "no", area, title.as_str())
}

// Puts the columns at the end that have a refused call.
#[tactic(auto, using(crate::proofs::Loops::bars_step, crate::proofs::Loops::bars_last, std::proofs::lemmas::Grind::common_steps))]
fn push_bars(
    alloc: Global,
    out: &mut String,
    calls: u64,
    y: u128,
    refused: &[RefusedCall],
) -> Result<(), AllocError>
    requires { y < 2 ^ 100 }
    ensures { OnOk result (string_bytes out.new ≡ string_bytes out.old ++ refused_columns_text calls y refused.now) }
{
    if refused.is_empty() {
        return Ok(());
    }
    let (mut first, mut number) = (refused[0], 1);
    for next in 1..refused.len() {
        let one = refused[next];
        if bar_of(calls, first.call) == bar_of(calls, one.call) {
            number += 1;
        } else {
            push_bar(alloc, out, calls, y, first, number)?;
            first = one;
            number = 1;
        }
    }
    push_bar(alloc, out, calls, y, first, number)
}

// Puts what stands around them at the end.
#[tactic(auto, unfolding(crate::specs::Refused::refused_ground))]
fn push_ground(alloc: Global, out: &mut String, y: u128, number: u128) -> Result<(), AllocError>
    requires { y < 2 ^ 100 }
    ensures { OnOk result (string_bytes out.new ≡ string_bytes out.old ++ refused_ground y number) }
{
    push_text(out, "q", 24, y + 8, "refused")?;
    let mut words = String::new(alloc);
    push_commas(&mut words, number)?;
    push_text(out, "m e faint", 134, y + 20, words.as_str())?;
    let floor = Area {
        x: 144,
        y: y + 20,
        width: 1024,
        height: 1,
    };
    push_rect(out, "line", floor)
}

/// Puts the refused calls of a run at the end: for each column of calls how many of them were refused.
#[tactic(auto, unfolding(crate::specs::Refused::refused_text))]
pub fn push_refused(
    alloc: Global,
    out: &mut String,
    y: u128,
    calls: u64,
    refused: &[RefusedCall],
) -> Result<(), AllocError>
    requires { y < 2 ^ 100 }
    ensures { OnOk result (string_bytes out.new ≡ string_bytes out.old ++ refused_text y calls refused.now) }
{
    push_ground(alloc, out, y, refused.len() as u128)?;
    push_bars(alloc, out, calls, y, refused)
}

/// The height of that, in pixels.
pub fn refused_height() -> u128
    ensures { result ≡ refused_height }
{
    34
}
