// The lines of few calls, upright below their columns.
ghost use Rattle.std.specs.Prelude.{◌≡◌, ◌<◌, ◌≤◌, ◌+◌, ◌*◌, ◌^◌, ◌++◌, [], IsTrue, nat_le, OnOk, string_bytes};
ghost use Rattle.heap_curves.specs.Calls.{longest_from, longest_word, words_number, most_words, are_upright, word_class, word_text, words_text, upright_text, uprights_text};

use crate::calls::{plain, push_grid};
use heap_history::x_of;
use heap_map::push_text;
use machine_model::Bytes;
use std::alloc::{AllocError, Global};

// The letters of the longest word of a line.
#[tactic(auto, using(crate::proofs::Words::longest_step, crate::proofs::Words::longest_last, std::proofs::lemmas::Grind::common_steps))]
fn longest_in(line: &[u8]) -> u64
    ensures { result ≡ longest_from 0 line.now }
{
    let mut most = 0;
    let mut letters = 0;
    for letter in line {
        if *letter == b' ' {
            most = letters.max(most);
            letters = 0;
        } else {
            letters += 1;
        }
    }
    letters.max(most)
}

// The letters of the longest word of all lines.
#[tactic(auto, using(crate::proofs::Words::word_step, crate::proofs::Words::word_last, std::proofs::lemmas::Grind::common_steps))]
fn longest_word(lines: &[Bytes]) -> u64
    ensures { result ≡ longest_word lines.now }
{
    let mut most = 0;
    for line in lines {
        most = longest_in(line.as_slice()).max(most);
    }
    most
}

// The words of a line.
#[tactic(auto, using(crate::proofs::Words::number_step, crate::proofs::Words::number_last, std::proofs::lemmas::Grind::common_steps))]
fn words_number(line: &[u8]) -> u64
    ensures { result ≡ words_number line.now }
{
    let mut number = 0;
    for letter in line {
        if *letter == b' ' {
            number += 1;
        }
    }
    number + 1
}

/// The words of the line that has most.
#[tactic(auto, using(crate::proofs::Words::most_step, crate::proofs::Words::most_last, std::proofs::lemmas::Grind::common_steps))]
pub fn most_words(lines: &[Bytes]) -> u64
    ensures { result ≡ most_words lines.now }
{
    let mut most = 0;
    for line in lines {
        most = words_number(line.as_slice()).max(most);
    }
    most
}

// Whether each line has room beside the next.
fn have_room(calls: u64, lines: &[Bytes]) -> bool
    requires { calls ≤ 32 }
    ensures { result ≡ nat_le (calls * (8 * longest_word lines.now + 6)) 1024 }
{
    u128::from(calls) * (8 * u128::from(longest_word(lines)) + 6) <= 1024
}

/// Whether lines stand upright: there are at most 32, none has more than eight words, and each has room beside the next.
pub fn are_upright(calls: u64, lines: &[Bytes]) -> bool
    ensures value { result ≡ are_upright calls lines.now }
    ensures few { IsTrue result → most_words lines.now ≤ 8 }
{
    calls <= 32 && (most_words(lines) <= 8 && have_room(calls, lines))
}

fn word_class(place: u128) -> &'static str
    ensures { result.now ≡ word_class place }
{
    if place == 0 { "m" } else { "m faint" }
}

// Puts a word of a line at the end; `place` is how many words stand above it.
#[tactic(auto, unfolding(crate::specs::Calls::word_text))]
fn push_word(out: &mut String, x: u128, y: u128, place: u128, word: &str) -> Result<(), AllocError>
    requires x { x < 2 ^ 100 }
    requires y { y < 2 ^ 100 }
    requires place { place ≤ 2 ^ 64 }
    ensures { OnOk result (string_bytes out.new ≡ string_bytes out.old ++ word_text x y place word.now) }
{
    push_text(out, word_class(place), x + 4, y + 13 + 14 * place, word)
}

// Puts the words of a line at the end, one below the other.
#[tactic(auto, using(crate::proofs::Words::words_step, crate::proofs::Words::words_last, std::proofs::lemmas::Grind::common_steps))]
fn push_words(
    alloc: Global,
    out: &mut String,
    x: u128,
    y: u128,
    line: &[u8],
) -> Result<(), AllocError>
    requires x { x < 2 ^ 100 }
    requires y { y < 2 ^ 100 }
    ensures { OnOk result (string_bytes out.new ≡ string_bytes out.old ++ words_text x y 0 [] line.now) }
{
    let mut word = String::new(alloc);
    let mut place = 0;
    for letter in line {
        if *letter == b' ' {
            push_word(out, x, y, place, word.as_str())?;
            word.clear();
            place += 1;
        } else {
            word.push(plain(*letter) as char)?;
        }
    }
    push_word(out, x, y, place, word.as_str())
}

// Puts a call at the end, with its line upright.
#[tactic(auto, unfolding(crate::specs::Calls::upright_text))]
fn push_upright(
    alloc: Global,
    out: &mut String,
    top: u128,
    y: u128,
    calls: u64,
    call: u64,
    line: &[u8],
) -> Result<(), AllocError>
    requires { y < 2 ^ 100 }
    ensures { OnOk result (string_bytes out.new ≡ string_bytes out.old ++ upright_text top y calls call line.now) }
{
    push_grid(out, top, y, calls, call)?;
    push_words(alloc, out, x_of(call, calls), y, line)
}

/// Puts the calls at the end, with their lines upright.
#[tactic(auto, using(crate::proofs::Words::uprights_step, crate::proofs::Words::uprights_last, std::proofs::lemmas::Grind::common_steps))]
pub fn push_uprights(
    alloc: Global,
    out: &mut String,
    top: u128,
    y: u128,
    calls: u64,
    lines: &[Bytes],
) -> Result<(), AllocError>
    requires { y < 2 ^ 100 }
    ensures { OnOk result (string_bytes out.new ≡ string_bytes out.old ++ uprights_text top y calls 0 lines.now) }
{
    let mut call = 0;
    for line in lines {
        push_upright(alloc, out, top, y, calls, call, line.as_slice())?;
        call += 1;
    }
    Ok(())
}
