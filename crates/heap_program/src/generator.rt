// Calls that are drawn from a seed.
ghost use Rattle.std.specs.Prelude.{◌≡◌, ◌<◌, ◌%◌, ◌^◌, IfOk};
ghost use Rattle.heap_program.specs.Generator.{drawn, first_state, pick, call_kind, call_of_draws, drawn_call, drawn_thrice};

use kernel_heap::{Bytes, Call};
use std::alloc::{AllocError, Global};

/// How many of the numbers given last a call may name.
const NAMED: u64 = 64;

/// The alignment of a block if none is drawn.
const DEFAULT_ALIGNMENT: u64 = 16;

// One draw of the xorshift generator with the shifts 13, 7 and 17: the state after it, which is what is drawn.
#[tactic(auto, unfolding(crate::specs::Generator::drawn))]
fn draw(state: u64) -> u64
    ensures { result ≡ drawn state }
{
    let left = state ^ state << 13;
    let right = left ^ left >> 7;
    right ^ right << 17
}

/// The first state of the generator. From 0 it would draw nothing but 0.
pub fn first_state(seed: u64) -> u64
    ensures { result ≡ first_state seed }
{
    if seed == 0 { 1 } else { seed }
}

// One of the numbers given last.
fn pick(given: u64, draw: u64) -> u64
    requires { 0 < given }
    ensures { result ≡ pick given draw }
{
    given - 1 - (draw >> 8) % given.min(NAMED)
}

// A power of two below 2^16.
#[tactic(auto, using(crate::proofs::Powers::one_shifted))]
fn alignment(draw: u64) -> u64
    ensures { result ≡ 2 ^ (draw % 16) }
{
    1 << (draw % 16)
}

// Which call it is. Where no number is given there is no block to name.
fn kind_of(given: u64, draw: u64) -> u64
    ensures { result ≡ call_kind given draw }
{
    let kind = draw % 8;
    if given == 0 && kind >= 3 { 0 } else { kind }
}

// The call of three draws, if `given` numbers were given.
#[tactic(auto, unfolding(crate::specs::Generator::call_of_draws))]
fn call_of_draws(alloc: Global, given: u64, a: u64, b: u64, c: u64) -> Result<Call, AllocError>
    ensures { IfOk result (λ call. call ≡ call_of_draws given a b c) }
{
    let size = b % 4096;
    let call = match kind_of(given, a) {
        0 => Call::Malloc {
            size,
            align: DEFAULT_ALIGNMENT,
        },
        1 => Call::Malloc {
            size,
            align: alignment(c),
        },
        2 => Call::Calloc {
            size,
            align: DEFAULT_ALIGNMENT,
        },
        3 => Call::Realloc {
            block: pick(given, c),
            size,
        },
        4 => Call::Write {
            block: pick(given, c),
            offset: 0,
            bytes: Bytes::from_vec(vec![in alloc; (b % 256) as u8; 1]?),
        },
        _ => Call::Free {
            block: pick(given, c),
        },
    };
    Ok(call)
}

/// The call that comes next, if `given` numbers were given, and the state that its three draws leave. An `Err` says
/// that the host had too little memory for the byte of a write.
#[tactic(auto, unfolding(crate::specs::Generator::drawn_call, crate::specs::Generator::drawn_thrice))]
pub fn next_call(alloc: Global, state: u64, given: u64) -> Result<(Call, u64), AllocError>
    ensures { IfOk result (λ next. (next.0 ≡ drawn_call state given) × (next.1 ≡ drawn_thrice state)) }
{
    let a = draw(state);
    let b = draw(a);
    let c = draw(b);
    Ok((call_of_draws(alloc, given, a, b, c)?, c))
}
