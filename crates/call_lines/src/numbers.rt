// The numbers of a line.
ghost use Rattle.std.specs.Prelude.{◌≡◌, ◌≤◌, ◌+◌, ◌*◌, ◌^◌, ◌⊎◌, MatchOption, true, false};
ghost use Rattle.std.specs.Char.{is_digit, digit_value};
ghost use Rattle.call_lines.specs.Number.{numeral_of, number_of};

// The value with one more digit, if there is one and the value stays below 2^64.
fn next_value(value: u64, base: u32, byte: u8) -> Option<u64>
    requires low { 2 ≤ base }
    requires high { base ≤ 36 }
    ensures { MatchOption result
        ((is_digit byte base ≡ false) ⊎ (2 ^ 64 ≤ value * base + digit_value byte))
        (λ next. (is_digit byte base ≡ true) × (next ≡ value * base + digit_value byte)) }
{
    let digit = (byte as char).to_digit(base)?;
    value.checked_mul(base as u64)?.checked_add(digit as u64)
}

fn numeral(base: u32, most: usize, digits: &[u8]) -> Option<u64>
    requires low { 2 ≤ base }
    requires high { base ≤ 36 }
    ensures { result ≡ numeral_of base most digits.now }
{
    if digits.is_empty() || digits.len() > most {
        return None;
    }
    let mut value: u64 = 0;
    for byte in digits {
        value = next_value(value, base, *byte)?;
    }
    Some(value)
}

/// The number that a word writes: 1 to 20 decimal digits, or `0x` and 1 to 16 hexadecimal digits of
/// either case, of a value below 2^64.
pub fn number(word: &[u8]) -> Option<u64>
    ensures { result ≡ number_of word.now }
{
    match word {
        [b'0', b'x', digits @ ..] => numeral(16, 16, digits),
        _ => numeral(10, 20, word),
    }
}
