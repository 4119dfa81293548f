// Bytes that are written as two hexadecimal digits each.
ghost use Rattle.std.specs.Prelude.{◌≡◌, ℕ, ◌*◌, ◌%◌, ◌<◌, length, Some, None, is_some, IfOk, OnErr, IfSome, IsSome, if◌then◌else◌};
ghost use Rattle.std.specs.Result.{result_ok};
ghost use Rattle.hex.specs.Hex.{decode_of, hex_digit_value, pair_value};

use machine_model::Bytes;
use std::alloc::{AllocError, Global};

// The value of each digit, of either case, and 255 for each byte that is none.
const VALUES: [u8; 256] = [
    255, 255, 255, 255, 255, 255, 255, 255, 255, 255, 255, 255, 255, 255, 255, 255, 255, 255, 255,
    255, 255, 255, 255, 255, 255, 255, 255, 255, 255, 255, 255, 255, 255, 255, 255, 255, 255, 255,
    255, 255, 255, 255, 255, 255, 255, 255, 255, 255, 0, 1, 2, 3, 4, 5, 6, 7, 8, 9, 255, 255, 255,
    255, 255, 255, 255, 10, 11, 12, 13, 14, 15, 255, 255, 255, 255, 255, 255, 255, 255, 255, 255,
    255, 255, 255, 255, 255, 255, 255, 255, 255, 255, 255, 255, 255, 255, 255, 255, 10, 11, 12, 13,
    14, 15, 255, 255, 255, 255, 255, 255, 255, 255, 255, 255, 255, 255, 255, 255, 255, 255, 255,
    255, 255, 255, 255, 255, 255, 255, 255, 255, 255, 255, 255, 255, 255, 255, 255, 255, 255, 255,
    255, 255, 255, 255, 255, 255, 255, 255, 255, 255, 255, 255, 255, 255, 255, 255, 255, 255, 255,
    255, 255, 255, 255, 255, 255, 255, 255, 255, 255, 255, 255, 255, 255, 255, 255, 255, 255, 255,
    255, 255, 255, 255, 255, 255, 255, 255, 255, 255, 255, 255, 255, 255, 255, 255, 255, 255, 255,
    255, 255, 255, 255, 255, 255, 255, 255, 255, 255, 255, 255, 255, 255, 255, 255, 255, 255, 255,
    255, 255, 255, 255, 255, 255, 255, 255, 255, 255, 255, 255, 255, 255, 255, 255, 255, 255, 255,
    255, 255, 255, 255, 255, 255, 255, 255, 255, 255, 255, 255, 255, 255, 255, 255, 255, 255, 255,
    255, 255, 255,
];

fn value(digit: u8) -> Option<u8>
    ensures value { result ≡ hex_digit_value digit }
    ensures small { IfSome result (λ value. value < 16) }
{
    let value = VALUES[digit as usize];
    if value < 16 { Some(value) } else { None }
}

// The byte of two digits.
fn pair(high: u8, low: u8) -> Option<u8>
    ensures { (i : ℕ) → result ≡ result_ok (pair_value high low i) }
{
    let high = value(high)?;
    let low = value(low)?;
    Some(high * 16 + low)
}

// Writes the bytes of the digits, and says whether all are digits.
fn decode_into(digits: &[u8], bytes: &mut [u8]) -> bool
    requires { length digits.now ≡ 2 * length bytes.old }
    ensures { result_ok (decode_of digits.now) ≡ (if result then Some bytes.new else None) }
{
    for k in 0..bytes.len() {
        match pair(digits[2 * k], digits[2 * k + 1]) {
            Some(byte) => bytes[k] = byte,
            None => return false,
        }
    }
    true
}

// Whether all are digits.
fn are_digits(digits: &[u8]) -> bool
    requires { length digits.now % 2 ≡ 0 }
    ensures { result ≡ is_some (result_ok (decode_of digits.now)) }
{
    for k in 0..digits.len() / 2 {
        if pair(digits[2 * k], digits[2 * k + 1]).is_none() {
            return false;
        }
    }
    true
}

/// The bytes that are written as two digits each, of either case. An `Err` says that all are digits, and that the host
/// had too little memory for the bytes.
#[tactic(auto, using(crate::proofs::Decoded::odd_none, crate::proofs::Decoded::none_decoded))]
pub fn decode(alloc: Global, digits: &[u8]) -> Result<Option<Bytes>, AllocError>
    ensures bytes { IfOk result (λ bytes. bytes ≡ result_ok (decode_of digits.now)) }
    ensures err { OnErr result (IsSome (result_ok (decode_of digits.now))) }
{
    if digits.len() % 2 != 0 {
        return Ok(None);
    }
    // Digits that are none are found without memory too.
    let Ok(mut bytes) = vec![in alloc; 0u8; digits.len() / 2] else {
        return if are_digits(digits) {
            Err(AllocError)
        } else {
            Ok(None)
        };
    };
    if decode_into(digits, bytes.as_mut_slice()) {
        Ok(Some(Bytes::from_vec(bytes)))
    } else {
        Ok(None)
    }
}
