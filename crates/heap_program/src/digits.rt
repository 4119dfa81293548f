// The digits of numbers, and of bytes.
ghost use Rattle.std.specs.Prelude.{◌≡◌, ◌+◌, ◌<◌, ◌≤◌, ◌++◌, false, codes, decimal, length, take, drop, slice_index, OnOk, string_bytes};
ghost use Rattle.std.specs.Fmt.{digits};
ghost use Rattle.std.specs.Str.{IsUtf8};
ghost use Rattle.hex.specs.Hex.{encode_lower, lower_digits};

use itoa::write_digits;
use std::alloc::AllocError;
use std::str::from_utf8_unchecked;

// The digit of a value, in lower case.
fn digit(value: u8) -> u8
    requires { value < 16 }
    ensures { result ≡ slice_index lower_digits value }
{
    if value < 10 {
        b'0' + value
    } else {
        b'a' + (value - 10)
    }
}

// Writes the digits of a number to the base 16 so that they end there, and says where they start.
fn write_hexadecimal(number: u64, row: &mut [u8], end: usize) -> usize
    requires room { 64 ≤ end }
    requires within { end ≤ length row.old }
    ensures low { end ≤ result + 64 }
    ensures high { result ≤ end }
    ensures length { length row.new ≡ length row.old }
    ensures written { drop result row.new ≡ digits 16 false number ++ drop end row.old }
{
    let first = end - 64;
    let mut at = end;
    let mut left = number;
    while at > first {
        at -= 1;
        row[at] = digit((left % 16) as u8);
        left /= 16;
        if left == 0 {
            break;
        }
    }
    at
}

// Writes bytes so that they end there, and says where they start.
fn write_bytes(bytes: &[u8], row: &mut [u8], end: usize) -> usize
    requires room { length bytes.now ≤ end }
    requires within { end ≤ length row.old }
    ensures start { result + length bytes.now ≡ end }
    ensures length { length row.new ≡ length row.old }
    ensures written { drop result row.new ≡ bytes.now ++ drop end row.old }
{
    let start = end - bytes.len();
    row[start..end].copy_from_slice(bytes);
    start
}

// Writes the line of a block at the end of the row, and says where it starts.
fn write_block(number: u64, address: u64, row: &mut [u8; 128]) -> usize
    ensures within { result ≤ 128 }
    ensures written { drop result row.new ≡ codes "block " ++ (decimal number ++ (codes " 0x" ++ (digits 16 false address ++ codes "\n"))) }
{
    let at = write_bytes(b"\n", row, 128);
    let at = write_hexadecimal(address, row, at);
    let at = write_bytes(b" 0x", row, at);
    let at = write_digits(number, row, at);
    write_bytes(b"block ", row, at)
}

// Puts bytes that are text at the end.
fn push_text(out: &mut String, text: &[u8]) -> Result<(), AllocError>
    requires { IsUtf8 text.now }
    ensures { OnOk result (string_bytes out.new ≡ string_bytes out.old ++ text.now) }
{
    out.push_str(unsafe { from_utf8_unchecked(text) })
}

/// Puts the line of a block at the end.
pub fn push_block(out: &mut String, number: u64, address: u64) -> Result<(), AllocError>
    ensures { OnOk result (string_bytes out.new ≡ string_bytes out.old ++ (codes "block " ++ (decimal number ++ (codes " 0x" ++ (digits 16 false address ++ codes "\n"))))) }
{
    let mut row = [0u8; 128];
    let start = write_block(number, address, &mut row);
    push_text(out, &row[start..])
}

// The digits of 32 bytes, two for each.
fn digits_of(bytes: &[u8; 32]) -> [u8; 64]
    ensures { result ≡ encode_lower bytes.now }
{
    let mut digits = [0u8; 64];
    for k in 0..32 {
        digits[2 * k] = digit(bytes[k] / 16);
        digits[2 * k + 1] = digit(bytes[k] % 16);
    }
    digits
}

// These bytes, and zeros after them.
fn padded(bytes: &[u8]) -> [u8; 32]
    requires { length bytes.now ≤ 32 }
    ensures { take (length bytes.now) result ≡ bytes.now }
{
    let mut run = [0u8; 32];
    run[..bytes.len()].copy_from_slice(bytes);
    run
}

// Puts up to 32 bytes at the end as two digits each.
fn push_run(out: &mut String, bytes: &[u8]) -> Result<(), AllocError>
    requires { length bytes.now ≤ 32 }
    ensures { OnOk result (string_bytes out.new ≡ string_bytes out.old ++ encode_lower bytes.now) }
{
    let run = padded(bytes);
    let digits = digits_of(&run);
    push_text(out, &digits[..2 * bytes.len()])
}

/// Puts bytes at the end as two digits each.
pub fn push_digits(out: &mut String, bytes: &[u8]) -> Result<(), AllocError>
    ensures { OnOk result (string_bytes out.new ≡ string_bytes out.old ++ encode_lower bytes.now) }
{
    out.reserve(bytes.len().saturating_mul(2))?;
    let mut done = 0;
    while done < bytes.len() {
        let count = (bytes.len() - done).min(32);
        push_run(out, &bytes[done..done + count])?;
        done += count;
    }
    Ok(())
}
