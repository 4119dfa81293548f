// Numbers as words.
ghost use Rattle.std.specs.Prelude.{◌≡◌, ◌<◌, ◌^◌, ◌++◌, OnOk, string_bytes};
ghost use Rattle.heap_map.specs.Words.{hexadecimal, group_text, commas, quantity, tenths, permille, percent, about, exactly};

use std::alloc::AllocError;

/// Puts an address at the end, in hexadecimal digits.
pub fn push_address(out: &mut String, address: u64) -> Result<(), AllocError>
    ensures { OnOk result (string_bytes out.new ≡ string_bytes out.old ++ hexadecimal address) }
{
    write!(out, "0x{address:x}")
}

// Puts the last three digits of a number at the end, after a comma.
#[tactic(auto, unfolding(crate::specs::Words::group_text))]
fn push_group(out: &mut String, number: u128) -> Result<(), AllocError>
    ensures { OnOk result (string_bytes out.new ≡ string_bytes out.old ++ group_text number) }
{
    let (hundreds, tens, ones) = (number / 100 % 10, number / 10 % 10, number % 10);
    write!(out, ",{hundreds}{tens}{ones}")
}

/// Puts a number at the end, with a comma before each of its last three groups of three digits.
#[tactic(auto, unfolding(crate::specs::Words::commas))]
pub fn push_commas(out: &mut String, number: u128) -> Result<(), AllocError>
    ensures { OnOk result (string_bytes out.new ≡ string_bytes out.old ++ commas number) }
{
    if number < 1_000 {
        return write!(out, "{number}");
    }
    if number < 1_000_000 {
        let front = number / 1_000;
        write!(out, "{front}")?;
        return push_group(out, number);
    }
    if number < 1_000_000_000 {
        let front = number / 1_000_000;
        write!(out, "{front}")?;
        push_group(out, number / 1_000)?;
        return push_group(out, number);
    }
    let front = number / 1_000_000_000;
    write!(out, "{front}")?;
    push_group(out, number / 1_000_000)?;
    push_group(out, number / 1_000)?;
    push_group(out, number)
}

/// Puts a number of things at the end, as `1 page` or `2,000 pages`.
#[tactic(auto, unfolding(crate::specs::Words::quantity))]
pub fn push_counted(out: &mut String, thing: &str, number: u128) -> Result<(), AllocError>
    ensures { OnOk result (string_bytes out.new ≡ string_bytes out.old ++ quantity thing.now number) }
{
    push_commas(out, number)?;
    out.push_str(" ")?;
    out.push_str(thing)?;
    if number == 1 {
        return Ok(());
    }
    out.push_str("s")
}

/// Puts a number of tenths at the end.
#[tactic(auto, unfolding(crate::specs::Words::tenths))]
pub fn push_tenths(out: &mut String, number: u128) -> Result<(), AllocError>
    ensures { OnOk result (string_bytes out.new ≡ string_bytes out.old ++ tenths number) }
{
    let tenth = number % 10;
    push_commas(out, number / 10)?;
    write!(out, ".{tenth}")
}

/// Of a whole, how many thousandths a part is, rounded down; 0 if there is nothing.
pub fn permille(part: u128, whole: u128) -> u128
    requires { part < 2 ^ 100 }
    ensures { result ≡ permille part whole }
{
    if whole == 0 { 0 } else { 1000 * part / whole }
}

/// Puts a part of a whole at the end, in percent.
#[tactic(auto, unfolding(crate::specs::Words::percent))]
pub fn push_percent(out: &mut String, part: u128, whole: u128) -> Result<(), AllocError>
    requires { part < 2 ^ 100 }
    ensures { OnOk result (string_bytes out.new ≡ string_bytes out.old ++ percent part whole) }
{
    push_tenths(out, permille(part, whole))?;
    out.push_str(" %")
}

/// Puts bytes at the end, in the greatest unit that they reach, rounded down to a tenth.
#[tactic(auto, unfolding(crate::specs::Words::about))]
pub fn push_about(out: &mut String, bytes: u128) -> Result<(), AllocError>
    requires { bytes < 2 ^ 100 }
    ensures { OnOk result (string_bytes out.new ≡ string_bytes out.old ++ about bytes) }
{
    if bytes < 1024 {
        return write!(out, "{bytes} B");
    }
    if bytes < 1_048_576 {
        push_tenths(out, 10 * bytes / 1024)?;
        return out.push_str(" KiB");
    }
    if bytes < 1_073_741_824 {
        push_tenths(out, 10 * bytes / 1_048_576)?;
        return out.push_str(" MiB");
    }
    push_tenths(out, 10 * bytes / 1_073_741_824)?;
    out.push_str(" GiB")
}

/// Puts bytes at the end, exactly, in the greatest unit of which they are a multiple.
#[tactic(auto, unfolding(crate::specs::Words::exactly))]
pub fn push_exactly(out: &mut String, bytes: u128) -> Result<(), AllocError>
    ensures { OnOk result (string_bytes out.new ≡ string_bytes out.old ++ exactly bytes) }
{
    if bytes % 1_073_741_824 == 0 {
        push_commas(out, bytes / 1_073_741_824)?;
        return out.push_str(" GiB");
    }
    if bytes % 1_048_576 == 0 {
        push_commas(out, bytes / 1_048_576)?;
        return out.push_str(" MiB");
    }
    if bytes % 1024 == 0 {
        push_commas(out, bytes / 1024)?;
        return out.push_str(" KiB");
    }
    push_commas(out, bytes)?;
    out.push_str(" bytes")
}
