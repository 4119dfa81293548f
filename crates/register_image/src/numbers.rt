// Numbers of an answer.
ghost use Rattle.std.specs.Prelude.{◌≡◌, ◌++◌, OnOk, string_bytes};
ghost use Rattle.std.specs.List.{flat_map};
ghost use Rattle.register_image.specs.Numbers.{line, number_text, value_text};

use std::alloc::AllocError;

/// Puts a number at the end, after a space.
pub fn push_number(out: &mut String, number: u64) -> Result<(), AllocError>
    ensures { OnOk result (string_bytes out.new ≡ string_bytes out.old ++ number_text number) }
{
    write!(out, " 0x{number:x}")
}

// Puts each of some bytes at the end, after a space.
fn push_bytes(out: &mut String, bytes: &[u8]) -> Result<(), AllocError>
    ensures { OnOk result (string_bytes out.new ≡ string_bytes out.old ++ flat_map number_text bytes.now) }
{
    for byte in bytes {
        push_number(out, u64::from(*byte))?;
    }
    Ok(())
}

/// Puts a line at the end: a name, and bytes.
pub fn push_line(out: &mut String, name: &str, bytes: &[u8]) -> Result<(), AllocError>
    ensures { OnOk result (string_bytes out.new ≡ string_bytes out.old ++ line name.now bytes.now) }
{
    out.push_str(name)?;
    push_bytes(out, bytes)?;
    out.push_str("\n")
}

/// Puts a number at the end, or that there is none.
pub fn push_value(out: &mut String, value: Option<u64>) -> Result<(), AllocError>
    ensures { OnOk result (string_bytes out.new ≡ string_bytes out.old ++ value_text value) }
{
    match value {
        Some(number) => push_number(out, number),
        None => out.push_str(" none"),
    }
}
