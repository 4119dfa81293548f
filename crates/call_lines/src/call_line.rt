// The line that asks for a call.
ghost use Rattle.std.specs.Prelude.{◌≡◌, ◌++◌, codes, IfOk, OnOk, string_bytes};
ghost use Rattle.hex.specs.Hex.{encode_lower};
ghost use Rattle.call_lines.specs.CallLine.{with_number, with_numbers, request_line, access_word, by_user, call_line};

use crate::written::push_rights;
use machine_model::{Access, Bytes, Call};
use std::alloc::{AllocError, Global};

// Puts a name and a number at the end.
fn push_one(out: &mut String, name: &str, first: u64) -> Result<(), AllocError>
    ensures { OnOk result (string_bytes out.new ≡ string_bytes out.old ++ with_number name.now first) }
{
    write!(out, "{name} {first}")
}

// Puts a name and two numbers at the end.
fn push_two(out: &mut String, name: &str, first: u64, second: u64) -> Result<(), AllocError>
    ensures { OnOk result (string_bytes out.new ≡ string_bytes out.old ++ with_numbers name.now first second) }
{
    write!(out, "{name} {first} {second}")
}

// Puts a name, a size and an alignment at the end.
fn push_request(out: &mut String, name: &str, size: u64, align: u64) -> Result<(), AllocError>
    ensures { OnOk result (string_bytes out.new ≡ string_bytes out.old ++ request_line name.now size align) }
{
    if align == 16 {
        push_one(out, name, size)
    } else {
        push_two(out, name, size, align)
    }
}

// Puts a space and bytes at the end, as two digits each.
fn push_bytes(alloc: Global, out: &mut String, bytes: &[u8]) -> Result<(), AllocError>
    ensures { OnOk result (string_bytes out.new ≡ string_bytes out.old ++ (codes " " ++ encode_lower bytes.now)) }
{
    let digits = hex::encode(alloc, bytes)?;
    out.push_str(" ")?;
    out.push_str(digits.as_str())
}

fn access_word(access: Access) -> &'static str
    ensures { result.now ≡ access_word access }
{
    match access {
        Access::Read => "read",
        Access::Write => "write",
        Access::Fetch => "fetch",
    }
}

// What says that an access is the user's.
fn by_user(user: bool) -> &'static str
    ensures { result.now ≡ by_user user }
{
    if user { " user" } else { "" }
}

/// Puts the line of a call at the end, without a line feed: the line that asks for it.
pub fn push_line(alloc: Global, out: &mut String, call: &Call) -> Result<(), AllocError>
    ensures { OnOk result (string_bytes out.new ≡ string_bytes out.old ++ call_line call.now) }
{
    match call {
        Call::Malloc { size, align } => push_request(out, "malloc", *size, *align),
        Call::Calloc { size, align } => push_request(out, "calloc", *size, *align),
        Call::Realloc { block, size } => push_two(out, "realloc", *block, *size),
        Call::CRealloc { block, size } => push_two(out, "c_realloc", *block, *size),
        Call::Free { block } => push_one(out, "free", *block),
        Call::Write {
            block,
            offset,
            bytes,
        } => {
            push_two(out, "write", *block, *offset)?;
            push_bytes(alloc, out, bytes.as_slice())
        }
        Call::Read {
            block,
            offset,
            length,
        } => {
            let length = *length;
            push_two(out, "read", *block, *offset)?;
            write!(out, " {length}")
        }
        Call::Map {
            start,
            pages,
            rights,
        } => {
            let (start, pages) = (*start, *pages);
            write!(out, "map 0x{start:x} {pages} ")?;
            push_rights(out, *rights)
        }
        Call::Unmap { start, pages } => {
            let (start, pages) = (*start, *pages);
            write!(out, "unmap 0x{start:x} {pages}")
        }
        Call::Probe { at, access, user } => {
            let (at, access, user) = (*at, access_word(*access), by_user(*user));
            write!(out, "probe 0x{at:x} {access}{user}")
        }
        Call::Trim { pad } => push_one(out, "trim", *pad),
        Call::SetRate { rate } => push_one(out, "rate", *rate),
        Call::SetGranularity { granularity } => push_one(out, "granularity", *granularity),
        Call::Reset => out.push_str("reset"),
        Call::Extents => out.push_str("extents"),
    }
}

/// The line of a call, without a line feed. An `Err` says that the host had too little memory.
pub fn line_of(alloc: Global, call: &Call) -> Result<Bytes, AllocError>
    ensures { IfOk result (λ line. line ≡ call_line call.now) }
{
    let mut out = String::new(alloc);
    push_line(alloc, &mut out, call)?;
    Ok(Bytes::from_vec(out.into_bytes()))
}
