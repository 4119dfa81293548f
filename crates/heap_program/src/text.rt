// What is printed.
ghost use Rattle.std.specs.Prelude.{◌≡◌, ◌++◌, IfOk, OnOk, string_bytes};
ghost use Rattle.std.specs.List.{flat_map};
ghost use Rattle.machine_model.specs.State.{State};
ghost use Rattle.machine_model.specs.Machine.{Stands};
ghost use Rattle.kernel_heap.specs.Machine.{seen};
ghost use Rattle.call_lines.specs.Written.{hexadecimal};
ghost use Rattle.heap_program.specs.Text.{text_of, reply_text, bytes_text, truth_word, span_text, spaced, kind_word, extent_text, pages_text, heap_regions_text, heap_line, large_line, owner_text, region_line, counts_line, tally_line, end_text_of};

use crate::digits::{push_block, push_digits};
use bitflags::Flags;
use call_lines::{push_rights, refusal_word};
use kernel_heap::{Answer, Bytes, Extent, Kind, Machine, Region, RegionList, Reply, SlotList};
use std::alloc::{AllocError, Global};

fn truth_word(truth: bool) -> &'static str
    ensures { result.now ≡ truth_word truth }
{
    if truth { "true" } else { "false" }
}

fn kind_word(kind: Kind) -> &'static str
    ensures { result.now ≡ kind_word kind }
{
    match kind {
        Kind::Used => "used",
        Kind::Free => "free",
        Kind::Victim => "victim",
        Kind::Top => "top",
        Kind::Record => "record",
        Kind::Foot => "foot",
    }
}

// The first address of something, and how many bytes or pages it has.
fn push_span(out: &mut String, start: u64, size: u64) -> Result<(), AllocError>
    ensures { OnOk result (string_bytes out.new ≡ string_bytes out.old ++ span_text start size) }
{
    write!(out, "0x{start:x}+{size}")
}

// Bytes as two digits each, after a space if there are bytes.
fn push_bytes(out: &mut String, bytes: &[u8]) -> Result<(), AllocError>
    ensures { OnOk result (string_bytes out.new ≡ string_bytes out.old ++ bytes_text bytes.now) }
{
    if bytes.is_empty() {
        return Ok(());
    }
    out.push_str(" ")?;
    push_digits(out, bytes)
}

/// Puts an extent at the end: its kind, the address of its chunk, and its bytes.
pub fn push_extent(out: &mut String, extent: Extent) -> Result<(), AllocError>
    ensures { OnOk result (string_bytes out.new ≡ string_bytes out.old ++ extent_text extent) }
{
    let kind = kind_word(extent.kind);
    write!(out, "{kind}:")?;
    push_span(out, extent.at, extent.size)
}

// The extents, a space before each.
fn push_extents(out: &mut String, extents: &[Extent]) -> Result<(), AllocError>
    ensures { OnOk result (string_bytes out.new ≡ string_bytes out.old ++ spaced extent_text extents.now) }
{
    for extent in extents {
        out.push_str(" ")?;
        push_extent(out, *extent)?;
    }
    Ok(())
}

fn push_reply(out: &mut String, reply: &Reply) -> Result<(), AllocError>
    ensures { OnOk result (string_bytes out.new ≡ string_bytes out.old ++ reply_text reply.now) }
{
    match reply {
        Reply::Block { number, address } => { push_block(out, *number, *address) }
        Reply::Done => out.push_str("done\n"),
        Reply::Bytes(bytes) => {
            out.push_str("bytes")?;
            push_bytes(out, bytes.as_slice())?;
            out.push_str("\n")
        }
        Reply::Byte(byte) => {
            out.push_str("byte")?;
            push_bytes(out, [*byte].as_slice())?;
            out.push_str("\n")
        }
        Reply::Fault(code) => {
            let bits = code.bits();
            writeln!(out, "fault 0x{bits:x}")
        }
        Reply::Trimmed(released) => {
            let word = truth_word(*released);
            writeln!(out, "trimmed {word}")
        }
        Reply::Accepted(accepted) => {
            let word = truth_word(*accepted);
            writeln!(out, "accepted {word}")
        }
        Reply::Released(bytes) => {
            let bytes = *bytes;
            writeln!(out, "released {bytes}")
        }
        Reply::Extents(extents) => {
            out.push_str("extents")?;
            push_extents(out, extents.as_slice())?;
            out.push_str("\n")
        }
        Reply::Refused(why) => {
            let word = refusal_word(*why);
            writeln!(out, "refused {word}")
        }
    }
}

/// Puts the first address of a region and its pages at the end.
pub fn push_pages(out: &mut String, region: Region) -> Result<(), AllocError>
    ensures { OnOk result (string_bytes out.new ≡ string_bytes out.old ++ pages_text region) }
{
    push_span(out, region.start, region.pages)
}

fn push_regions(out: &mut String, regions: &[Region]) -> Result<(), AllocError>
    ensures { OnOk result (string_bytes out.new ≡ string_bytes out.old ++ heap_regions_text regions.now) }
{
    if regions.is_empty() {
        return out.push_str(" none");
    }
    for region in regions {
        out.push_str(" ")?;
        push_pages(out, *region)?;
    }
    Ok(())
}

// The line of the heap regions, if an answer lists them.
fn push_heap_line(out: &mut String, regions: &Option<RegionList>) -> Result<(), AllocError>
    ensures { OnOk result (string_bytes out.new ≡ string_bytes out.old ++ heap_line regions.now) }
{
    match regions {
        None => Ok(()),
        Some(regions) => {
            out.push_str("heap")?;
            push_regions(out, regions.as_slice())?;
            out.push_str("\n")
        }
    }
}

// The slots, a space before each.
fn push_slots(out: &mut String, slots: &[u64]) -> Result<(), AllocError>
    ensures { OnOk result (string_bytes out.new ≡ string_bytes out.old ++ spaced hexadecimal slots.now) }
{
    for slot in slots {
        let slot = *slot;
        write!(out, " 0x{slot:x}")?;
    }
    Ok(())
}

// The line of the slots that were mapped by one entry each, if an answer lists them.
fn push_large_line(out: &mut String, large: &Option<SlotList>) -> Result<(), AllocError>
    ensures { OnOk result (string_bytes out.new ≡ string_bytes out.old ++ large_line large.now) }
{
    match large {
        None => Ok(()),
        Some(slots) => {
            out.push_str("large")?;
            push_slots(out, slots.as_slice())?;
            out.push_str("\n")
        }
    }
}

/// Puts the text of an answer at the end.
#[tactic(auto, unfolding(crate::specs::Text::text_of))]
pub fn push_answer(out: &mut String, answer: &Answer) -> Result<(), AllocError>
    ensures { OnOk result (string_bytes out.new ≡ string_bytes out.old ++ text_of answer.now) }
{
    push_reply(out, &answer.reply)?;
    push_heap_line(out, &answer.regions)?;
    push_large_line(out, &answer.large)
}

/// The text of an answer: its reply, the heap regions if they changed, and the slots that were mapped by one entry
/// each. An `Err` says that the host had too little memory.
pub fn text_of(alloc: Global, answer: &Answer) -> Result<Bytes, AllocError>
    ensures { IfOk result (λ text. text ≡ text_of answer.now) }
{
    let mut out = String::new(alloc);
    push_answer(&mut out, answer)?;
    Ok(Bytes::from_vec(out.into_bytes()))
}

/// Puts whose a region is at the end, and of the user's the rights.
pub fn push_owner(out: &mut String, region: Region) -> Result<(), AllocError>
    ensures { OnOk result (string_bytes out.new ≡ string_bytes out.old ++ owner_text region) }
{
    if region.heap {
        return out.push_str("heap");
    }
    out.push_str("user ")?;
    push_rights(out, region.rights)
}

fn push_region_line(out: &mut String, region: Region) -> Result<(), AllocError>
    ensures { OnOk result (string_bytes out.new ≡ string_bytes out.old ++ region_line region) }
{
    out.push_str("region ")?;
    push_pages(out, region)?;
    out.push_str(" ")?;
    push_owner(out, region)?;
    out.push_str("\n")
}

fn push_region_lines(out: &mut String, regions: &[Region]) -> Result<(), AllocError>
    ensures { OnOk result (string_bytes out.new ≡ string_bytes out.old ++ flat_map region_line regions.now) }
{
    for region in regions {
        push_region_line(out, *region)?;
    }
    Ok(())
}

fn push_counts(out: &mut String, frames: u64, tables: u64) -> Result<(), AllocError>
    ensures { OnOk result (string_bytes out.new ≡ string_bytes out.old ++ counts_line frames tables) }
{
    writeln!(out, "frames {frames} tables {tables}")
}

/// Puts what came of the calls that were drawn at the end.
pub fn push_tally(out: &mut String, calls: u64, blocks: u64, refused: u64) -> Result<(), AllocError>
    ensures { OnOk result (string_bytes out.new ≡ string_bytes out.old ++ tally_line calls blocks refused) }
{
    writeln!(out, "calls {calls} blocks {blocks} refused {refused}")
}

/// Puts the end text of a machine at the end.
pub fn push_end(alloc: Global, out: &mut String, machine: &Machine) -> Result<(), AllocError>
    ensures { OnOk result ((s : State) → Stands (seen machine.now) s → string_bytes out.new ≡ string_bytes out.old ++ end_text_of s) }
{
    let system = machine.system();
    let regions = system.regions(alloc)?;
    push_region_lines(out, regions.as_slice())?;
    push_counts(out, system.free_frames(), system.tables())
}

/// The end text of a machine: its regions by ascending address, its free frames and its tables. An `Err`
/// says that the host had too little memory.
pub fn end_text(alloc: Global, machine: &Machine) -> Result<Bytes, AllocError>
    ensures { IfOk result (λ text. (s : State) → Stands (seen machine.now) s → text ≡ end_text_of s) }
{
    let mut out = String::new(alloc);
    push_end(alloc, &mut out, machine)?;
    Ok(Bytes::from_vec(out.into_bytes()))
}
