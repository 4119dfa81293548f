// The image of a machine.
ghost use Rattle.std.specs.Prelude.{◌≡◌, ◌<◌, ◌++◌, OnOk, length, slice_index, string_bytes};
ghost use Rattle.std.specs.List.{flat_map};
ghost use Rattle.heap_program.specs.Text.{region_line};
ghost use Rattle.memory_image.specs.Image.{number_text, registers_line, word_line, word_lines, memory_text, image_text};

use heap_program::{push_owner, push_pages};
use kernel_heap::{Machine, Region};
use paging_core::{Frames, PhysAddr, PhysFrame};
use std::alloc::{AllocError, Global};
use x86_registers::Cpu;

// Puts a number at the end, after a space.
fn push_number(out: &mut String, number: u64) -> Result<(), AllocError>
    ensures { OnOk result (string_bytes out.new ≡ string_bytes out.old ++ number_text number) }
{
    write!(out, " 0x{number:x}")
}

fn push_registers(out: &mut String, cpu: &Cpu) -> Result<(), AllocError>
    ensures { OnOk result (string_bytes out.new ≡ string_bytes out.old ++ registers_line cpu.now) }
{
    out.push_str("registers")?;
    push_number(out, cpu.cr0)?;
    push_number(out, cpu.cr2)?;
    push_number(out, cpu.cr3)?;
    push_number(out, cpu.cr4)?;
    push_number(out, cpu.efer)?;
    out.push_str("\n")
}

fn push_region(out: &mut String, region: Region) -> Result<(), AllocError>
    ensures { OnOk result (string_bytes out.new ≡ string_bytes out.old ++ region_line region) }
{
    out.push_str("region ")?;
    push_pages(out, region)?;
    out.push_str(" ")?;
    push_owner(out, region)?;
    out.push_str("\n")
}

fn push_regions(out: &mut String, regions: &[Region]) -> Result<(), AllocError>
    ensures { OnOk result (string_bytes out.new ≡ string_bytes out.old ++ flat_map region_line regions.now) }
{
    for region in regions {
        push_region(out, *region)?;
    }
    Ok(())
}

// Puts a word at the end, unless it is 0.
fn push_word(out: &mut String, place: u64, word: u64) -> Result<(), AllocError>
    ensures { OnOk result (string_bytes out.new ≡ string_bytes out.old ++ word_line place word) }
{
    if word == 0 {
        return Ok(());
    }
    writeln!(out, "word 0x{place:x} 0x{word:x}")
}

// The word of this number.
fn word_of(frames: &Frames, number: u64) -> u64
    requires { number < length frames.now }
    ensures { result ≡ slice_index frames.now number }
{
    // There are fewer than 2^32 frames.
    let _count = frames.count();
    let frame = PhysFrame::containing_address(PhysAddr::new(8 * number));
    frames.word(frame, (number % 512) as u16)
}

// Each word that is not 0.
fn push_words(out: &mut String, frames: &Frames) -> Result<(), AllocError>
    ensures { OnOk result (string_bytes out.new ≡ string_bytes out.old ++ word_lines 0 frames.now) }
{
    for number in 0..512 * u64::from(frames.count()) {
        push_word(out, 8 * number, word_of(frames, number))?;
    }
    Ok(())
}

fn push_memory(out: &mut String, frames: &Frames) -> Result<(), AllocError>
    ensures { OnOk result (string_bytes out.new ≡ string_bytes out.old ++ memory_text frames.now) }
{
    let count = frames.count();
    writeln!(out, "memory {count}")?;
    push_words(out, frames)
}

/// Puts the image of a machine at the end: its registers, its regions, and its memory.
pub fn push_image(alloc: Global, out: &mut String, machine: &Machine) -> Result<(), AllocError>
    ensures { OnOk result (string_bytes out.new ≡ string_bytes out.old ++ image_text machine.now) }
{
    let system = machine.system();
    let regions = system.regions(alloc)?;
    push_registers(out, machine.cpu())?;
    push_regions(out, regions.as_slice())?;
    push_memory(out, system.frames())
}
