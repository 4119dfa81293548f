// Global descriptor tables and task state segments.
ghost use Rattle.std.specs.Prelude.{◌≡◌, ◌∷◌, [], ◌++◌, OnOk, codes, string_bytes};
ghost use Rattle.std.specs.List.{flat_map};
ghost use Rattle.register_image.specs.Numbers.{line, number_text};
ghost use Rattle.register_image.specs.Segments.{segments_text, selectors, table_text, words};

use crate::numbers::{push_line, push_number};
use paging_core::VirtAddr;
use std::alloc::AllocError;
use x86_registers::Cpu;
use x86_tables::gdt::{Descriptor, Entry, GlobalDescriptorTable};
use x86_tables::tss::TaskStateSegment;

fn push_selectors(out: &mut String, selectors: &[u16]) -> Result<(), AllocError>
    ensures { OnOk result (string_bytes out.new ≡ string_bytes out.old ++ flat_map number_text selectors.now) }
{
    for selector in selectors {
        push_number(out, u64::from(*selector))?;
    }
    Ok(())
}

fn push_words(out: &mut String, words: &[Entry]) -> Result<(), AllocError>
    ensures { OnOk result (string_bytes out.new ≡ string_bytes out.old ++ flat_map number_text words.now) }
{
    for word in words {
        push_number(out, word.raw())?;
    }
    Ok(())
}

fn push_selectors_line(out: &mut String, selectors: &[u16]) -> Result<(), AllocError>
    ensures { OnOk result (string_bytes out.new ≡ string_bytes out.old ++ line (codes "selectors") selectors.now) }
{
    out.push_str("selectors")?;
    push_selectors(out, selectors)?;
    out.push_str("\n")
}

fn push_words_line(out: &mut String, words: &[Entry]) -> Result<(), AllocError>
    ensures { OnOk result (string_bytes out.new ≡ string_bytes out.old ++ line (codes "gdt") words.now) }
{
    out.push_str("gdt")?;
    push_words(out, words)?;
    out.push_str("\n")
}

// Appends to a new table the four segments of a kernel and its users, one that is given, and a task state segment. The
// answer is their selectors.
#[tactic(auto, unfolding(crate::specs::Segments::words, crate::specs::Segments::selectors))]
fn fill(gdt: &mut GlobalDescriptorTable<8>, given: u64, task: Descriptor) -> [u16; 6]
    requires { gdt.old ≡ 0 ∷ [] }
    ensures words { gdt.new ≡ words given task }
    ensures selectors { result ≡ selectors given task }
{
    let code = gdt.append(Descriptor::kernel_code_segment()).0;
    let data = gdt.append(Descriptor::kernel_data_segment()).0;
    let user_data = gdt.append(Descriptor::user_data_segment()).0;
    let user_code = gdt.append(Descriptor::user_code_segment()).0;
    let given = gdt.append(Descriptor::UserSegment(given)).0;
    let task = gdt.append(task).0;
    [code, data, user_data, user_code, given, task]
}

// A table of these segments.
fn push_table(
    out: &mut String,
    at: VirtAddr,
    given: u64,
    task: Descriptor,
) -> Result<(), AllocError>
    ensures { OnOk result (string_bytes out.new ≡ string_bytes out.old ++ table_text at given task) }
{
    let mut gdt = GlobalDescriptorTable::<8>::new();
    let selectors = fill(&mut gdt, given, task);
    let mut cpu = Cpu::new();
    gdt.load(&mut cpu, at);
    push_selectors_line(out, selectors.as_slice())?;
    push_words_line(out, gdt.entries())?;
    push_line(out, "gdtr", cpu.gdtr.to_bytes().as_slice())
}

/// Puts a task state segment at the end, and before it the table at `at` whose last descriptor is its own, if it lies at
/// `tss_at` and its map of ports at `map_at`. Before that one stands the descriptor that is given.
pub fn push_segments(
    out: &mut String,
    at: VirtAddr,
    given: u64,
    tss_at: VirtAddr,
    tss: &TaskStateSegment,
    map_at: VirtAddr,
    map: &[u8],
) -> Result<(), AllocError>
    ensures { OnOk result (string_bytes out.new ≡ string_bytes out.old ++ segments_text at given tss_at tss.now map_at map.now) }
{
    match Descriptor::tss_segment_with_iomap(tss_at, tss, map_at, map) {
        Ok(task) => {
            push_table(out, at, given, task)?;
            push_line(out, "tss", tss.to_bytes().as_slice())
        }
        Err(_) => out.push_str("no segment\n"),
    }
}
