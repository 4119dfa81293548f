// The regions, a line each.
ghost use Rattle.std.specs.Prelude.{◌≡◌, ◌≤◌, ◌<◌, ◌^◌, ◌++◌, OnOk, string_bytes};
ghost use Rattle.machine_model.specs.State.{State, total_pages};
ghost use Rattle.heap_program.specs.Progress.{IsAt};
ghost use Rattle.heap_picture.specs.Regions.{region_line_words, bar_width, region_line_class, region_line_title, pages_bar_text, larges_words, larges_text, region_line_text, region_lines_text, lines_shown, more_regions_words, more_regions_text, regions_list_text, free_front, free_words, free_frames_words, regions_heading, regions_text};

use crate::large::larges_in;
use crate::lines::{most_pages, region_lines, total_pages};
use heap_map::{Area, push_address, push_commas, push_counted, push_rect, push_text, push_titled};
use heap_program::{push_owner, push_pages};
use kernel_heap::{Machine, Region};
use std::alloc::{AllocError, Global};

// Puts the address of a line at the end, its pages, and whose they are.
#[tactic(auto, unfolding(crate::specs::Regions::region_line_words))]
fn push_line_words(alloc: Global, out: &mut String, y: u128, line: Region) -> Result<(), AllocError>
    ensures { OnOk result (string_bytes out.new ≡ string_bytes out.old ++ region_line_words y line) }
{
    let mut address = String::new(alloc);
    push_address(&mut address, line.start)?;
    push_text(out, "m", 912, y, address.as_str())?;
    let mut pages = String::new(alloc);
    push_counted(&mut pages, "page", u128::from(line.pages))?;
    push_text(out, "m e", 1120, y, pages.as_str())?;
    let mut owner = String::new(alloc);
    push_owner(&mut owner, line)?;
    push_text(out, "m e faint", 1280, y, owner.as_str())
}

// The pixels of `pages` pages, if a line has at most `most`.
fn bar_width(pages: u128, most: u64) -> u128
    requires { pages < 2 ^ 110 }
    ensures { result ≡ bar_width pages most }
{
    (368 * pages / u128::from(most).max(1)).max(3).min(368)
}

// The colour of a line.
fn line_class(line: Region) -> &'static str
    ensures { result.now ≡ region_line_class line }
{
    if line.heap { "u" } else { "w" }
}

#[tactic(auto, unfolding(crate::specs::Regions::region_line_title))]
fn push_line_title(out: &mut String, line: Region) -> Result<(), AllocError>
    ensures { OnOk result (string_bytes out.new ≡ string_bytes out.old ++ region_line_title line) }
{
    push_pages(out, line)?;
    out.push_str(" ")?;
    push_owner(out, line)
}

// Puts the bar of a line at the end.
#[tactic(auto, unfolding(crate::specs::Regions::pages_bar_text))]
fn push_bar(
    alloc: Global,
    out: &mut String,
    y: u128,
    most: u64,
    line: Region,
) -> Result<(), AllocError>
    requires { y < 2 ^ 100 }
    ensures { OnOk result (string_bytes out.new ≡ string_bytes out.old ++ pages_bar_text y most line) }
{
    let y = y + 5;
    let ground = Area {
        x: 912,
        y,
        width: 368,
        height: 4,
    };
    push_rect(out, "line", ground)?;
    let area = Area {
        x: 912,
        y,
        width: bar_width(u128::from(line.pages), most),
        height: 4,
    };
    let mut title = String::new(alloc);
    push_line_title(&mut title, line)?;
    push_titled(out, line_class(line), area, title.as_str())
}

#[tactic(auto, unfolding(crate::specs::Regions::larges_words))]
fn push_larges_words(out: &mut String, larges: u128) -> Result<(), AllocError>
    ensures { OnOk result (string_bytes out.new ≡ string_bytes out.old ++ larges_words larges) }
{
    push_commas(out, larges)?;
    out.push_str(" large")
}

// Puts how many large pages a line has at the end, and their part of its bar, if there are any.
#[tactic(auto, unfolding(crate::specs::Regions::larges_text))]
fn push_larges(
    alloc: Global,
    out: &mut String,
    y: u128,
    most: u64,
    pages: u64,
    larges: u128,
) -> Result<(), AllocError>
    requires y { y < 2 ^ 100 }
    requires larges { larges < 2 ^ 100 }
    ensures { OnOk result (string_bytes out.new ≡ string_bytes out.old ++ larges_text y most pages larges) }
{
    if larges == 0 {
        return Ok(());
    }
    let mut words = String::new(alloc);
    push_larges_words(&mut words, larges)?;
    push_text(out, "m e faint", 1206, y, words.as_str())?;
    let area = Area {
        x: 912,
        y: y + 5,
        width: bar_width(u128::from(pages).min(512 * larges), most),
        height: 4,
    };
    push_titled(out, "l", area, words.as_str())
}

// Puts a line at the end.
fn push_line(
    alloc: Global,
    out: &mut String,
    y: u128,
    most: u64,
    line: Region,
    machine: &Machine,
) -> Result<(), AllocError>
    requires { y < 2 ^ 100 }
    ensures { OnOk result ((s : State) → IsAt machine.now s → string_bytes out.new ≡ string_bytes out.old ++ region_line_text s.large most y line) }
{
    push_line_words(alloc, out, y, line)?;
    push_bar(alloc, out, y, most, line)?;
    push_larges(alloc, out, y, most, line.pages, larges_in(machine, line))
}

// Puts lines at the end, one below the other.
fn push_lines(
    alloc: Global,
    out: &mut String,
    y: u128,
    most: u64,
    lines: &[Region],
    machine: &Machine,
) -> Result<(), AllocError>
    requires { y < 2 ^ 90 }
    ensures { OnOk result ((s : State) → IsAt machine.now s → string_bytes out.new ≡ string_bytes out.old ++ region_lines_text s.large most y lines.now) }
{
    let mut below = y;
    for line in lines {
        push_line(alloc, out, below, most, *line, machine)?;
        below += 25;
    }
    Ok(())
}

// How many of the lines have room.
fn lines_shown(lines: usize) -> usize
    ensures value { result ≡ lines_shown lines }
    ensures few { result ≤ lines }
{
    if lines <= 7 { lines } else { 6 }
}

#[tactic(auto, unfolding(crate::specs::Regions::more_regions_words))]
fn push_more_words(out: &mut String, lines: u128, pages: u128) -> Result<(), AllocError>
    ensures { OnOk result (string_bytes out.new ≡ string_bytes out.old ++ more_regions_words lines pages) }
{
    out.push_str("and ")?;
    push_commas(out, lines)?;
    out.push_str(" more, of ")?;
    push_counted(out, "page", pages)
}

// Puts how many lines there are more at the end, if there are any.
#[tactic(auto, unfolding(crate::specs::Regions::more_regions_text))]
fn push_more(alloc: Global, out: &mut String, y: u128, lines: &[Region]) -> Result<(), AllocError>
    ensures { OnOk result (string_bytes out.new ≡ string_bytes out.old ++ more_regions_text y lines.now) }
{
    if lines.len() == 0 {
        return Ok(());
    }
    let mut words = String::new(alloc);
    push_more_words(&mut words, lines.len() as u128, total_pages(lines))?;
    push_text(out, "faint", 912, y, words.as_str())
}

// Puts the lines at the end that have room, and counts the others.
fn push_list(
    alloc: Global,
    out: &mut String,
    y: u128,
    lines: &[Region],
    machine: &Machine,
) -> Result<(), AllocError>
    requires { y < 2 ^ 90 }
    ensures { OnOk result ((s : State) → IsAt machine.now s → string_bytes out.new ≡ string_bytes out.old ++ regions_list_text s.large y lines.now) }
{
    let shown = lines_shown(lines.len());
    push_lines(alloc, out, y, most_pages(lines), &lines[..shown], machine)?;
    push_more(alloc, out, y + 150, &lines[shown..])
}

#[tactic(auto, unfolding(crate::specs::Regions::free_front))]
fn free_front() -> &'static str
    ensures { result.now ≡ free_front }
{
    "free frames: "
}

#[tactic(auto, unfolding(crate::specs::Regions::free_words))]
fn push_free_words(out: &mut String, frames: u128) -> Result<(), AllocError>
    ensures { OnOk result (string_bytes out.new ≡ string_bytes out.old ++ free_words frames) }
{
    out.push_str(free_front())?;
    push_commas(out, frames)
}

#[tactic(auto, unfolding(crate::specs::Regions::free_frames_words))]
fn push_frames_words(out: &mut String, frames: u128, tables: u128) -> Result<(), AllocError>
    ensures { OnOk result (string_bytes out.new ≡ string_bytes out.old ++ free_frames_words frames tables) }
{
    push_free_words(out, frames)?;
    out.push_str(", tables: ")?;
    push_commas(out, tables)
}

// Puts the heading at the end.
#[tactic(auto, unfolding(crate::specs::Regions::regions_heading))]
fn push_heading(
    alloc: Global,
    out: &mut String,
    y: u128,
    frames: u64,
    tables: u64,
) -> Result<(), AllocError>
    ensures { OnOk result (string_bytes out.new ≡ string_bytes out.old ++ regions_heading y frames tables) }
{
    push_text(out, "q", 912, y, "Regions")?;
    let mut words = String::new(alloc);
    push_frames_words(&mut words, u128::from(frames), u128::from(tables))?;
    push_text(out, "e faint", 1280, y, words.as_str())
}

/// Puts the regions of a machine at the end, from a base line on.
#[tactic(auto, using(crate::proofs::Pictures::few_pages))]
pub fn push_regions(
    alloc: Global,
    out: &mut String,
    y: u128,
    machine: &Machine,
) -> Result<(), AllocError>
    requires { y < 2 ^ 80 }
    ensures { OnOk result ((s : State) → IsAt machine.now s → string_bytes out.new ≡ string_bytes out.old ++ regions_text y s) }
{
    let system = machine.system();
    let list = system.regions(alloc)?;
    let lines = region_lines(alloc, list.as_slice())?;
    push_heading(alloc, out, y, system.free_frames(), system.tables())?;
    push_list(alloc, out, y + 26, &lines, machine)
}
