// The regions as a picture lists them.
ghost use Rattle.std.specs.Prelude.{◌≡◌, ◌<◌, ◌+◌, ◌^◌, IfOk};
ghost use Rattle.machine_model.specs.State.{total_pages};
ghost use Rattle.heap_picture.specs.Lines.{same, same_rights, adjoins, with_adjoining, region_lines, most_pages};

use kernel_heap::{Region, Rights};
use std::alloc::{AllocError, Global};

fn same(one: bool, other: bool) -> bool
    ensures { result ≡ same one other }
{
    if one { other } else { !other }
}

fn same_rights(one: Rights, other: Rights) -> bool
    ensures { result ≡ same_rights one other }
{
    same(one.write, other.write) && (same(one.user, other.user) && same(one.fetch, other.fetch))
}

// Whether a region begins where another ends, and has its owner and its rights.
fn goes_on(region: Region, next: Region) -> bool
    ensures { result ≡ adjoins region next }
{
    let end = u128::from(region.start) + 4096 * u128::from(region.pages);
    end == u128::from(next.start)
        && (same(region.heap, next.heap) && same_rights(region.rights, next.rights))
}

// A region with the pages of the next one.
fn with_next(region: Region, next: Region) -> Region
    requires { region.pages + next.pages < 2 ^ 64 }
    ensures { result ≡ with_adjoining region next }
{
    Region {
        start: region.start,
        pages: region.pages + next.pages,
        heap: region.heap,
        rights: region.rights,
    }
}

/// The pages of all regions.
pub fn total_pages(regions: &[Region]) -> u128
    ensures value { result ≡ total_pages regions.now }
    ensures few { result < 2 ^ 127 }
{
    let mut pages = 0;
    for region in regions {
        pages += u128::from(region.pages);
    }
    pages
}

/// The regions, where neighbours of one owner and equal rights are one.
#[tactic(auto, using(crate::proofs::Joins::lines_step, crate::proofs::Joins::lines_last, crate::proofs::Joins::lines_first, crate::proofs::Joins::pages_step, crate::proofs::Joins::pages_first, std::proofs::lemmas::Grind::common_steps))]
pub fn region_lines(alloc: Global, regions: &[Region]) -> Result<Vec<Region>, AllocError>
    requires { total_pages regions.now < 2 ^ 32 }
    ensures { IfOk result (λ lines. lines.items ≡ region_lines regions.now) }
{
    let mut lines = Vec::new(alloc);
    if regions.is_empty() {
        return Ok(lines);
    }
    let mut line = regions[0];
    for place in 1..regions.len() {
        let next = regions[place];
        if goes_on(line, next) {
            line = with_next(line, next);
        } else {
            lines.push(line)?;
            line = next;
        }
    }
    lines.push(line)?;
    Ok(lines)
}

/// The pages of the line that has most.
pub fn most_pages(lines: &[Region]) -> u64
    ensures { result ≡ most_pages lines.now }
{
    let mut most = 0;
    for line in lines {
        most = line.pages.max(most);
    }
    most
}
