// Lines that go on, as one.
ghost use Rattle.std.specs.Prelude.{◌≡◌, IfOk};
ghost use Rattle.heap_tables.specs.Joining.{same, same_bits, goes_on, with_next, joined_lines};

use crate::lines::Line;
use crate::owners::same_owner;
use paging_core::PageBits;
use std::alloc::{AllocError, Global};

fn same(one: bool, other: bool) -> bool
    ensures { result ≡ same one other }
{
    if one { other } else { !other }
}

/// Whether two pages have equal rights, are of one type, and both global or neither.
pub fn same_bits(one: PageBits, other: PageBits) -> bool
    ensures { result ≡ same_bits one other }
{
    same(one.write, other.write)
        && (same(one.user, other.user)
            && (same(one.fetch, other.fetch)
                && (same(one.through, other.through)
                    && (same(one.uncached, other.uncached) && same(one.global, other.global)))))
}

// Whether the pages of a line go on in the next one.
fn goes_on(line: Line, next: Line) -> bool
    ensures { result ≡ goes_on line next }
{
    line.page < line.end
        && (next.page < next.end
            && (line.end == next.page
                && (u128::from(line.frame) + u128::from(line.end - line.page)
                    == u128::from(next.frame)
                    && (line.steps == next.steps
                        && (same_owner(line.owner, next.owner)
                            && same_bits(line.rights, next.rights))))))
}

// A line with the pages of the next one.
fn with_next(line: Line, next: Line) -> Line
    ensures { result ≡ with_next line next }
{
    Line {
        steps: line.steps,
        index: line.index,
        page: line.page,
        end: next.end,
        frame: line.frame,
        owner: line.owner,
        rights: line.rights,
    }
}

/// The lines, in which those that go on are one.
#[tactic(auto, using(crate::proofs::Joins::lines_step, crate::proofs::Joins::lines_last, crate::proofs::Joins::lines_first, std::proofs::lemmas::Grind::common_steps))]
pub fn joined(alloc: Global, lines: &[Line]) -> Result<Vec<Line>, AllocError>
    ensures { IfOk result (λ all. all.items ≡ joined_lines lines.now) }
{
    let mut all = Vec::new(alloc);
    if lines.is_empty() {
        return Ok(all);
    }
    let mut line = lines[0];
    for place in 1..lines.len() {
        let next = lines[place];
        if goes_on(line, next) {
            line = with_next(line, next);
        } else {
            all.push(line)?;
            line = next;
        }
    }
    all.push(line)?;
    Ok(all)
}
