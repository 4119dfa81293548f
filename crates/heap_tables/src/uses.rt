// The frames of a memory, by their use.
ghost use Rattle.std.specs.Prelude.{◌≡◌, List, ◌∷◌, length, IfOk};
ghost use Rattle.heap_tables.specs.declared.lines.Line.{Line};
ghost use Rattle.heap_tables.specs.Uses.{use_of_owner, use_in, uses_of, same_use, use_count};

use crate::lines::Line;
use crate::owners::Owner;
use crate::rows::{frames_of, is_large, is_table};
use std::alloc::{AllocError, Global};

/// What a frame is used for.
#[derive(Clone, Copy, PartialEq, Eq, Debug)]
pub enum Use {
    /// For a page table.
    Table,
    /// In a large page.
    Large,
    /// For a page of the heap.
    HeapPage,
    /// For a page of the user.
    UserPage,
    /// For nothing that a walk meets.
    Free,
}

// A page of an owner.
fn page_of(owner: Owner) -> Use
    ensures { result ≡ use_of_owner owner }
{
    match owner {
        Owner::Heap => Use::HeapPage,
        Owner::User => Use::UserPage,
    }
}

// What a line uses its frames for.
fn use_in(line: Line) -> Use
    ensures { result ≡ use_in line }
{
    if is_table(line) {
        Use::Table
    } else if is_large(line) {
        Use::Large
    } else {
        page_of(line.owner)
    }
}

// Paints the frames of a line that exist with its use, over that of the lines after it.
fn paint(uses: &mut [Use], line: Line)
    ensures { (lines : List Line) → uses.old ≡ uses_of lines (length uses.old) → uses.new ≡ uses_of (line ∷ lines) (length uses.old) }
{
    let frames = uses.len() as u64;
    let first = line.frame.min(frames);
    let end = line.frame.saturating_add(frames_of(line)).min(frames);
    uses[first as usize..end as usize].fill(use_in(line));
}

/// What each frame of a memory is used for. The lines are painted from the last to the first, so that of several that have
/// a frame the first one says its use. `frames` is how many frames the memory has.
#[tactic(auto, using(crate::proofs::Painted::none_left, std::proofs::lemmas::Grind::common_steps))]
pub fn uses_of(alloc: Global, lines: &[Line], frames: u32) -> Result<Vec<Use>, AllocError>
    ensures { IfOk result (λ uses. uses.items ≡ uses_of lines.now frames) }
{
    let mut uses = vec![in alloc; Use::Free; frames as usize]?;
    for place in (0..lines.len()).rev() {
        paint(&mut uses, lines[place]);
    }
    Ok(uses)
}

/// Whether two uses are the same.
pub fn same_use(one: Use, other: Use) -> bool
    ensures { result ≡ same_use one other }
{
    match one {
        Use::Table => other == Use::Table,
        Use::Large => other == Use::Large,
        Use::HeapPage => other == Use::HeapPage,
        Use::UserPage => other == Use::UserPage,
        Use::Free => other == Use::Free,
    }
}

/// How many frames are used so.
pub fn number_of(uses: &[Use], of: Use) -> u64
    ensures value { result ≡ use_count of uses.now }
{
    let mut number = 0;
    for one in uses {
        if same_use(of, *one) {
            number += 1;
        }
    }
    number
}
