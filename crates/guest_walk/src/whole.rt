//! The whole walk, over words in a row.

ghost use Rattle.std.specs.Prelude.{◌≡◌, ◌+◌, ◌*◌, ◌/◌, ◌%◌, ◌^◌, ◌<◌};
ghost use Rattle.paging_core.specs.Memory.{word_at};
ghost use Rattle.paging_core.specs.ProcessorWalk.{index_of};
ghost use Rattle.guest_walk.specs.GuestWalk.{guest_walk, ending_of};

use crate::mode::Mode;
use crate::walking::{End, Found, Next, index_of, past_entry};
use paging_core::{Mapped, Page, PhysFrame};

/// A word of a frame, in a memory that begins at address 0. It is 0 past its end.
fn word_at(words: &[u64], frame: PhysFrame, index: u64) -> u64
    requires { index < 512 }
    ensures { result ≡ word_at words.now frame index }
{
    let place = 512 * frame.number() + index;
    if place < words.len() as u64 {
        words[place as usize]
    } else {
        0
    }
}

/// The entry that the walk of the page reads in the table of the step.
fn entry_at(words: &[u64], table: Mapped, step: u8, page: Page) -> u64
    ensures { result ≡ word_at words.now table.frame (index_of step page) }
{
    word_at(words, table.frame, index_of(step, page.number()))
}

/// Where the walk of the page ends, over a memory that begins at physical address 0. Any words will do: the entries may have any
/// bits, and need not be a tree.
///
/// A physical address has `width` bits. The walk reads at most four words; what is past the memory reads as 0.
pub fn walk(mode: Mode, words: &[u64], root: PhysFrame, page: Page, width: u8) -> End
    ensures { ending_of result ≡ guest_walk mode width words.now root page }
{
    let mut from = Found::root(root);
    for step in 0..4u8 {
        let entry = entry_at(words, from.mapped, step, page);
        match past_entry(mode, width, page, step, from, entry) {
            Next::Table(to) => from = to,
            Next::End(end) => return end,
        }
    }
    unreachable!()
}
