// The blocks that were handed out, by number.
ghost use Rattle.std.specs.Prelude.{◌≡◌, ◌≢◌, ◌+◌, ◌<◌, ◌≤◌, ◌++◌, ◌∷◌, Some, None, OnOk, OnErr, [], length, replicate, slice_set};
ghost use Rattle.kernel_heap.specs.Numbered.{live_at};
ghost use Rattle.kernel_heap.specs.NumberedBlocks.{HaveEnded};

use machine_model::Live;
use std::alloc::{AllocError, Global};
use std::marker::Model;

// Ends all blocks. None before a number is live.
fn end_from(blocks: &mut Vec<Option<Live>>, first: usize)
    requires { HaveEnded blocks.old.items first }
    ensures { blocks.new.items ≡ replicate (length blocks.old.items) None }
{
    for number in first..blocks.len() {
        blocks[number] = None;
    }
}

/// All blocks that were handed out, by number, and nothing at the number of one that has ended. A number that has ended
/// stays so.
#[derive(Drop)]
pub(crate) struct NumberedBlocks {
    blocks: Vec<Option<Live>>,
    /// No block before this number is live, so a reset has nothing to end there.
    first: usize,
}

impl Model for NumberedBlocks {
    ghost use Rattle.std.specs.Prelude.{vec_capacity};
    ghost use Rattle.kernel_heap.specs.NumberedBlocks.{BlocksByNumber, HaveEnded};

    ghost Value = { BlocksByNumber };

    ghost view = { λ all. record { items = all.blocks.items; capacity = vec_capacity all.blocks } };

    ghost invariant = { λ all. HaveEnded all.blocks.items all.first };
}

impl NumberedBlocks {
    /// No blocks.
    pub(crate) fn new(alloc: Global) -> Self
        ensures { result.items ≡ [] }
    {
        NumberedBlocks {
            blocks: Vec::new(alloc),
            first: 0,
        }
    }

    /// Makes a place for a block more. An `Err` says that no memory was left.
    pub(crate) fn reserve(&mut self) -> Result<(), AllocError>
        ensures items { self.new.items ≡ self.old.items }
        ensures place { OnOk result (length self.new.items < self.new.capacity) }
        ensures full { OnErr result (self.old.capacity ≤ length self.old.items) }
    {
        self.blocks.reserve(1)
    }

    /// Numbers a block. It has its place.
    pub(crate) fn push(&mut self, live: Live) -> u64
        requires place { length self.old.items < self.old.capacity }
        ensures number { result ≡ length self.old.items }
        ensures items { self.new.items ≡ self.old.items ++ Some live ∷ [] }
    {
        let number = self.blocks.len() as u64;
        self.blocks.push_reserved(Some(live));
        number
    }

    /// The live block of a number, if there is one.
    pub(crate) fn get(&self, number: u64) -> Option<Live>
        ensures { result ≡ live_at self.now.items number }
    {
        match self.blocks.get(number as usize) {
            Some(live) => *live,
            None => None,
        }
    }

    /// Puts a live block elsewhere or gives it another size.
    pub(crate) fn change(&mut self, number: u64, live: Live)
        requires live { live_at self.old.items number ≢ None }
        ensures { self.new.items ≡ slice_set self.old.items number (Some live) }
    {
        self.blocks[number as usize] = Some(live);
    }

    /// Ends a live block.
    pub(crate) fn end(&mut self, number: u64)
        requires live { live_at self.old.items number ≢ None }
        ensures { self.new.items ≡ slice_set self.old.items number None }
    {
        self.blocks[number as usize] = None;
    }

    /// Ends all blocks. Their numbers stay. Over a run it takes as long as there are blocks, and not more for each call.
    pub(crate) fn end_all(&mut self)
        ensures { self.new.items ≡ replicate (length self.old.items) None }
    {
        end_from(&mut self.blocks, self.first);
        self.first = self.blocks.len();
    }
}
