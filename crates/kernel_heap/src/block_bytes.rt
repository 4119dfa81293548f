// Bytes of live blocks.
ghost use Rattle.std.specs.Prelude.{◌≡◌, IfOk, IfErr, Some};
ghost use Rattle.dlmalloc.specs.Blocks.{ArePlaced};
ghost use Rattle.kernel_heap.specs.Heap.{regions};
ghost use Rattle.kernel_heap.specs.Machine.{system_of, heap_of};
ghost use Rattle.kernel_heap.specs.Numbered.{live_at, refuse_live, HasBytes};
ghost use Rattle.kernel_heap.specs.LaidOut.{IsNumberedSound};
ghost use Rattle.kernel_heap.specs.Served.{HasServedCall};

use crate::beside;
use crate::numbered_heap::{NumberedHeap, refused};
use machine_model::{Answer, Call, Refusal, Reply};
use std::alloc::AllocError;

impl NumberedHeap {
    /// The address of the byte at an offset of a live block, where `count` bytes from there lie in the block.
    fn find_bytes(&self, number: u64, offset: u64, count: u64) -> Result<u64, Refusal>
        requires sound { IsNumberedSound self.now }
        ensures ok { IfOk result (λ address. HasBytes self.now.blocks.items number offset count address) }
        ensures err { IfErr result (λ refusal. refuse_live (live_at self.now.blocks.items number) offset count ≡ Some refusal) }
        ensures placed { ArePlaced (regions (system_of self.now)) (heap_of self.now) }
    {
        self.heap.law_blocks_placed();
        let Some(live) = self.live(number) else {
            return Err(Refusal::UnknownBlock);
        };
        if offset > live.size || count > live.size - offset {
            return Err(Refusal::OutOfBlock);
        }
        Ok(live.address + offset)
    }

    /// Puts bytes into a block. It takes no memory.
    pub(crate) fn write(&mut self, number: u64, offset: u64, bytes: &[u8]) -> Answer
        requires sound { IsNumberedSound self.old }
        ensures sound { IsNumberedSound self.new }
        ensures ok { HasServedCall self.old (Call.Write number offset bytes.now) result self.new }
    {
        match self.find_bytes(number, offset, bytes.len() as u64) {
            Ok(address) => {
                beside::write_bytes(&mut self.heap, address, bytes);
                Answer {
                    reply: Reply::Done,
                    regions: None,
                    large: None,
                }
            }
            Err(refusal) => refused(refusal),
        }
    }

    /// Reads bytes of a block.
    pub(crate) fn read(&self, number: u64, offset: u64, count: u64) -> Result<Answer, AllocError>
        requires sound { IsNumberedSound self.now }
        ensures ok { IfOk result (λ answer. HasServedCall self.now (Call.Read number offset count) answer self.now) }
    {
        match self.find_bytes(number, offset, count) {
            Ok(address) => Ok(Answer {
                reply: Reply::Bytes(self.heap.system().read_bytes(self.alloc, address, count)?),
                regions: None,
                large: None,
            }),
            Err(refusal) => Ok(refused(refusal)),
        }
    }
}
