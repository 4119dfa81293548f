// Regions of the user, as calls of the machine.
ghost use Rattle.std.specs.Prelude.{◌≡◌, IfOk, OnErr, None};
ghost use Rattle.kernel_heap.specs.LaidOut.{IsNumberedSound};
ghost use Rattle.kernel_heap.specs.Served.{HasServedCall, IsServedOrNot};
ghost use Rattle.kernel_heap.specs.Refusing.{map_refusal, unmap_refusal, IsRefusal};

use crate::beside;
use crate::numbered_heap::{NumberedHeap, refused};
use machine_model::{Answer, Call, Refusal, Reply, Rights};
use mapped_regions::{MapFault, UnmapFault};
use std::alloc::AllocError;

/// The answer where pages are not mapped. Want of memory leaves none.
fn refused_map(fault: MapFault) -> Result<Answer, AllocError>
    ensures ok { IfOk result (λ answer. IsRefusal (map_refusal fault) answer) }
    ensures err { OnErr result (map_refusal fault ≡ None) }
{
    match fault {
        MapFault::BadRange => Ok(refused(Refusal::BadRange)),
        MapFault::HeapRegion => Ok(refused(Refusal::HeapRegion)),
        MapFault::Overlap => Ok(refused(Refusal::Overlap)),
        MapFault::NoFrames => Ok(refused(Refusal::NoFrames)),
        MapFault::OutOfMemory => Err(AllocError),
    }
}

/// Why pages are not unmapped.
fn unmap_refusal(fault: UnmapFault) -> Refusal
    ensures { result ≡ unmap_refusal fault }
{
    match fault {
        UnmapFault::BadRange => Refusal::BadRange,
        UnmapFault::HeapRegion => Refusal::HeapRegion,
        UnmapFault::UnknownRegion => Refusal::UnknownRegion,
    }
}

impl NumberedHeap {
    /// Maps pages as a region of the user.
    pub(crate) fn map(
        &mut self,
        start: u64,
        pages: u64,
        rights: Rights,
    ) -> Result<Answer, AllocError>
        requires sound { IsNumberedSound self.old }
        ensures sound { IsNumberedSound self.new }
        ensures served { IsServedOrNot self.old (Call.Map start pages rights) result self.new }
    {
        let before = self.marks();
        match beside::map(&mut self.heap, start, pages, rights) {
            Ok(()) => Ok(Answer {
                reply: Reply::Done,
                regions: None,
                large: self.new_slots(before),
            }),
            Err(fault) => refused_map(fault),
        }
    }

    /// Unmaps a region of the user. It takes no memory.
    pub(crate) fn unmap(&mut self, start: u64, pages: u64) -> Answer
        requires sound { IsNumberedSound self.old }
        ensures sound { IsNumberedSound self.new }
        ensures ok { HasServedCall self.old (Call.Unmap start pages) result self.new }
    {
        match beside::unmap(&mut self.heap, start, pages) {
            Ok(()) => Answer {
                reply: Reply::Done,
                regions: None,
                large: None,
            },
            Err(fault) => refused(unmap_refusal(fault)),
        }
    }
}
