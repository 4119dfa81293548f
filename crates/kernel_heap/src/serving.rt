// A call goes to the function of the numbered heap that serves it.
ghost use Rattle.std.specs.Prelude.{IsTrue, IfOk, IsOk, OnErr};
ghost use Rattle.kernel_heap.specs.LaidOut.{IsNumberedSound};
ghost use Rattle.kernel_heap.specs.Served.{HasServedCall, HasNotServed};
ghost use Rattle.kernel_heap.specs.Kept.{is_always_answered};

use crate::numbered_heap::NumberedHeap;
use machine_model::{Answer, Call};
use std::alloc::AllocError;

impl NumberedHeap {
    /// Serves a call. A write, an unmap, a probe and a setting take no memory, and are always answered.
    #[inline(always)]
    pub(crate) fn serve(&mut self, call: &Call) -> Result<Answer, AllocError>
        requires sound { IsNumberedSound self.old }
        ensures sound { IsNumberedSound self.new }
        ensures ok { IfOk result (λ answer. HasServedCall self.old call.now answer self.new) }
        ensures err { OnErr result (HasNotServed self.old self.new) }
        ensures answered { IsTrue (is_always_answered call.now) → IsOk result }
    {
        match call {
            Call::Malloc { size, align } => self.hand_out(*size, *align, false),
            Call::Calloc { size, align } => self.hand_out(*size, *align, true),
            Call::Realloc { block, size } => self.resize(*block, *size, true),
            Call::CRealloc { block, size } => self.resize(*block, *size, false),
            Call::Free { block } => self.free(*block),
            Call::Write {
                block,
                offset,
                bytes,
            } => Ok(self.write(*block, *offset, bytes.as_slice())),
            Call::Read {
                block,
                offset,
                length,
            } => self.read(*block, *offset, *length),
            Call::Map {
                start,
                pages,
                rights,
            } => self.map(*start, *pages, *rights),
            Call::Unmap { start, pages } => Ok(self.unmap(*start, *pages)),
            Call::Probe { at, access, user } => Ok(self.probe(*at, *access, *user)),
            Call::Trim { pad } => self.trim(*pad),
            Call::SetRate { rate } => Ok(self.set_rate(*rate)),
            Call::SetGranularity { granularity } => Ok(self.set_granularity(*granularity)),
            Call::Reset => self.reset(),
            Call::Extents => self.extents(),
        }
    }
}
