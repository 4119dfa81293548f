// A run that is replayed.
ghost use Rattle.std.specs.Prelude.{IfOk};
ghost use Rattle.heap_report.specs.Replaying.{IsCallAnswered, IsReplayBegun};

use heap_recorder::note_answer;
use kernel_heap::{Answer, Call, Machine};
use run_figures::BlockSizes;
use std::alloc::{AllocError, Global};

/// A machine, with the sizes of its live blocks, whose sum and greatest sum are kept. No answer is.
#[derive(Drop)]
pub struct Replay {
    pub(crate) machine: Machine,
    pub(crate) sizes: BlockSizes,
    /// The greatest sum of live sizes that there was, in bytes.
    pub(crate) peak: u128,
}

impl Replay {
    /// A replay to which no call came yet.
    pub fn new(alloc: Global, machine: Machine) -> Replay
        ensures { IsReplayBegun machine result }
    {
        Replay {
            machine,
            sizes: BlockSizes::new(alloc),
            peak: 0,
        }
    }

    /// Answers a call.
    pub fn answer(&mut self, call: &Call) -> Result<Answer, AllocError>
        ensures { IfOk result (λ answer. IsCallAnswered self.old call.now answer self.new) }
    {
        let answer = self.machine.step(call)?;
        note_answer(&mut self.sizes, call, &answer.reply)?;
        self.peak = self.peak.max(self.sizes.sum());
        Ok(answer)
    }
}
