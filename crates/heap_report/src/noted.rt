// A run that is replayed, and what is kept of it for a text.
ghost use Rattle.std.specs.Prelude.{◌∷◌, [], OnOk};
ghost use Rattle.heap_report.specs.Noting.{IsBegunWith, IsNoted, IsReplaying};
ghost use Rattle.heap_report.specs.NotingLaws.{replaying_none, replaying_on};

use crate::replay::Replay;
use crate::tell::Tell;
use heap_program::Respond;
use kernel_heap::{Call, Machine};
use std::alloc::{AllocError, Global};

/// A replay, and what is kept of its calls and answers for a text.
#[derive(Drop)]
pub struct Noted<T> {
    pub(crate) replay: Replay,
    pub(crate) kept: T,
}

impl<T: Tell> Noted<T> {
    /// A replay to which no call came yet.
    pub fn new(alloc: Global, machine: Machine) -> Noted<T>
        ensures { IsBegunWith T.keeps machine result }
    {
        Noted {
            replay: Replay::new(alloc, machine),
            kept: T::new(alloc),
        }
    }

    /// Serves a call, and keeps what the text needs of it and of its answer.
    pub fn serve(&mut self, call: &Call) -> Result<(), AllocError>
        ensures { OnOk result (IsNoted T.keeps self.old (call.now ∷ []) self.new) }
    {
        let answer = self.replay.answer(call)?;
        self.kept.note(call, &answer)
    }
}

impl<T: Tell> Respond for Noted<T> {
    ghost responds = { IsReplaying T.keeps };

    ghost responds_none = { replaying_none T.keeps };

    ghost responds_on = { replaying_on T.keeps };

    // A line that is no call is passed over.
    fn respond(&mut self, item: Option<Call>, _output: &mut String) -> Result<(), AllocError> {
        match item {
            Some(call) => self.serve(&call),
            None => Ok(()),
        }
    }
}
