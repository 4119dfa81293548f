// Calls as values, served one after the other.
ghost use Rattle.std.specs.Prelude.{IfOk, IfErr, OnOk};
ghost use Rattle.kernel_heap.specs.Config.{IsGoodConfig, IsConfigRefused};
ghost use Rattle.kernel_heap.specs.Runs.{AreServed};

use crate::machine::Machine;
use crate::run_error::RunError;
use machine_model::{AnswerList, CallList, Config};
use std::alloc::Global;

/// The answers to a list of calls, one a call, and the machine after the last of them.
#[derive(Drop)]
pub struct Run {
    pub answers: AnswerList,
    pub machine: Machine,
}

/// Serves the calls with a new machine. Each answer is allowed in the state that the answers before it determine, and
/// the machine stands for the last state.
pub fn run_calls(alloc: Global, config: &Config, calls: &CallList) -> Result<Run, RunError>
    ensures served { IfOk result (λ run. AreServed config.now calls.now run.answers run.machine) }
    ensures accepted { OnOk result (IsGoodConfig config.now) }
    ensures refused { IfErr result (λ error. IsConfigRefused config.now error) }
{
    let mut machine = Machine::new(alloc, config)?;
    let mut answers = AnswerList::new(alloc);
    for call in calls.as_slice() {
        answers.push(machine.step(call)?)?;
    }
    Ok(Run { answers, machine })
}
