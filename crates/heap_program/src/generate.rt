// A run over calls that are drawn.
ghost use Rattle.std.specs.Prelude.{◌≡◌, ◌≤◌, ◌⊎◌, ◌<◌, ◌+◌, ◌^◌, IfOk, OnOk, OnErr, ◌↔◌, IsSome, IfSome};
ghost use Rattle.machine_model.specs.State.{State, start};
ghost use Rattle.heap_program.specs.Drawing.{HasDrawnOne, HasDrawnCalls};
ghost use Rattle.heap_program.specs.Generated.{IsGenerationStopped};
ghost use Rattle.heap_program.specs.Generator.{first_state, numbers_given, refusals};
ghost use Rattle.heap_program.specs.Outcomes.{TellsSinkStop};
ghost use Rattle.heap_program.specs.Status.{IsGenerationStatus};
ghost use Rattle.heap_program.specs.Progress.{IsAt};
ghost use Rattle.heap_program.specs.Stepped.{IsGeneratedBy, IsGeneratedByNew, IsGenerationStoppedByNew};

use crate::ended::{Ended, ended_early, refusal_status, status_of};
use crate::generator::{first_state, next_call};
use crate::run::{Stop, write_out};
use crate::sink::Sink;
use crate::text::{push_end, push_tally};
use kernel_heap::{Call, Config, Machine, Reply};
use std::alloc::{AllocError, Global};

/// The machine, and what has come of the calls that were drawn so far.
#[derive(Drop)]
pub struct Drawing {
    pub alloc: Global,
    pub machine: Machine,
    /// The state of the generator.
    pub state: u64,
    /// How many numbers were given.
    pub given: u64,
    /// How many calls were refused.
    pub refused: u64,
}

// How many numbers the reply to a call gives.
fn numbers_given(call: &Call, reply: &Reply) -> u64
    ensures { result ≡ numbers_given call.now reply.now }
{
    match (call, reply) {
        (Call::Malloc { .. } | Call::Calloc { .. }, Reply::Block { .. }) => 1,
        _ => 0,
    }
}

// How many refusals a reply is.
fn refusals(reply: &Reply) -> u64
    ensures { result ≡ refusals reply.now }
{
    match reply {
        Reply::Refused(_) => 1,
        _ => 0,
    }
}

impl Drawing {
    fn new(alloc: Global, machine: Machine, seed: u64) -> Drawing
        ensures machine { result.machine ≡ machine }
        ensures state { result.state ≡ first_state seed }
        ensures given { result.given ≡ 0 }
        ensures refused { result.refused ≡ 0 }
    {
        Drawing {
            alloc,
            machine,
            state: first_state(seed),
            given: 0,
            refused: 0,
        }
    }

    // Draws a call and serves it.
    fn draw_call(&mut self) -> Result<(), AllocError>
        requires given { self.old.given < 2 ^ 32 }
        requires refused { self.old.refused < 2 ^ 32 }
        ensures drawn { OnOk result ((s : State) → IsAt self.old.machine s → HasDrawnOne s self.old self.new) }
        ensures given { OnOk result (self.new.given ≤ self.old.given + 1) }
        ensures refused { OnOk result (self.new.refused ≤ self.old.refused + 1) }
    {
        let (call, state) = next_call(self.alloc, self.state, self.given)?;
        let answer = self.machine.step(&call)?;
        self.state = state;
        self.given += numbers_given(&call, &answer.reply);
        self.refused += refusals(&answer.reply);
        Ok(())
    }

    // Draws `count` calls and serves them.
    fn draw_calls(&mut self, count: u64) -> Result<(), AllocError>
        requires few { count ≤ 1000000 }
        requires given { self.old.given ≡ 0 }
        requires refused { self.old.refused ≡ 0 }
        ensures { OnOk result ((s : State) → IsAt self.old.machine s → HasDrawnCalls s self.old self.new count) }
    {
        'calls: for _made in 0..count {
            self.draw_call()?;
        }
        Ok(())
    }
}

// Draws `count` calls from the seed, and runs a machine to which no call came yet over them. Writes the counts and the end
// text, and answers the machine as it is then.
fn generate<K: Sink>(
    alloc: Global,
    machine: Machine,
    seed: u64,
    count: u64,
    sink: &mut K,
) -> Result<Machine, Stop>
    requires { count ≤ 1000000 }
    ensures generated { IfOk result (λ last. (s : State) → IsAt machine s →
        IsGeneratedBy machine s seed count (K.taken sink.old) (K.taken sink.new) (K.flushed sink.new) last) }
    ensures stopped { OnErr result ((s : State) → IsAt machine s → IsGenerationStopped machine s seed count (K.taken sink.old) (K.taken sink.new)) }
    ensures faults { TellsSinkStop result (K.faults sink.old) (K.faults sink.new) }
{
    let mut drawing = Drawing::new(alloc, machine, seed);
    drawing.draw_calls(count)?;
    let mut output = String::new(alloc);
    push_tally(&mut output, count, drawing.given, drawing.refused)?;
    push_end(alloc, &mut output, &drawing.machine)?;
    write_out(&mut output, sink)?;
    let Drawing { machine, .. } = drawing;
    Ok(machine)
}

/// Draws `count` calls from the seed, for a new machine of the configuration.
pub fn generate_new<K: Sink>(
    alloc: Global,
    config: &Config,
    seed: u64,
    count: u64,
    sink: &mut K,
) -> Ended
    requires { count ≤ 1000000 }
    ensures machine { IsSome result.machine ↔ (result.status ≡ 0) }
    ensures generated { IfSome result.machine (IsGeneratedByNew config.now seed count (K.taken sink.old) (K.taken sink.new) (K.flushed sink.new)) }
    ensures stopped { 5 ≤ result.status → ((result.status ≡ 5) × (sink.new ≡ sink.old)) ⊎ IsGenerationStoppedByNew config.now seed count (K.taken sink.old) (K.taken sink.new) }
    ensures status { IsGenerationStatus config.now sink.old sink.new (K.faults sink.old) (K.faults sink.new) result.status }
{
    let machine = match Machine::new(alloc, config) {
        Ok(machine) => machine,
        Err(error) => {
            return ended_early(refusal_status(error));
        }
    };
    match generate(alloc, machine, seed, count, sink) {
        Ok(machine) => Ended {
            status: 0,
            machine: Some(machine),
        },
        Err(stop) => ended_early(status_of(stop)),
    }
}
