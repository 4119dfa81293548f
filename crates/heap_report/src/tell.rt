// A whole run that is replayed and told of.
ghost use Rattle.std.specs.Prelude.{◌≡◌, ◌≢◌, ◌≤◌, ◌<◌, ◌+◌, ◌^◌, ◌⊎◌, ◌↔◌, ◌++◌, ℕ, List, [], ◌∷◌, length, unwrap_or, map, string_bytes, IfSome, IfOk, OnErr, IsErrOf, OnOk};
ghost use Rattle.std.specs.Io.KnownBytes.{Appends};
ghost use Rattle.dlmalloc_chunks.specs.declared.extent.Extent.{Extent};
ghost use Rattle.dlmalloc_chunks.specs.Tiling.{AreInSegments};
ghost use Rattle.machine_model.specs.declared.answer.Answer.{Answer};
ghost use Rattle.machine_model.specs.declared.call.Call.{Call};
ghost use Rattle.machine_model.specs.State.{State};
ghost use Rattle.kernel_heap.specs.declared.machine.Machine.{Machine};
ghost use Rattle.heap_program.specs.Faults.{HasRisen};
ghost use Rattle.heap_program.specs.Progress.{IsAt};
ghost use Rattle.heap_program.specs.declared.run.Stop.TheVariants.{ReadFault, WriteFault, TooLong};
ghost use Rattle.heap_report.specs.Reported.{IsTold, IsToldInPart};
ghost use Rattle.heap_report.specs.Telling.{Tells, TellsOf};

use crate::listed::{Listed, list_extents};
use crate::noted::Noted;
use crate::reported::{Reported, ended_early};
use heap_program::{
    Session, Sink, Source, Stop, config_of, read_all, refusal_status, status_of, write_out,
};
use kernel_heap::{Answer, Call, Config, Extent, Machine};
use std::alloc::{AllocError, Global};

/// A text of a run, and what is kept for it while the run is replayed.
pub trait Tell: Drop {
    /// It is kept after these calls and their answers.
    ghost keeps: { Self → List Call → List Answer → Type 0 };

    /// The text of the last machine and the state for which it stands, of the bytes that are live in it and were at most, of its
    /// extents, and of the calls and answers before those were asked for.
    ghost text: { Machine → State → ℕ → ℕ → List Extent → List Call → List Answer → List ℕ };

    /// What is kept before the first call.
    fn new(alloc: Global) -> Self
        ensures { keeps result [] [] };

    /// Keeps what the text needs of the next call and its answer.
    fn note(&mut self, call: &Call, answer: &Answer) -> Result<(), AllocError>
        ensures { OnOk result ((calls : List Call) (answers : List Answer) → keeps self.old calls answers → keeps self.new (calls ++ call.now ∷ []) (answers ++ answer.now ∷ [])) };

    /// Puts the text at the end of the output.
    fn push(
        self,
        alloc: Global,
        output: &mut String,
        machine: &Machine,
        live: u128,
        peak: u128,
        extents: &[Extent],
    ) -> Result<(), AllocError>
        requires { AreInSegments extents.now }
        ensures { OnOk result ((s : State) (calls : List Call) (answers : List Answer) → IsAt machine.now s → keeps self calls answers →
            string_bytes output.new ≡ string_bytes output.old ++ text machine.now s live peak extents.now calls answers) };
}

// Replays the source on a machine to which no call came yet, and tells of it.
fn tell_run<T: Tell, S: Source, K: Sink>(
    alloc: Global,
    machine: Machine,
    source: &mut S,
    sink: &mut K,
) -> Result<Listed, Stop>
    requires { (s : State) × IsAt machine s × (s.blocks ≡ []) }
    ensures told { IfOk result (λ listed. (s : State) → IsAt machine s → s.blocks ≡ [] →
        IsTold T.text s machine (S.left source.old) (S.left source.new) (K.taken sink.old) (K.taken sink.new) (K.flushed sink.new) listed.machine listed.extents) }
    ensures part { OnErr result ((s : State) → IsAt machine s → s.blocks ≡ [] →
        IsToldInPart T.text s machine (S.left source.old) (S.left source.new) (K.taken sink.old) (K.taken sink.new)) }
    ensures silent { (IsErrOf result ReadFault) ⊎ (IsErrOf result TooLong) → Appends (K.taken sink.old) (K.taken sink.new) [] }
    ensures too_long { IfSome (S.left source.old) (λ input.
        IsErrOf result TooLong ↔ (2 ^ 30 + length (unwrap_or (S.left source.new) []) < length input)) }
    ensures read_cause { IsErrOf result ReadFault → HasRisen (S.faults source.old) (S.faults source.new) }
    ensures write_cause { IsErrOf result WriteFault → HasRisen (K.faults sink.old) (K.faults sink.new) }
{
    let mut session = Session::new(alloc, Noted::<T>::new(alloc, machine));
    read_all(&mut session, source, sink)?;
    session.end()?;
    let Session { responder, .. } = session;
    let Noted { replay, kept } = responder;
    let listed = list_extents(alloc, replay)?;
    let mut output = String::new(alloc);
    kept.push(
        alloc,
        &mut output,
        &listed.machine,
        listed.live,
        listed.peak,
        listed.extents.as_slice(),
    )?;
    write_out(&mut output, sink)?;
    Ok(listed)
}

// Replays the source on a new machine of the configuration, and tells of it.
fn tell_new<T: Tell, S: Source, K: Sink>(
    alloc: Global,
    config: &Config,
    source: &mut S,
    sink: &mut K,
) -> Reported
    ensures statuses { (result.status ≢ 1) × (result.status ≤ 8) }
    ensures tells { TellsOf T.text config.now (S.left source.old) (S.left source.new) (K.taken sink.old) (K.taken sink.new) (K.flushed sink.new)
        (S.faults source.old) (S.faults source.new) (K.faults sink.old) (K.faults sink.new) result }
    ensures untouched { 1 ≤ result.status → result.status ≤ 4 → (source.new ≡ source.old) × (sink.new ≡ sink.old) }
{
    let machine = match Machine::new(alloc, config) {
        Ok(machine) => machine,
        Err(error) => {
            return ended_early(refusal_status(error));
        }
    };
    match tell_run::<T, S, K>(alloc, machine, source, sink) {
        Ok(listed) => {
            let Listed {
                machine,
                extents,
                ..
            } = listed;
            Reported {
                status: 0,
                machine: Some(machine),
                extents: Some(extents),
            }
        }
        Err(stop) => ended_early(status_of(stop)),
    }
}

/// Replays the calls of the source, asks for the extents, and writes a text of the end of that run. The words are a
/// configuration, `BASE PAGES GRANULARITY FRAMES RATE`, or none for the default one. The lines are those of `heap run`; a
/// line that is no call is passed over. Nothing is written before the input is read to its end.
///
/// | status | comes |
/// |---|---|
/// | 0 | the input was read to its end, and the text was written and flushed |
/// | 1 | exactly if the words are no configuration, or FRAMES is 2^32 or more |
/// | 2 | exactly if the window is empty, begins off a page, does not lie wholly in one canonical half, or holds the first or the last page of the address space |
/// | 3 | exactly if it is not that, and the granularity is no power of two of at least 16 |
/// | 4 | exactly if it is neither, and there are 0 frames |
/// | 5 | the host had too little memory, here or in the sink |
/// | 6 | only if the source counted a fault |
/// | 7 | only if the sink counted a fault |
/// | 8 | exactly if more than 2^30 bytes were taken |
///
/// Statuses 1 to 4 come before any memory is taken, and before anything is read or written.
pub fn tell_main<T: Tell, S: Source, K: Sink>(
    alloc: Global,
    words: &[String],
    source: &mut S,
    sink: &mut K,
) -> Reported
    ensures tells { Tells T.text (map string_bytes words.now) (S.left source.old) (S.left source.new) (K.taken sink.old) (K.taken sink.new) (K.flushed sink.new)
        (S.faults source.old) (S.faults source.new) (K.faults sink.old) (K.faults sink.new) result }
    // Those from 1 to 4 are decided in this order, before anything is read or written.
    ensures untouched { 1 ≤ result.status → result.status ≤ 4 → (source.new ≡ source.old) × (sink.new ≡ sink.old) }
{
    match config_of(words) {
        Some(config) => tell_new::<T, S, K>(alloc, &config, source, sink),
        None => ended_early(1),
    }
}
