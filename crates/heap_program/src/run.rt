// A whole run, from the source to the sink.
ghost use Rattle.std.specs.Prelude.{◌≡◌, ◌<◌, ◌^◌, ◌+◌, ◌↔◌, [], ℕ, length, take, unwrap_or, string_bytes, IfSome, IfOk, IfErr, OnOk, OnErr, IsErrOf};
ghost use Rattle.std.specs.Io.KnownBytes.{Appends};
ghost use Rattle.machine_model.specs.State.{State};
ghost use Rattle.heap_program.specs.Flushed.{IsAllFlushed};
ghost use Rattle.heap_program.specs.Lines.{IsOneLine};
ghost use Rattle.heap_program.specs.Outcomes.{TellsSinkFaults, TellsSinkStop, TellsRunFaults, HasFlushed, IsReadToEnd, HasRunInPart};
ghost use Rattle.heap_program.specs.Progress.{IsAt};
ghost use Rattle.heap_program.specs.Stop.{stop_of, IsFreshSession, HasRead, HasClosed, HasPart, HasStopped};
ghost use Rattle.heap_program.specs.Stepped.{IsAnsweredBy};
ghost use Rattle.heap_program.specs.declared.run.Stop.TheVariants.{Memory, ReadFault, TooLong};

use crate::respond::Respond;
use crate::session::Session;
use crate::sink::{Sink, SinkFault};
use crate::source::{Failed, Source};
use kernel_heap::Machine;
use std::alloc::{AllocError, Global};

/// The greatest number of bytes that a run takes.
const LONGEST_INPUT: u64 = 1 << 30;

/// The greatest number of bytes that are asked for at once.
const LONGEST_PIECE: usize = 4096;

/// Why a run stopped before its end.
#[derive(Clone, Copy, Debug, PartialEq, Eq)]
pub enum Stop {
    /// The host had too little memory.
    Memory,
    /// The source failed.
    ReadFault,
    /// The sink failed.
    WriteFault,
    /// More than 2^30 bytes came.
    TooLong,
}

impl From<Failed> for Stop {
    ghost from_gives = { λ _ stop. stop ≡ ReadFault };

    fn from(_: Failed) -> Stop {
        Stop::ReadFault
    }
}

impl From<SinkFault> for Stop {
    ghost from_gives = { λ fault stop. stop ≡ stop_of fault };

    fn from(fault: SinkFault) -> Stop {
        match fault {
            SinkFault::Failed => Stop::WriteFault,
            SinkFault::OutOfMemory => Stop::Memory,
        }
    }
}

impl From<AllocError> for Stop {
    ghost from_gives = { λ _ stop. stop ≡ Memory };

    fn from(_: AllocError) -> Stop {
        Stop::Memory
    }
}

// Writes all the bytes, in as many calls as the sink wants.
fn write_all<K: Sink>(sink: &mut K, bytes: &[u8]) -> Result<(), SinkFault>
    ensures ok { OnOk result (Appends (K.taken sink.old) (K.taken sink.new) bytes.now) }
    ensures err { OnErr result ((n : ℕ) × Appends (K.taken sink.old) (K.taken sink.new) (take n bytes.now)) }
    ensures faults { TellsSinkFaults K.needs_memory result (K.faults sink.old) (K.faults sink.new) }
{
    let mut written = 0;
    while written < bytes.len() {
        written += sink.write(&bytes[written..])?;
    }
    Ok(())
}

/// Writes a text and flushes it. Of a text that fails, a front may be written.
pub fn write_text<K: Sink>(sink: &mut K, text: &str) -> Result<(), SinkFault>
    ensures ok { OnOk result (Appends (K.taken sink.old) (K.taken sink.new) text.now) }
    ensures flushed { OnOk result (IsAllFlushed (K.taken sink.new) (K.flushed sink.new)) }
    ensures err { OnErr result ((n : ℕ) × Appends (K.taken sink.old) (K.taken sink.new) (take n text.now)) }
    ensures faults { TellsSinkFaults K.needs_memory result (K.faults sink.old) (K.faults sink.new) }
{
    write_all(sink, text.as_bytes())?;
    sink.flush()
}

/// Writes the text that waits, and flushes it, so that whoever waits for it sees it.
pub fn write_out<K: Sink>(output: &mut String, sink: &mut K) -> Result<(), Stop>
    ensures ok { OnOk result (Appends (K.taken sink.old) (K.taken sink.new) (string_bytes output.old)) }
    ensures emptied { OnOk result (string_bytes output.new ≡ []) }
    ensures flushed { OnOk result (IsAllFlushed (K.taken sink.new) (K.flushed sink.new)) }
    ensures err { OnErr result ((n : ℕ) × Appends (K.taken sink.old) (K.taken sink.new) (take n (string_bytes output.old))) }
    ensures faults { TellsSinkStop result (K.faults sink.old) (K.faults sink.new) }
{
    write_all(sink, output.as_bytes())?;
    output.clear();
    sink.flush()?;
    Ok(())
}

/// Responds to all of the input but a last line that has no line feed, and counts its bytes, of which there are 2^30 at
/// most. The response to a piece is written before the next one is asked for.
pub fn read_all<R: Respond + Drop, S: Source, K: Sink>(
    session: &mut Session<R>,
    source: &mut S,
    sink: &mut K,
) -> Result<u64, Stop>
    requires { IsFreshSession session.old }
    ensures ok { IfOk result (λ count.
        HasRead R.responds session.old.responder session.new.responder session.new.line (S.left source.old) (S.left source.new) (K.taken sink.old) (K.taken sink.new) count) }
    ensures line { OnOk result (IsOneLine session.new.line) }
    ensures whole { IsReadToEnd result (S.left source.new) (string_bytes session.new.output) }
    ensures err { IfErr result (λ stop.
        HasStopped R.responds session.old.responder stop (S.left source.old) (S.left source.new) (K.taken sink.old) (K.taken sink.new)) }
    ensures faults { TellsRunFaults result (S.faults source.old) (S.faults source.new) (K.faults sink.old) (K.faults sink.new) }
    ensures flushed { HasFlushed K.taken K.flushed result sink.old sink.new }
{
    let mut buffer = [0u8; LONGEST_PIECE];
    let mut count: u64 = 0;
    'pieces: loop {
        let n = source.read(&mut buffer)?;
        if n == 0 {
            return Ok(count);
        }
        count += n as u64;
        if count > LONGEST_INPUT {
            return Err(Stop::TooLong);
        }
        session.feed(&buffer[..n])?;
        write_out(&mut session.output, sink)?;
    }
}

// Answers a last line that has no line feed, and writes the end text.
fn close<K: Sink>(session: &mut Session<Machine>, sink: &mut K) -> Result<(), Stop>
    requires { string_bytes session.old.output ≡ [] }
    ensures ok { OnOk result ((s : State) → IsAt session.old.responder s →
        HasClosed s session.old.responder session.new.responder session.old.line (K.taken sink.old) (K.taken sink.new)) }
    ensures flushed { OnOk result (IsAllFlushed (K.taken sink.new) (K.flushed sink.new)) }
    ensures err { OnErr result ((s : State) → IsAt session.old.responder s →
        HasPart s session.old.responder session.old.line (K.taken sink.old) (K.taken sink.new)) }
    ensures faults { TellsSinkStop result (K.faults sink.old) (K.faults sink.new) }
{
    session.finish()?;
    write_out(&mut session.output, sink)
}

/// Runs a machine to which no call came yet over the source, and answers the machine as it is then.
pub fn run<S: Source, K: Sink>(
    alloc: Global,
    machine: Machine,
    source: &mut S,
    sink: &mut K,
) -> Result<Machine, Stop>
    ensures answered { IfOk result (λ last. (s : State) → IsAt machine s → s.blocks ≡ [] →
        IsAnsweredBy machine s (S.left source.old) (S.left source.new) (K.taken sink.old) (K.taken sink.new) (K.flushed sink.new) last) }
    ensures part { HasRunInPart machine result (S.left source.old) (S.left source.new) (K.taken sink.old) (K.taken sink.new) }
    ensures too_long { IfSome (S.left source.old) (λ input.
        IsErrOf result TooLong ↔ (2 ^ 30 + length (unwrap_or (S.left source.new) []) < length input)) }
    ensures faults { TellsRunFaults result (S.faults source.old) (S.faults source.new) (K.faults sink.old) (K.faults sink.new) }
    ensures flushed { HasFlushed K.taken K.flushed result sink.old sink.new }
{
    let mut session = Session::new(alloc, machine);
    read_all(&mut session, source, sink)?;
    close(&mut session, sink)?;
    let Session { responder, .. } = session;
    Ok(responder)
}
