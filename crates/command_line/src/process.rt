// What programs over lines share: their arguments, the texts that they print of themselves, and the end.
ghost use Rattle.std.specs.Prelude.{◌≡◌, ◌≢◌, ◌<◌, ◌≤◌, OnOk, IsErrOf, drop};
ghost use Rattle.std.specs.IoError.{error_kind};
ghost use Rattle.std.specs.Process.{exit_status};
ghost use Rattle.heap_program.specs.Faults.{HasRisen};
ghost use Rattle.command_line.specs.Process.{IsShown, IsStatusTold};

use heap_program::{Sink, SinkFault, status_text, write_text};
use std::io::ErrorKind;
use std::process::ExitCode;
use std::{env, io};

/// The program's arguments, its own name first.
pub fn program_arguments(rt: &HostRuntime) -> io::Result<Vec<String>> {
    let all = env::args(rt)?.collect(rt.alloc())?;
    Ok(all)
}

/// The words after the first argument, which is the program's own name.
pub fn words_of(arguments: &[String]) -> &[String]
    ensures { result.now ≡ drop 1 arguments.now }
{
    match arguments {
        [] => arguments,
        [_, words @ ..] => words,
    }
}

/// The status after arguments that could not be read: for want of memory, or since they are no UTF-8.
pub fn words_status(error: &io::Error) -> u8
    ensures memory { error_kind error.now ≡ ErrorKind.OutOfMemory → result ≡ 5 }
    ensures others { error_kind error.now ≢ ErrorKind.OutOfMemory → result ≡ 1 }
{
    if error.kind() == ErrorKind::OutOfMemory {
        5
    } else {
        1
    }
}

/// Shows a text, and answers the status.
pub fn show<K: Sink>(sink: &mut K, text: &str) -> u8
    ensures shown { IsShown text.now (K.taken sink.old) (K.taken sink.new) (K.flushed sink.new) (K.faults sink.old) (K.faults sink.new) result }
    ensures memory { ((k : K) → K.needs_memory k → ⊥) → result ≢ 5 }
{
    match write_text(sink, text) {
        Ok(()) => 0,
        Err(SinkFault::OutOfMemory) => 5,
        Err(SinkFault::Failed) => 7,
    }
}

// Writes the line that tells what a status means, and flushes it.
fn tell<E: Sink>(errors: &mut E, status: u8) -> Result<(), SinkFault>
    requires few { status ≤ 8 }
    ensures told { OnOk result (IsStatusTold (E.taken errors.old) (E.taken errors.new) (E.flushed errors.new) status) }
    ensures cause { IsErrOf result SinkFault.Failed → HasRisen (E.faults errors.old) (E.faults errors.new) }
    ensures memory { ((e : E) → E.needs_memory e → ⊥) → ¬ (IsErrOf result SinkFault.OutOfMemory) }
{
    write_text(errors, status_text(status))?;
    write_text(errors, "\n")
}

/// Ends with a status, and tells what it means if it is not 0: the line is written and flushed. If it cannot be, the status
/// is the same.
pub fn exit_with<E: Sink>(errors: &mut E, status: u8) -> ExitCode
    requires few { status ≤ 8 }
    ensures status { exit_status result ≡ status }
    ensures silent { status ≡ 0 → errors.new ≡ errors.old }
    ensures told { 0 < status → ((e : E) → E.needs_memory e → ⊥) → ¬ (HasRisen (E.faults errors.old) (E.faults errors.new)) →
        IsStatusTold (E.taken errors.old) (E.taken errors.new) (E.flushed errors.new) status }
{
    if status != 0 {
        let _ = tell(errors, status);
    }
    ExitCode::from(status)
}
