// Where the output goes.
ghost use Rattle.std.specs.Prelude.{◌≡◌, ◌≤◌, ◌<◌, ⊤, List, [], ℕ, Option, Some, None, length, take, ◌++◌, IfOk, IfErr, IsOk, OnOk, OnErr, IsErrOf};
ghost use Rattle.std.specs.Io.KnownBytes.{Appends, Keeps};
ghost use Rattle.heap_program.specs.Faults.{KeepsCount, IsFaultCounted};
ghost use Rattle.heap_program.specs.Flushed.{IsAllFlushed};

use std::alloc::{AllocError, Global};
use std::io::{ErrorKind, Write};
use std::marker::Model;
use thiserror::Error;

/// Why a sink did not take bytes, or did not flush them.
#[derive(Clone, Copy, Debug, PartialEq, Eq, Error)]
pub enum SinkFault {
    /// The sink failed, and has counted a fault.
    #[error("the sink failed")]
    Failed,
    /// There was too little memory for the bytes.
    #[error("out of memory")]
    OutOfMemory,
}

/// Something that bytes are written to, as [`std::io::Write`], with a count of its faults.
pub trait Sink {
    /// The bytes taken, if the sink tells them.
    ghost taken: { Self → Option (List ℕ) };

    /// How many of them are flushed, if the sink tells that.
    ghost flushed: { Self → Option ℕ };

    /// Whether a call may want memory.
    ghost needs_memory: { Self → Type 0 };

    /// How often a call has failed. A count stays at 2^64 - 1 once it is there.
    ghost faults: { Self → ℕ };

    /// Takes bytes from the front of the piece, at least one of a piece that is not empty, and answers
    /// how many. They come, in order, at the end of what is taken.
    fn write(&mut self, bytes: &[u8]) -> Result<usize, SinkFault>
        ensures within { IfOk result (λ n. n ≤ length bytes.now) }
        ensures some { IfOk result (λ n. 0 < length bytes.now → 0 < n) }
        ensures told { IfOk result (λ n. Appends (taken self.old) (taken self.new) (take n bytes.now)) }
        ensures err { OnErr result (Keeps (taken self.old) (taken self.new)) }
        ensures flushed_err { OnErr result (flushed self.new ≡ flushed self.old) }
        ensures faults { KeepsCount (IsErrOf result SinkFault.Failed) (faults self.old) (faults self.new) }
        ensures memory { IsErrOf result SinkFault.OutOfMemory → needs_memory self.old };

    /// Flushes all that is taken.
    fn flush(&mut self) -> Result<(), SinkFault>
        ensures all { OnOk result (IsAllFlushed (taken self.new) (flushed self.new)) }
        ensures told { Keeps (taken self.old) (taken self.new) }
        ensures flushed_err { OnErr result (flushed self.new ≡ flushed self.old) }
        ensures faults { KeepsCount (IsErrOf result SinkFault.Failed) (faults self.old) (faults self.new) }
        ensures memory { IsErrOf result SinkFault.OutOfMemory → needs_memory self.old };
}

/// Bytes in memory, which need no flush. No call fails, but a write may want memory.
#[derive(Drop)]
pub struct SureSink {
    bytes: Vec<u8>,
}

impl Model for SureSink {
    ghost use Rattle.std.specs.Prelude.{List, ℕ};

    ghost Value = { List ℕ };

    ghost view = { λ s. s.bytes.items };
}

impl SureSink {
    /// A sink that has taken nothing.
    pub fn new(alloc: Global) -> SureSink
        ensures { result ≡ [] }
    {
        SureSink {
            bytes: Vec::new(alloc),
        }
    }

    /// The bytes taken.
    pub fn written(&self) -> &[u8]
        ensures { result.now ≡ self.now }
    {
        &self.bytes
    }
}

impl Sink for SureSink {
    ghost taken = { λ s. Some s };

    ghost flushed = { λ s. Some (length s) };

    ghost needs_memory = { λ s. ⊤ };

    ghost faults = { λ s. 0 };

    fn write(&mut self, bytes: &[u8]) -> Result<usize, SinkFault>
        ensures ok { IfOk result (λ n. (n ≡ length bytes.now) × (self.new ≡ self.old ++ bytes.now)) }
        ensures err { IfErr result (λ fault. (fault ≡ SinkFault.OutOfMemory) × (self.new ≡ self.old)) }
    {
        match self.bytes.extend_from_slice(bytes) {
            Ok(()) => Ok(bytes.len()),
            Err(AllocError) => Err(SinkFault::OutOfMemory),
        }
    }

    fn flush(&mut self) -> Result<(), SinkFault>
        ensures ok { IsOk result }
        ensures same { self.new ≡ self.old }
    {
        Ok(())
    }
}

/// A writer, with a count of its errors. A write of at least one byte that takes none counts as one. A
/// write or a flush that a signal interrupts is tried again, and is no error.
#[derive(Drop)]
pub struct WriterSink<W: Write> {
    writer: W,
    faults: u64,
}

impl<W: Write> WriterSink<W> {
    /// A sink that adds to what the writer holds, with no fault so far.
    pub fn new(writer: W) -> WriterSink<W>
        ensures taken { ⟦<WriterSink<W> as Sink>⟧.taken result ≡ W.contents writer }
        ensures faults { ⟦<WriterSink<W> as Sink>⟧.faults result ≡ 0 }
    {
        WriterSink { writer, faults: 0 }
    }
}

impl<W: Write> Sink for WriterSink<W> {
    ghost taken = { λ s. W.contents s.writer };

    ghost flushed = { λ s. None };

    ghost needs_memory = { λ s. ⊥ };

    ghost faults = { λ s. s.faults };

    fn write(&mut self, bytes: &[u8]) -> Result<usize, SinkFault>
        ensures within { IfOk result (λ n. n ≤ length bytes.now) }
        ensures some { IfOk result (λ n. 0 < length bytes.now → 0 < n) }
        ensures told { IfOk result (λ n. Appends (W.contents self.old.writer) (W.contents self.new.writer) (take n bytes.now)) }
        ensures err { OnErr result (Keeps (W.contents self.old.writer) (W.contents self.new.writer)) }
        ensures which { IfErr result (λ fault. fault ≡ SinkFault.Failed) }
        ensures counted { IsFaultCounted result self.old.faults self.new.faults }
        ensures faults { KeepsCount (IsErrOf result SinkFault.Failed) self.old.faults self.new.faults }
    {
        if bytes.is_empty() {
            return Ok(0);
        }
        'tries: for _ in 0..u64::MAX {
            match self.writer.write(bytes) {
                Ok(n) if n > 0 => return Ok(n),
                Err(error) if error.kind() == ErrorKind::Interrupted => {}
                _ => break,
            }
        }
        self.faults = self.faults.saturating_add(1);
        Err(SinkFault::Failed)
    }

    fn flush(&mut self) -> Result<(), SinkFault>
        ensures told { Keeps (W.contents self.old.writer) (W.contents self.new.writer) }
        ensures which { IfErr result (λ fault. fault ≡ SinkFault.Failed) }
        ensures counted { IsFaultCounted result self.old.faults self.new.faults }
        ensures faults { KeepsCount (IsErrOf result SinkFault.Failed) self.old.faults self.new.faults }
    {
        'tries: for _ in 0..u64::MAX {
            match self.writer.flush() {
                Ok(()) => return Ok(()),
                Err(error) if error.kind() == ErrorKind::Interrupted => {}
                Err(_) => break,
            }
        }
        self.faults = self.faults.saturating_add(1);
        Err(SinkFault::Failed)
    }
}
