// A source and a sink in memory that go piece by piece, and of which chosen calls fail.
ghost use Rattle.std.specs.Prelude.{◌≡◌, ◌<◌, ◌≤◌, ◌↔◌, ⊤, ◌++◌, [], Some, length, min, take, IfOk, OnOk, OnErr, IsErr, IsErrOf, IsTrue};
ghost use Rattle.heap_program.specs.Faults.{KeepsCount};
ghost use Rattle.heap_program.specs.Planned.{fails_next, after_call, planned};

use crate::sink::{Sink, SinkFault};
use crate::source::{Failed, Source, copy_front};
use std::alloc::{AllocError, Global};
use std::marker::Model;

/// The calls so far, and which of all calls fail.
#[derive(Drop)]
struct Plan {
    made: u64,
    failing: Vec<u64>,
    faults: u64,
}

impl Model for Plan {
    ghost use Rattle.heap_program.specs.Planned.{Calls};

    ghost Value = { Calls };

    ghost view = { λ plan. record { made = plan.made; failing = plan.failing.items; faults = plan.faults } };
}

impl Plan {
    fn new(failing: Vec<u64>) -> Plan
        ensures { result ≡ planned failing.items }
    {
        Plan {
            made: 0,
            failing,
            faults: 0,
        }
    }

    /// Counts a call, and finds out whether it fails.
    fn fails(&mut self) -> bool
        ensures fails { result ≡ fails_next self.old }
        ensures after { self.new ≡ after_call self.old }
        ensures later { self.old.faults ≤ self.new.faults }
    {
        let fails = self.made < u64::MAX && self.failing.contains(&self.made);
        self.made = self.made.saturating_add(1);
        if fails {
            self.faults = self.faults.saturating_add(1);
        }
        fails
    }
}

/// Bytes in memory that come in pieces. Chosen reads fail.
#[derive(Drop)]
pub struct MemorySource {
    bytes: Vec<u8>,
    at: usize,
    piece: u64,
    plan: Plan,
}

impl Model for MemorySource {
    ghost use Rattle.std.specs.Prelude.{◌≤◌, ◌<◌, length, drop};
    ghost use Rattle.heap_program.specs.Planned.{PiecewiseSource};

    ghost Value = { PiecewiseSource };

    ghost view = { λ s. record { left = drop s.at s.bytes.items; piece = s.piece; calls = s.plan } };

    ghost invariant = { λ s. (s.at ≤ length s.bytes.items) × (0 < s.piece) };
}

impl MemorySource {
    /// A source of these bytes, of which a read gives at most `piece`. The reads are numbered from 0, and exactly
    /// those whose number is in `fails` fail. From number 2^64 - 1 on none does.
    pub fn new(bytes: Vec<u8>, piece: u64, fails: Vec<u64>) -> MemorySource
        requires { 0 < piece }
        ensures { result ≡ record { left = bytes.items; piece = piece; calls = planned fails.items } }
    {
        MemorySource {
            bytes,
            at: 0,
            piece,
            plan: Plan::new(fails),
        }
    }
}

impl Source for MemorySource {
    ghost left = { λ s. Some s.left };

    ghost faults = { λ s. s.calls.faults };

    fn read(&mut self, buf: &mut [u8]) -> Result<usize, Failed>
        ensures fails { IsErr result ↔ IsTrue (fails_next self.old.calls) }
        ensures calls { self.new.calls ≡ after_call self.old.calls }
        ensures count { IfOk result (λ n. n ≡ min self.old.piece (min (length self.old.left) (length buf.old))) }
        ensures bytes { IfOk result (λ n. self.old.left ≡ take n buf.new ++ self.new.left) }
        ensures end { IfOk result (λ n. n ≡ 0 → 0 < length buf.old → self.new.left ≡ []) }
        ensures unread { OnErr result (self.new.left ≡ self.old.left) }
        ensures piece { self.new.piece ≡ self.old.piece }
        ensures faults { KeepsCount (IsErr result) self.old.calls.faults self.new.calls.faults }
    {
        if self.plan.fails() {
            return Err(Failed);
        }
        let rest = &self.bytes[self.at..];
        let n = self.piece.min(rest.len().min(buf.len()) as u64) as usize;
        copy_front(rest, buf, n);
        self.at += n;
        Ok(n)
    }
}

/// Bytes in memory that are taken in pieces. Chosen writes and flushes fail.
#[derive(Drop)]
pub struct MemorySink {
    bytes: Vec<u8>,
    flushed: usize,
    piece: u64,
    plan: Plan,
}

impl Model for MemorySink {
    ghost use Rattle.std.specs.Prelude.{◌<◌};
    ghost use Rattle.heap_program.specs.Planned.{PiecewiseSink};

    ghost Value = { PiecewiseSink };

    ghost view = { λ s. record { taken = s.bytes.items; flushed = s.flushed; piece = s.piece; calls = s.plan } };

    ghost invariant = { λ s. 0 < s.piece };
}

impl MemorySink {
    /// A sink that has taken nothing, and of which a write takes at most `piece` bytes. Writes and flushes are
    /// numbered together from 0, and exactly those whose number is in `fails` fail. From number 2^64 - 1 on none
    /// does.
    pub fn new(alloc: Global, piece: u64, fails: Vec<u64>) -> MemorySink
        requires { 0 < piece }
        ensures { result ≡ record { taken = []; flushed = 0; piece = piece; calls = planned fails.items } }
    {
        MemorySink {
            bytes: Vec::new(alloc),
            flushed: 0,
            piece,
            plan: Plan::new(fails),
        }
    }

    /// The bytes taken.
    pub fn written(&self) -> &[u8]
        ensures { result.now ≡ self.now.taken }
    {
        &self.bytes
    }

    /// How many of them are flushed.
    pub fn flushed(&self) -> usize
        ensures { result ≡ self.now.flushed }
    {
        self.flushed
    }
}

impl Sink for MemorySink {
    ghost taken = { λ s. Some s.taken };

    ghost flushed = { λ s. Some s.flushed };

    ghost needs_memory = { λ s. ⊤ };

    ghost faults = { λ s. s.calls.faults };

    fn write(&mut self, bytes: &[u8]) -> Result<usize, SinkFault>
        ensures fails { IsErrOf result SinkFault.Failed ↔ IsTrue (fails_next self.old.calls) }
        ensures calls { self.new.calls ≡ after_call self.old.calls }
        ensures count { IfOk result (λ n. n ≡ min self.old.piece (length bytes.now)) }
        ensures bytes { IfOk result (λ n. self.new.taken ≡ self.old.taken ++ take n bytes.now) }
        ensures some { IfOk result (λ n. 0 < length bytes.now → 0 < n) }
        ensures unwritten { OnErr result (self.new.taken ≡ self.old.taken) }
        ensures flushed { self.new.flushed ≡ self.old.flushed }
        ensures piece { self.new.piece ≡ self.old.piece }
        ensures faults { KeepsCount (IsErrOf result SinkFault.Failed) self.old.calls.faults self.new.calls.faults }
    {
        if self.plan.fails() {
            return Err(SinkFault::Failed);
        }
        let n = self.piece.min(bytes.len() as u64) as usize;
        match self.bytes.extend_from_slice(&bytes[..n]) {
            Ok(()) => Ok(n),
            Err(AllocError) => Err(SinkFault::OutOfMemory),
        }
    }

    fn flush(&mut self) -> Result<(), SinkFault>
        ensures fails { IsErr result ↔ IsTrue (fails_next self.old.calls) }
        ensures which { OnErr result (IsErrOf result SinkFault.Failed) }
        ensures calls { self.new.calls ≡ after_call self.old.calls }
        ensures flushed { OnOk result (self.new.flushed ≡ length self.old.taken) }
        ensures kept { OnErr result (self.new.flushed ≡ self.old.flushed) }
        ensures taken { self.new.taken ≡ self.old.taken }
        ensures piece { self.new.piece ≡ self.old.piece }
        ensures faults { KeepsCount (IsErr result) self.old.calls.faults self.new.calls.faults }
    {
        if self.plan.fails() {
            return Err(SinkFault::Failed);
        }
        self.flushed = self.bytes.len();
        Ok(())
    }
}
