// Where the input comes from.
ghost use Rattle.std.specs.Prelude.{◌≡◌, ◌≤◌, ◌<◌, ◌++◌, List, ℕ, Option, Some, length, min, take, drop, IfOk, IsOkAnd, OnErr, IsErr};
ghost use Rattle.std.specs.Io.KnownBytes.{Consumes, Keeps, IsAtEnd};
ghost use Rattle.heap_program.specs.Faults.{KeepsCount, IsFaultCounted};

use std::io::{ErrorKind, Read};
use std::marker::Model;
use thiserror::Error;

/// A read that failed. The source has counted a fault.
#[derive(Clone, Copy, Debug, PartialEq, Eq, Error)]
#[error("the source failed")]
pub struct Failed;

/// Something that bytes are read from, as [`std::io::Read`], with a count of its faults.
pub trait Source {
    /// The bytes that are left, if the source tells them.
    ghost left: { Self → Option (List ℕ) };

    /// How often a read has failed. A count stays at 2^64 - 1 once it is there.
    ghost faults: { Self → ℕ };

    /// Puts bytes at the front of the buffer, and answers how many. They are the first ones that were
    /// left, in order, and are no longer left. 0 bytes in a buffer that is not empty are the end.
    fn read(&mut self, buf: &mut [u8]) -> Result<usize, Failed>
        ensures within { IfOk result (λ n. n ≤ length buf.old) }
        ensures told { IfOk result (λ n. Consumes (left self.old) (left self.new) (take n buf.new)) }
        ensures end { IfOk result (λ n. n ≡ 0 → 0 < length buf.old → IsAtEnd (left self.new)) }
        ensures err { OnErr result (Keeps (left self.old) (left self.new)) }
        ensures faults { KeepsCount (IsErr result) (faults self.old) (faults self.new) };
}

// Copies the first n bytes.
pub(crate) fn copy_front(from: &[u8], to: &mut [u8], n: usize)
    requires from { n ≤ length from.now }
    requires to { n ≤ length to.old }
    ensures { from.now ≡ take n to.new ++ drop n from.now }
{
    let (front, _) = from.split_at(n);
    to[..n].copy_from_slice(front);
}

/// Bytes in memory, of which no read fails.
#[derive(Drop)]
pub struct SureSource {
    bytes: Vec<u8>,
    at: usize,
}

impl Model for SureSource {
    ghost use Rattle.std.specs.Prelude.{List, ℕ, ◌≤◌, length, drop};

    ghost Value = { List ℕ };

    ghost view = { λ s. drop s.at s.bytes.items };

    ghost invariant = { λ s. s.at ≤ length s.bytes.items };
}

impl SureSource {
    /// A source of these bytes.
    pub fn new(bytes: Vec<u8>) -> SureSource
        ensures { result ≡ bytes.items }
    {
        SureSource { bytes, at: 0 }
    }
}

impl Source for SureSource {
    ghost left = { λ s. Some s };

    ghost faults = { λ s. 0 };

    fn read(&mut self, buf: &mut [u8]) -> Result<usize, Failed>
        ensures count { IsOkAnd result (λ n. n ≡ min (length self.old) (length buf.old)) }
        ensures bytes { IfOk result (λ n. self.old ≡ take n buf.new ++ self.new) }
    {
        let rest = &self.bytes[self.at..];
        let n = rest.len().min(buf.len());
        copy_front(rest, buf, n);
        self.at += n;
        Ok(n)
    }
}

/// A reader, with a count of its errors. A read that a signal interrupts is tried again, and is no error.
#[derive(Drop)]
pub struct ReaderSource<R: Read> {
    reader: R,
    faults: u64,
}

impl<R: Read> ReaderSource<R> {
    /// A source of what the reader has left, with no fault so far.
    pub fn new(reader: R) -> ReaderSource<R>
        ensures left { ⟦<ReaderSource<R> as Source>⟧.left result ≡ R.remaining reader }
        ensures faults { ⟦<ReaderSource<R> as Source>⟧.faults result ≡ 0 }
    {
        ReaderSource { reader, faults: 0 }
    }
}

impl<R: Read> Source for ReaderSource<R> {
    ghost left = { λ s. R.remaining s.reader };

    ghost faults = { λ s. s.faults };

    fn read(&mut self, buf: &mut [u8]) -> Result<usize, Failed>
        ensures within { IfOk result (λ n. n ≤ length buf.old) }
        ensures told { IfOk result (λ n. Consumes (R.remaining self.old.reader) (R.remaining self.new.reader) (take n buf.new)) }
        ensures end { IfOk result (λ n. n ≡ 0 → 0 < length buf.old → IsAtEnd (R.remaining self.new.reader)) }
        ensures err { OnErr result (Keeps (R.remaining self.old.reader) (R.remaining self.new.reader)) }
        ensures counted { IsFaultCounted result self.old.faults self.new.faults }
        ensures faults { KeepsCount (IsErr result) self.old.faults self.new.faults }
    {
        'tries: for _ in 0..u64::MAX {
            match self.reader.read(buf) {
                Ok(n) => return Ok(n),
                Err(error) if error.kind() == ErrorKind::Interrupted => {}
                Err(_) => break,
            }
        }
        self.faults = self.faults.saturating_add(1);
        Err(Failed)
    }
}
