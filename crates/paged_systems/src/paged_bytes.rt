// Bytes of the regions of a paged system, in a row: whole words by a walk each, and the bytes before and after them one by
// one.
ghost use Rattle.std.specs.Prelude.{◌≡◌, ℕ, ◌+◌, ◌*◌, ◌%◌, ◌<◌, ◌≤◌, IfOk, OnOk, length, slice_index};
ghost use Rattle.std.specs.Int.{w64, to_le_bytes};
ghost use Rattle.paged_systems.specs.System.{paged};
ghost use Rattle.paged_systems.specs.Written.{AreHeapBytes, AreRead, AreBytesWritten};

use crate::paged_system::PagedSystem;
use heap_memory::Memory;
use machine_model::Bytes;
use std::alloc::{AllocError, Global};

/// How many bytes of a run stand before its first whole word.
fn bytes_before_words(address: u64, count: u64) -> u64
    ensures few { result ≤ count }
    ensures aligned { result < count → (address + result) % 8 ≡ 0 }
{
    let first = address % 8;
    if first == 0 {
        return 0;
    }
    count.min(8 - first)
}

/// The word of the eight bytes from a place on.
fn word_of_bytes(bytes: &[u8], place: usize) -> u64
    requires { place + 8 ≤ length bytes.now }
    ensures { (k : ℕ) → k < 8 → slice_index (to_le_bytes w64 result) k ≡ slice_index bytes.now (place + k) }
{
    let mut word = [0; 8];
    word.copy_from_slice(&bytes[place..place + 8]);
    u64::from_le_bytes(word)
}

impl PagedSystem {
    /// Reads bytes one by one after the first `done`, until those from the address on are `count`.
    fn read_each(
        &self,
        address: u64,
        done: u64,
        count: u64,
        bytes: &mut Vec<u8>,
    ) -> Result<(), AllocError>
        requires inside { AreHeapBytes (paged self.now) address count }
        requires few { done ≤ count }
        requires read { AreRead (paged self.now) address done bytes.old.items }
        ensures { OnOk result (AreRead (paged self.now) address count bytes.new.items) }
    {
        for k in done..count {
            bytes.push(self.load_byte(address + k))?;
        }
        Ok(())
    }

    /// Reads `words` words after the first `done` bytes from the address on, each by one walk.
    fn read_words(
        &self,
        address: u64,
        done: u64,
        words: u64,
        bytes: &mut Vec<u8>,
    ) -> Result<(), AllocError>
        requires inside { AreHeapBytes (paged self.now) address (done + 8 * words) }
        requires aligned { 0 < words → (address + done) % 8 ≡ 0 }
        requires read { AreRead (paged self.now) address done bytes.old.items }
        ensures { OnOk result (AreRead (paged self.now) address (done + 8 * words) bytes.new.items) }
    {
        for k in 0..words {
            let word = self.word(address + (done + 8 * k));
            bytes.extend_from_slice(&word.to_le_bytes())?;
        }
        Ok(())
    }

    /// Reads `count` bytes from an address on. Their places are reserved before the first is read.
    pub fn read_bytes(&self, alloc: Global, address: u64, count: u64) -> Result<Bytes, AllocError>
        requires { AreHeapBytes (paged self.now) address count }
        ensures { IfOk result (λ bytes. AreRead (paged self.now) address count bytes) }
    {
        let mut bytes = Vec::with_capacity(alloc, count as usize)?;
        let head = bytes_before_words(address, count);
        let words = (count - head) / 8;
        self.read_each(address, 0, head, &mut bytes)?;
        self.read_words(address, head, words, &mut bytes)?;
        self.read_each(address, head + 8 * words, count, &mut bytes)?;
        Ok(Bytes::from_vec(bytes))
    }

    /// Puts the bytes at an address one by one, and changes nothing else.
    fn write_each(&mut self, address: u64, bytes: &[u8])
        requires { AreHeapBytes (paged self.old) address (length bytes.now) }
        ensures { AreBytesWritten (paged self.old) (paged self.new) address bytes.now (length bytes.now) }
    {
        for k in 0..bytes.len() {
            self.store_byte(address + k as u64, bytes[k]);
        }
    }

    /// Puts the bytes of whole words at an address, each word by one walk, and changes nothing else.
    fn write_words(&mut self, address: u64, bytes: &[u8])
        requires inside { AreHeapBytes (paged self.old) address (length bytes.now) }
        requires aligned { 0 < length bytes.now → address % 8 ≡ 0 }
        requires whole { length bytes.now % 8 ≡ 0 }
        ensures { AreBytesWritten (paged self.old) (paged self.new) address bytes.now (length bytes.now) }
    {
        for k in 0..bytes.len() / 8 {
            self.set_word(address + 8 * k as u64, word_of_bytes(bytes, 8 * k));
        }
    }

    /// Puts bytes at a multiple of 8, whole words first, and changes nothing else.
    fn write_from_word(&mut self, address: u64, bytes: &[u8])
        requires inside { AreHeapBytes (paged self.old) address (length bytes.now) }
        requires aligned { 0 < length bytes.now → address % 8 ≡ 0 }
        ensures { AreBytesWritten (paged self.old) (paged self.new) address bytes.now (length bytes.now) }
    {
        let (words, last) = bytes.split_at(bytes.len() / 8 * 8);
        self.write_words(address, words);
        if last.len() > 0 {
            self.write_each(address + words.len() as u64, last);
        }
    }

    /// Puts the bytes at an address, and changes nothing else.
    pub fn write_bytes(&mut self, address: u64, bytes: &[u8])
        requires { AreHeapBytes (paged self.old) address (length bytes.now) }
        ensures { AreBytesWritten (paged self.old) (paged self.new) address bytes.now (length bytes.now) }
    {
        let head = bytes_before_words(address, bytes.len() as u64);
        let (first, rest) = bytes.split_at(head as usize);
        self.write_each(address, first);
        if rest.len() > 0 {
            self.write_from_word(address + first.len() as u64, rest);
        }
    }
}
