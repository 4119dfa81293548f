// Bytes of granted memory, in a row: whole words at once, and the bytes before and after them one by one.
ghost use Rattle.std.specs.Prelude.{◌≡◌, ℕ, ◌+◌, ◌%◌, ◌<◌, ◌≤◌, length, slice_index};
ghost use Rattle.std.specs.Int.{w64, to_le_bytes};
ghost use Rattle.object_pool.specs.Bytes.{AreBytesPut, AreGranted, bytes_at};

use heap_memory::{Links, Memory};

/// How many bytes of a run stand before its first whole word.
fn bytes_before_words(address: u64, count: u64) -> u64
    ensures few { result ≤ count }
    ensures aligned { result < count → (address + result) % 8 ≡ 0 }
{
    let first = address % 8;
    if first == 0 {
        return 0;
    }
    count.min(8 - first)
}

/// The word of the eight bytes from a place on.
fn word_of_bytes(bytes: &[u8], place: usize) -> u64
    requires { place + 8 ≤ length bytes.now }
    ensures { (k : ℕ) → k < 8 → slice_index (to_le_bytes w64 result) k ≡ slice_index bytes.now (place + k) }
{
    let mut word = [0; 8];
    word.copy_from_slice(&bytes[place..place + 8]);
    u64::from_le_bytes(word)
}

/// Reads the bytes from an address on one by one.
fn read_each<M: Memory>(memory: &M, address: u64, bytes: &mut [u8])
    requires { AreGranted (M.regions memory.now) address (length bytes.old) }
    ensures { bytes.new ≡ bytes_at (M.word memory.now) address (length bytes.old) }
{
    for k in 0..bytes.len() {
        bytes[k] = memory.load_byte(address + k as u64);
    }
}

/// Reads the bytes of whole words from an address on.
fn read_words<M: Memory>(memory: &M, address: u64, bytes: &mut [u8])
    requires inside { AreGranted (M.regions memory.now) address (length bytes.old) }
    requires aligned { 0 < length bytes.old → address % 8 ≡ 0 }
    requires whole { length bytes.old % 8 ≡ 0 }
    ensures { bytes.new ≡ bytes_at (M.word memory.now) address (length bytes.old) }
{
    for k in 0..bytes.len() / 8 {
        let word = memory.load(address + 8 * k as u64);
        bytes[8 * k..8 * k + 8].copy_from_slice(&word.to_le_bytes());
    }
}

/// Reads the bytes from a multiple of 8 on, whole words first.
fn read_from_word<M: Memory>(memory: &M, address: u64, bytes: &mut [u8])
    requires inside { AreGranted (M.regions memory.now) address (length bytes.old) }
    requires aligned { 0 < length bytes.old → address % 8 ≡ 0 }
    ensures { bytes.new ≡ bytes_at (M.word memory.now) address (length bytes.old) }
{
    let whole = bytes.len() / 8 * 8;
    let (words, last) = bytes.split_at_mut(whole);
    read_words(memory, address, words);
    if last.len() > 0 {
        read_each(memory, address + whole as u64, last);
    }
}

/// Reads the bytes from an address on, as many as there are places for.
pub(crate) fn read_bytes<M: Memory>(memory: &M, address: u64, bytes: &mut [u8])
    requires { AreGranted (M.regions memory.now) address (length bytes.old) }
    ensures { bytes.new ≡ bytes_at (M.word memory.now) address (length bytes.old) }
{
    let head = bytes_before_words(address, bytes.len() as u64);
    let (first, rest) = bytes.split_at_mut(head as usize);
    read_each(memory, address, first);
    if rest.len() > 0 {
        read_from_word(memory, address + head, rest);
    }
}

/// Puts the bytes at an address one by one, and changes nothing else.
fn write_each<M: Memory>(memory: &mut M, address: u64, bytes: &[u8])
    requires { AreGranted (M.regions memory.old) address (length bytes.now) }
    ensures { AreBytesPut M.regions M.word M.follows memory.old address bytes.now memory.new }
{
    for k in 0..bytes.len() {
        memory.store_byte(address + k as u64, bytes[k]);
    }
}

/// Puts the bytes of whole words at an address, and changes nothing else.
fn write_words<M: Memory>(memory: &mut M, address: u64, bytes: &[u8])
    requires inside { AreGranted (M.regions memory.old) address (length bytes.now) }
    requires aligned { 0 < length bytes.now → address % 8 ≡ 0 }
    requires whole { length bytes.now % 8 ≡ 0 }
    ensures { AreBytesPut M.regions M.word M.follows memory.old address bytes.now memory.new }
{
    for k in 0..bytes.len() / 8 {
        memory.store(address + 8 * k as u64, word_of_bytes(bytes, 8 * k));
    }
}

/// Puts bytes at a multiple of 8, whole words first, and changes nothing else.
fn write_from_word<M: Memory>(memory: &mut M, address: u64, bytes: &[u8])
    requires inside { AreGranted (M.regions memory.old) address (length bytes.now) }
    requires aligned { 0 < length bytes.now → address % 8 ≡ 0 }
    ensures { AreBytesPut M.regions M.word M.follows memory.old address bytes.now memory.new }
{
    let (words, last) = bytes.split_at(bytes.len() / 8 * 8);
    write_words(memory, address, words);
    if last.len() > 0 {
        write_each(memory, address + words.len() as u64, last);
    }
}

/// Puts the bytes at an address, and changes nothing else.
pub(crate) fn write_bytes<M: Memory>(memory: &mut M, address: u64, bytes: &[u8])
    requires { AreGranted (M.regions memory.old) address (length bytes.now) }
    ensures { AreBytesPut M.regions M.word M.follows memory.old address bytes.now memory.new }
{
    let head = bytes_before_words(address, bytes.len() as u64);
    let (first, rest) = bytes.split_at(head as usize);
    write_each(memory, address, first);
    if rest.len() > 0 {
        write_from_word(memory, address + first.len() as u64, rest);
    }
}
