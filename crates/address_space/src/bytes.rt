//! The bytes of words and of mapped pages.
ghost use Rattle.std.specs.Prelude.{◌≡◌, ℕ, ◌+◌, ◌*◌, ◌/◌, ◌%◌, ◌^◌, ◌<◌, ◌≤◌, IsTrue, IsSome, IfOk, OnOk, length};
ghost use Rattle.paging_core.specs.Address.{is_canonical};
ghost use Rattle.paging_core.specs.Memory.{frame_count, byte_of as byte_in};
ghost use Rattle.paging_core.specs.Tree.{HasTree};
ghost use Rattle.paging_core.specs.Walk.{walk_of, reached};
ghost use Rattle.address_space.specs.Access.{IsGoodSpan, byte_at, AreBytesAt, AreBytesPut, IsReadOn, IsWritten};

use paging_core::{Frames, Page, PhysFrame, VirtAddr, get_bits, load_words, set_bits, walk};
use std::alloc::{AllocError, Global};

/// One of the eight bytes of a word, the lowest first.
fn byte_of(word: u64, byte: u32) -> u8
    requires { byte < 8 }
    ensures { result ≡ byte_in word byte }
{
    get_bits(word, 8 * byte, 8 * byte + 8) as u8
}

/// One of the bytes of words, eight to a word, the lowest first.
fn byte_of_words(words: &[u64], place: usize) -> u8
    requires { place < 8 * length words.now }
    ensures { result ≡ byte_at words.now place }
{
    byte_of(words[place / 8], (place % 8) as u32)
}

/// Adds bytes from memory to those that were read from an address on: up to the end of a page, or until they are as
/// many as asked. What was added before an `Err` is left.
fn read_on(
    frames: &Frames,
    root: PhysFrame,
    at: u64,
    wanted: u64,
    bytes: &mut Vec<u8>,
) -> Result<(), AllocError>
    requires root { root < frame_count frames.now }
    requires read { AreBytesAt (reached frames.now root) at bytes.old.items }
    requires more { length bytes.old.items < wanted }
    requires fits { at + wanted ≤ 2 ^ 64 }
    requires canonical { IsTrue (is_canonical (at + length bytes.old.items)) }
    requires mapped { IsSome (walk_of frames.now root ((at + length bytes.old.items) / 4096)) }
    ensures { OnOk result (IsReadOn (reached frames.now root) at wanted bytes.old.items bytes.new.items) }
{
    let count = bytes.len() as u64;
    let offset = (at + count) % 4096;
    let mut words = [0; 512];
    let page = Page::containing_address(VirtAddr::new(at + count));
    load_words(frames, root, page, 0, &mut words);
    let left = (4096 - offset).min(wanted - count);
    for step in 0..left {
        let place = offset + step;
        bytes.push(byte_of_words(&words, place as usize))?;
    }
    Ok(())
}

/// The bytes of mapped pages from an address on, as many as asked.
pub(crate) fn read_bytes(
    frames: &Frames,
    root: PhysFrame,
    alloc: Global,
    at: u64,
    wanted: u64,
) -> Result<Vec<u8>, AllocError>
    requires root { root < frame_count frames.now }
    requires span { IsGoodSpan at wanted }
    requires fits { at + wanted ≤ 2 ^ 64 }
    requires mapped { (any : ℕ) → at ≤ any → any < at + wanted → IsSome (walk_of frames.now root (any / 4096)) }
    ensures count { IfOk result (λ bytes. length bytes.items ≡ wanted) }
    ensures bytes { IfOk result (λ bytes. AreBytesAt (reached frames.now root) at bytes.items) }
{
    let mut bytes = Vec::new(alloc);
    while (bytes.len() as u64) < wanted {
        read_on(frames, root, at, wanted, &mut bytes)?;
    }
    Ok(bytes)
}

/// The word with another of its eight bytes.
fn with_byte(word: u64, byte: u32, value: u8) -> u64
    requires { byte < 8 }
    ensures here { byte_in result byte ≡ value }
    ensures others { (other : ℕ) → other < 8 → (other ≡ byte → ⊥) → byte_in result other ≡ byte_in word other }
{
    set_bits(word, 8 * byte, 8 * byte + 8, u64::from(value))
}

/// Puts bytes into the bytes of words, from an offset on.
fn put_bytes(words: &mut [u64], offset: usize, bytes: &[u8])
    requires fits { offset + length bytes.now ≤ 8 * length words.old }
    requires few { length words.old ≤ 512 }
    ensures { AreBytesPut words.old words.new offset (length bytes.now) bytes.now }
{
    for step in 0..bytes.len() {
        let place = offset + step;
        words[place / 8] = with_byte(words[place / 8], (place % 8) as u32, bytes[step]);
    }
}

/// Writes bytes to a page that is mapped, from an address on, by one walk: the words in which they lie are read,
/// changed and written. It takes no memory; `words` are as many words, of any value.
fn write_part(frames: &mut Frames, root: PhysFrame, at: u64, bytes: &[u8], words: &mut [u64])
    requires root { root < frame_count frames.old }
    requires tree { HasTree frames.old root }
    requires canonical { IsTrue (is_canonical at) }
    requires mapped { IsSome (walk_of frames.old root (at / 4096)) }
    requires some { 0 < length bytes.now }
    requires fits { at % 4096 + length bytes.now ≤ 4096 }
    requires words { length words.old ≡ (at % 8 + length bytes.now + 7) / 8 }
    ensures { IsWritten frames.old frames.new root at bytes.now }
{
    let page = Page::containing_address(VirtAddr::new(at));
    let Some(place) = walk(frames, root, page) else {
        unreachable!()
    };
    let first = (at % 4096 / 8) as u16;
    frames.read_words(place.frame, first, words);
    put_bytes(words, (at % 8) as usize, bytes);
    frames.write_words(place.frame, first, words);
}

/// How many words are written at once at most, and how many bytes they have. They lie in one page.
const PART_WORDS: usize = 64;

const PART: usize = 8 * PART_WORDS;

/// Writes bytes from an address on, part by part: the page of each is mapped. It takes no memory.
pub(crate) fn write_bytes(frames: &mut Frames, root: PhysFrame, at: u64, bytes: &[u8])
    requires root { root < frame_count frames.old }
    requires tree { HasTree frames.old root }
    requires span { IsGoodSpan at (length bytes.now) }
    requires fits { at + length bytes.now ≤ 2 ^ 64 }
    requires mapped { (any : ℕ) → at ≤ any → any < at + length bytes.now → IsSome (walk_of frames.old root (any / 4096)) }
    ensures { IsWritten frames.old frames.new root at bytes.now }
{
    let mut words = [0; PART_WORDS];
    let mut done = 0;
    while done < bytes.len() {
        let from = at + done as u64;
        let count = (PART - from as usize % PART).min(bytes.len() - done);
        let size = ((from % 8) as usize + count + 7) / 8;
        write_part(
            frames,
            root,
            from,
            &bytes[done..done + count],
            &mut words[..size],
        );
        done += count;
    }
}
