// The call that a line asks for.
ghost use Rattle.std.specs.Prelude.{◌≡◌, IfOk, OnErr, IsSome, MatchOption, Some, None};
ghost use Rattle.call_lines.specs.Grammar.{one_number, two_numbers, request_of, malloc_of, calloc_of, realloc_of, c_realloc_of, free_call, bytes_from_digits, write_call, write_of, read_of, right_of, rights_of_letters, map_of, unmap_of, access_named, user_of, probe_of, trim_of, rate_of, granularity_of, alone, call_of, item_of, IsWrite};
ghost use Rattle.call_lines.specs.Words.{words_of};

use crate::decode::decode;
use crate::numbers::number;
use crate::words::{Words, is_word};
use machine_model::{Access, Bytes, Call, Rights};
use std::alloc::{AllocError, Global};

/// The greatest number of bytes of a line, its line feed not counted.
pub const LONGEST_LINE: usize = 8192;

/// The alignment of a block if the line gives none.
const DEFAULT_ALIGNMENT: u64 = 16;

// The number that is left, if it is the only word.
fn one_number(words: &mut Words<'_>) -> Option<u64>
    ensures { result ≡ one_number words.old }
{
    let number = number(words.next_word()?)?;
    match words.next_word() {
        None => Some(number),
        Some(_) => None,
    }
}

// The two numbers that are left, if they are the only words.
fn two_numbers(words: &mut Words<'_>) -> Option<(u64, u64)>
    ensures { result ≡ two_numbers words.old }
{
    let first = number(words.next_word()?)?;
    let second = number(words.next_word()?)?;
    match words.next_word() {
        None => Some((first, second)),
        Some(_) => None,
    }
}

// A size, and the alignment after it, if there is one.
fn request(words: &mut Words<'_>) -> Option<(u64, u64)>
    ensures { result ≡ request_of words.old }
{
    let size = number(words.next_word()?)?;
    let Some(word) = words.next_word() else {
        return Some((size, DEFAULT_ALIGNMENT));
    };
    let align = number(word)?;
    match words.next_word() {
        None => Some((size, align)),
        Some(_) => None,
    }
}

fn malloc(words: &mut Words<'_>) -> Option<Call>
    ensures { result ≡ malloc_of words.old }
{
    let (size, align) = request(words)?;
    Some(Call::Malloc { size, align })
}

fn calloc(words: &mut Words<'_>) -> Option<Call>
    ensures { result ≡ calloc_of words.old }
{
    let (size, align) = request(words)?;
    Some(Call::Calloc { size, align })
}

fn realloc(words: &mut Words<'_>) -> Option<Call>
    ensures { result ≡ realloc_of words.old }
{
    let (block, size) = two_numbers(words)?;
    Some(Call::Realloc { block, size })
}

fn c_realloc(words: &mut Words<'_>) -> Option<Call>
    ensures { result ≡ c_realloc_of words.old }
{
    let (block, size) = two_numbers(words)?;
    Some(Call::CRealloc { block, size })
}

fn free(words: &mut Words<'_>) -> Option<Call>
    ensures { result ≡ free_call words.old }
{
    let block = one_number(words)?;
    Some(Call::Free { block })
}

fn read(words: &mut Words<'_>) -> Option<Call>
    ensures { result ≡ read_of words.old }
{
    let block = number(words.next_word()?)?;
    let offset = number(words.next_word()?)?;
    let length = number(words.next_word()?)?;
    match words.next_word() {
        None => Some(Call::Read {
            block,
            offset,
            length,
        }),
        Some(_) => None,
    }
}

// The bytes that a word writes, two digits each.
fn bytes(alloc: Global, word: &[u8]) -> Result<Option<Bytes>, AllocError>
    ensures bytes { IfOk result (λ bytes. bytes ≡ bytes_from_digits word.now) }
    ensures err { OnErr result (IsSome (bytes_from_digits word.now)) }
{
    if word.is_empty() {
        return Ok(None);
    }
    decode(alloc, word)
}

// The words after `write`, the first two as numbers.
fn write_words<'a>(words: &mut Words<'a>) -> Option<(u64, u64, &'a [u8])>
    ensures { MatchOption result (write_of words.old ≡ None) (λ found. write_of words.old ≡ write_call (Some found.0) (Some found.1) (bytes_from_digits found.2.now)) }
{
    let block = number(words.next_word()?)?;
    let offset = number(words.next_word()?)?;
    let digits = words.next_word()?;
    match words.next_word() {
        None => Some((block, offset, digits)),
        Some(_) => None,
    }
}

#[tactic(auto, using(crate::proofs::Writes::asks_to_write))]
fn write(alloc: Global, words: &mut Words<'_>) -> Result<Option<Call>, AllocError>
    ensures call { IfOk result (λ call. call ≡ write_of words.old) }
    ensures err { OnErr result (IsWrite (write_of words.old)) }
{
    let Some((block, offset, digits)) = write_words(words) else {
        return Ok(None);
    };
    match bytes(alloc, digits)? {
        Some(bytes) => Ok(Some(Call::Write {
            block,
            offset,
            bytes,
        })),
        None => Ok(None),
    }
}

// Whether a letter grants a right: it is that of the right, or `-`.
fn right(code: u8, letter: u8) -> Option<bool>
    ensures { result ≡ right_of letter code }
{
    if code == letter {
        Some(true)
    } else if code == b'-' {
        Some(false)
    } else {
        None
    }
}

// The rights that a word writes.
fn rights(word: &[u8]) -> Option<Rights>
    ensures { result ≡ rights_of_letters word.now }
{
    let [read, write, user, fetch] = word else {
        return None;
    };
    if *read != b'r' {
        return None;
    }
    let write = right(*write, b'w')?;
    let user = right(*user, b'u')?;
    let fetch = right(*fetch, b'x')?;
    Some(Rights { write, user, fetch })
}

fn map(words: &mut Words<'_>) -> Option<Call>
    ensures { result ≡ map_of words.old }
{
    let start = number(words.next_word()?)?;
    let pages = number(words.next_word()?)?;
    let rights = rights(words.next_word()?)?;
    match words.next_word() {
        None => Some(Call::Map {
            start,
            pages,
            rights,
        }),
        Some(_) => None,
    }
}

fn unmap(words: &mut Words<'_>) -> Option<Call>
    ensures { result ≡ unmap_of words.old }
{
    let (start, pages) = two_numbers(words)?;
    Some(Call::Unmap { start, pages })
}

// The kind of access that a word names.
fn access(word: &[u8]) -> Option<Access>
    ensures { result ≡ access_named word.now }
{
    if word == b"read".as_slice() {
        Some(Access::Read)
    } else if word == b"write".as_slice() {
        Some(Access::Write)
    } else if word == b"fetch".as_slice() {
        Some(Access::Fetch)
    } else {
        None
    }
}

// Whether the words that are left say that the access is the user's.
fn user(words: &mut Words<'_>) -> Option<bool>
    ensures { result ≡ user_of words.old }
{
    let Some(word) = words.next_word() else {
        return Some(false);
    };
    if word != b"user".as_slice() {
        return None;
    }
    match words.next_word() {
        None => Some(true),
        Some(_) => None,
    }
}

fn probe(words: &mut Words<'_>) -> Option<Call>
    ensures { result ≡ probe_of words.old }
{
    let at = number(words.next_word()?)?;
    let access = access(words.next_word()?)?;
    let user = user(words)?;
    Some(Call::Probe { at, access, user })
}

fn trim(words: &mut Words<'_>) -> Option<Call>
    ensures { result ≡ trim_of words.old }
{
    let pad = one_number(words)?;
    Some(Call::Trim { pad })
}

fn rate(words: &mut Words<'_>) -> Option<Call>
    ensures { result ≡ rate_of words.old }
{
    let rate = one_number(words)?;
    Some(Call::SetRate { rate })
}

fn granularity(words: &mut Words<'_>) -> Option<Call>
    ensures { result ≡ granularity_of words.old }
{
    let granularity = one_number(words)?;
    Some(Call::SetGranularity { granularity })
}

// A call whose name is the whole line.
fn alone(words: &mut Words<'_>, call: Call) -> Option<Call>
    ensures { result ≡ alone call words.old }
{
    match words.next_word() {
        None => Some(call),
        Some(_) => None,
    }
}

fn call_of(alloc: Global, line: &[u8]) -> Result<Option<Call>, AllocError>
    ensures call { IfOk result (λ call. call ≡ call_of (words_of line.now)) }
    ensures err { OnErr result (IsWrite (call_of (words_of line.now))) }
{
    let mut words = Words::new(line);
    let Some(name) = words.next_word() else {
        return Ok(None);
    };
    if is_word(name, b"malloc") {
        Ok(malloc(&mut words))
    } else if is_word(name, b"calloc") {
        Ok(calloc(&mut words))
    } else if is_word(name, b"realloc") {
        Ok(realloc(&mut words))
    } else if is_word(name, b"c_realloc") {
        Ok(c_realloc(&mut words))
    } else if is_word(name, b"free") {
        Ok(free(&mut words))
    } else if is_word(name, b"write") {
        write(alloc, &mut words)
    } else if is_word(name, b"read") {
        Ok(read(&mut words))
    } else if is_word(name, b"map") {
        Ok(map(&mut words))
    } else if is_word(name, b"unmap") {
        Ok(unmap(&mut words))
    } else if is_word(name, b"probe") {
        Ok(probe(&mut words))
    } else if is_word(name, b"trim") {
        Ok(trim(&mut words))
    } else if is_word(name, b"rate") {
        Ok(rate(&mut words))
    } else if is_word(name, b"granularity") {
        Ok(granularity(&mut words))
    } else if is_word(name, b"reset") {
        Ok(alone(&mut words, Call::Reset))
    } else if is_word(name, b"extents") {
        Ok(alone(&mut words, Call::Extents))
    } else {
        Ok(None)
    }
}

/// The call that a line asks for, without its line feed. `None` exactly if the line is outside the
/// grammar or longer than 8192 bytes. An `Err` says that the line asks for a `write`, and that the host had too little
/// memory for its bytes: no other line needs any.
#[tactic(auto, unfolding(crate::specs::Grammar::item_of))]
pub fn parse_call(alloc: Global, line: &[u8]) -> Result<Option<Call>, AllocError>
    ensures call { IfOk result (λ call. call ≡ item_of line.now) }
    ensures err { OnErr result (IsWrite (item_of line.now)) }
{
    if line.len() > LONGEST_LINE {
        return Ok(None);
    }
    call_of(alloc, line)
}
