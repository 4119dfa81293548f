ghost use Rattle.std.specs.Prelude.{◌≡◌, ℕ, ◌+◌, ◌-◌, ◌*◌, ◌/◌, ◌%◌, ◌<◌, ◌≤◌, ◌++◌, IfOk, length, replicate, List, set};
ghost use Rattle.std.specs.Vec.{vec_len, vec_capacity};
ghost use Rattle.paging_core.specs.LateFrames.{HasRoomTo, HasFramesTo};
ghost use Rattle.paging_core.specs.Memory.{word_at, frame_count, with_zeros, cleared, IsFrameCopied, AreWordsWritten, AreFrameWords};

use crate::phys_frames::PhysFrame;
use std::alloc::{AllocError, Global};
use std::marker::Model;

/// The physical memory: frames of 512 words. Frame f has the physical address 4096 * f.
///
/// Memory for all frames is reserved at the start, and a frame comes into being, with all frames
/// before it, when it is first written. Until then its words are 0.
#[derive(Drop)]
pub struct Frames {
    words: Vec<u64>,
    count: u32,
}

impl Model for Frames {
    ghost Value = { List ℕ };

    ghost view = { λ f. f.words.items ++ replicate (512 * f.count - vec_len f.words) 0 };

    ghost invariant = { λ f. (vec_len f.words % 512 ≡ 0) × ((vec_len f.words ≤ 512 * f.count) × (512 * f.count ≤ vec_capacity f.words)) };
}

/// Makes the frames up to the one with the word at `place`, each word 0, in the room that is reserved.
#[cold]
#[inline(never)]
fn make_frames(words: &mut Vec<u64>, place: usize)
    requires missing { vec_len words.old ≤ place }
    requires room { HasRoomTo words.old place }
    ensures { HasFramesTo words.old words.new place }
{
    for _ in words.len() / 128..4 * (place / 512) + 4 {
        let _made = words.extend_from_slice(&[0; 128]);
    }
}

/// Makes the frames up to the one with the word at `place`, if it is not there.
#[inline(always)]
fn reach(words: &mut Vec<u64>, place: usize)
    requires { HasRoomTo words.old place }
    ensures { HasFramesTo words.old words.new place }
{
    if words.len() <= place {
        make_frames(words, place);
    }
}

/// Makes a quarter of a frame 0: the 128 words from `start` on.
#[inline(never)]
fn clear_quarter(words: &mut Vec<u64>, start: usize)
    requires { start + 128 ≤ vec_len words.old }
    ensures words { words.new.items ≡ with_zeros words.old.items start 128 }
    ensures room { vec_capacity words.new ≡ vec_capacity words.old }
{
    words[start..start + 128].copy_from_slice(&[0; 128]);
}

/// Makes each word of the frame 0. The frame's words begin at `base`.
///
/// It does so by quarters: `memset` of the C library clears 2 KiB or more by `rep stosb`, which is slower than its
/// vector stores while the frame is in the cache.
fn clear_made(words: &mut Vec<u64>, base: usize)
    requires { base + 512 ≤ vec_len words.old }
    ensures words { words.new.items ≡ with_zeros words.old.items base 512 }
    ensures room { vec_capacity words.new ≡ vec_capacity words.old }
{
    for quarter in 0..4 {
        clear_quarter(words, base + 128 * quarter);
    }
}

impl Frames {
    /// A memory of `count` frames, each word 0.
    ///
    /// `AllocError` if memory for them cannot be reserved.
    pub fn new(alloc: Global, count: u32) -> Result<Self, AllocError>
        ensures words { IfOk result (λ frames. frames ≡ replicate (512 * count) 0) }
        ensures count { IfOk result (λ frames. frame_count frames ≡ count) }
    {
        let words = Vec::with_capacity(alloc, 512 * count as usize)?;
        Ok(Frames { words, count })
    }

    /// How many frames there are.
    pub fn count(&self) -> u32
        ensures count { result ≡ frame_count self.now }
        ensures size { length self.now ≡ 512 * result }
    {
        self.count
    }

    /// The word of the frame.
    pub fn word(&self, frame: PhysFrame, index: u16) -> u64
        requires frame { frame < frame_count self.now }
        requires index { index < 512 }
        ensures { result ≡ word_at self.now frame index }
    {
        let place = 512 * frame.number() as usize + index as usize;
        if place < self.words.len() {
            self.words[place]
        } else {
            0
        }
    }

    /// Writes the word of the frame.
    pub fn set_word(&mut self, frame: PhysFrame, index: u16, value: u64)
        requires frame { frame < frame_count self.old }
        requires index { index < 512 }
        ensures { self.new ≡ set self.old (512 * frame + index) value }
    {
        let place = 512 * frame.number() as usize + index as usize;
        reach(&mut self.words, place);
        self.words[place] = value;
    }

    /// Makes each word of the frame 0.
    pub fn clear_frame(&mut self, frame: PhysFrame)
        requires { frame < frame_count self.old }
        ensures { self.new ≡ cleared self.old frame }
    {
        let base = 512 * frame.number() as usize;
        if base < self.words.len() {
            clear_made(&mut self.words, base);
        } else {
            make_frames(&mut self.words, base);
        }
    }

    /// Copies the words of one frame to another.
    pub fn copy_frame(&mut self, from: PhysFrame, to: PhysFrame)
        requires from { from < frame_count self.old }
        requires to { to < frame_count self.old }
        ensures { IsFrameCopied self.old self.new from to }
    {
        let source = 512 * from.number() as usize;
        let target = 512 * to.number() as usize;
        reach(&mut self.words, source.max(target));
        self.words.copy_within(source..source + 512, target);
    }

    /// Reads the words of the frame from `index` on.
    ///
    /// The frame has that many words from `index` on.
    pub fn read_words(&self, frame: PhysFrame, index: u16, words: &mut [u64])
        requires frame { frame < frame_count self.now }
        requires fits { index + length words.old ≤ 512 }
        ensures read { AreFrameWords self.now frame index words.new }
        ensures length { length words.new ≡ length words.old }
    {
        let base = 512 * frame.number() as usize;
        if base < self.words.len() {
            let start = base + index as usize;
            words.copy_from_slice(&self.words[start..start + words.len()]);
        } else {
            words.fill(0);
        }
    }

    /// Writes the words to the frame, from `index` on.
    ///
    /// The frame has that many words from `index` on.
    pub fn write_words(&mut self, frame: PhysFrame, index: u16, words: &[u64])
        requires frame { frame < frame_count self.old }
        requires fits { index + length words.now ≤ 512 }
        ensures { AreWordsWritten self.old self.new frame index words.now }
    {
        let base = 512 * frame.number() as usize;
        reach(&mut self.words, base);
        let start = base + index as usize;
        self.words[start..start + words.len()].copy_from_slice(words);
    }
}
