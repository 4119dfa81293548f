ghost use Rattle.std.specs.Prelude.{◌≡◌, ℕ, ◌+◌, ◌*◌, ◌/◌, ◌%◌, ◌<◌, ◌≤◌, ◌^◌, ◌↔◌, IsSome, IfSome, length};
ghost use Rattle.paging_core.specs.Area.{Part, in_area, area_meets, with_zeros_around};

use crate::phys_frames::PhysFrame;
use crate::physical_memory::PhysicalMemory;
use std::marker::Model;

/// An area of frames whose words a caller lends, in which page tables lie. Their pages lie in any frames below the limit,
/// which have no words here: memory that the caller uses as it likes, or devices.
#[derive(Drop)]
pub struct TableArea<'a> {
    words: &'a mut [u64],
    first: u64,
    end: u64,
    limit: u64,
}

impl<'a> Model for TableArea<'a> {
    ghost use Rattle.std.specs.Prelude.{◌≡◌, ◌+◌, ◌*◌, ◌<◌, ◌≤◌, ◌^◌, length};
    ghost use Rattle.paging_core.specs.Area.{AreaWords, Part, with_zeros_around};

    ghost Value = { AreaWords };

    ghost view = { λ a. record { words = with_zeros_around a.words.now a.first a.limit; area = Part a.first a.end } };

    ghost invariant = { λ a. (512 * a.first + length a.words.now ≡ 512 * a.end) × (a.end ≤ a.limit) × (a.limit < 2 ^ 40) × (a.first < a.end) };
}

impl<'a> TableArea<'a> {
    /// The area of which these are the words, 512 per frame, from the first frame on. Pages lie in frames below the
    /// limit.
    ///
    /// None exactly if the words are not those of whole frames, or are none; if the area ends after the limit; or if
    /// the limit is not below 2^40, the number of frames that an entry can name.
    pub fn over(words: &'a mut [u64], first: u64, limit: u64) -> Option<TableArea<'a>>
        ensures some { IsSome result ↔ ((length words.entry.now % 512 ≡ 0) × (0 < length words.entry.now) × (first + length words.entry.now / 512 ≤ limit) × (limit < 2 ^ 40)) }
        ensures value { IfSome result (λ area. area ≡ record { words = with_zeros_around words.entry.now first limit; area = Part first (first + length words.entry.now / 512) }) }
    {
        let count = words.len() as u64;
        if count == 0 || count % 512 != 0 || limit >= 1 << 40 || first > limit {
            return None;
        }
        let end = first + count / 512;
        if end > limit {
            return None;
        }
        Some(TableArea {
            words,
            first,
            end,
            limit,
        })
    }

    /// Whether the frame is one of the area.
    pub fn contains(&self, frame: PhysFrame) -> bool
        ensures { result ≡ in_area self.now.area frame }
    {
        let number = frame.number();
        self.first <= number && number < self.end
    }

    /// Whether one of `count` frames in a row, from this one on, is one of the area.
    pub fn meets(&self, from: PhysFrame, count: u64) -> bool
        requires { from + count ≤ 2 ^ 40 }
        ensures { result ≡ area_meets self.now.area from count }
    {
        let number = from.number();
        number < self.end && self.first < number + count
    }
}

impl<'a> PhysicalMemory for TableArea<'a> {
    ghost words = { λ a. a.words };

    ghost area = { λ a. a.area };

    fn limit(&self) -> u64 {
        self.limit
    }

    #[inline(always)]
    fn word(&self, frame: PhysFrame, index: u16) -> u64 {
        let number = frame.number();
        if number < self.first || number >= self.end {
            return 0;
        }
        self.words[512 * (number - self.first) as usize + index as usize]
    }

    fn set_word(&mut self, frame: PhysFrame, index: u16, value: u64) {
        let base = 512 * (frame.number() - self.first) as usize;
        self.words[base + index as usize] = value;
    }

    fn clear_frame(&mut self, frame: PhysFrame) {
        let base = 512 * (frame.number() - self.first) as usize;
        self.words[base..base + 512].copy_from_slice(&[0; 512]);
    }
}
