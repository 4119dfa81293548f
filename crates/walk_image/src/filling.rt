// A memory with given words.
ghost use Rattle.std.specs.Prelude.{◌≡◌};
ghost use Rattle.walk_image.specs.Filled.{put, filled};

use paging_core::{Frames, PhysAddr, PhysFrame};

// Writes a word at a physical address, unless that is no place of a word in the memory.
fn put_word(frames: &mut Frames, place: u64, word: u64)
    ensures { frames.new ≡ put frames.old place word }
{
    if place % 8 == 0 && place / 4096 < u64::from(frames.count()) {
        let frame = PhysFrame::containing_address(PhysAddr::new(place));
        frames.set_word(frame, (place % 4096 / 8) as u16, word);
    }
}

/// Writes words to the memory: each has its physical address before it.
pub fn fill(frames: &mut Frames, pairs: &[u64])
    ensures { frames.new ≡ filled frames.old pairs.now }
{
    for k in 0..pairs.len() / 2 {
        put_word(frames, pairs[2 * k], pairs[2 * k + 1]);
    }
}
