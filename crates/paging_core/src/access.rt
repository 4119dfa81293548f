ghost use Rattle.std.specs.Prelude.{◌≡◌, ℕ, ◌+◌, ◌-◌, ◌*◌, ◌/◌, ◌%◌, ◌<◌, ◌≤◌, IfSome, Some, length, List, Bool, set, IsTrue, slice_index};
ghost use Rattle.paging_core.specs.Address.{is_canonical};
ghost use Rattle.paging_core.specs.Memory.{word_at, byte_of, IsFrameCopied, AreWordsWritten, AreFrameWords};
ghost use Rattle.paging_core.specs.Walk.{walk_of, reached};
ghost use Rattle.paging_core.specs.Stores.{KeepsTables, IsWordPut};
ghost use Rattle.paging_core.specs.Tree.{IsTree};
ghost use Rattle.paging_core.specs.Premises.{IsMappedPage};

use crate::addr::VirtAddr;
use crate::memory::Frames;
use crate::page_walk::{frame_of_page, walk};
use crate::pages::Page;
use crate::phys_frames::PhysFrame;

/// The index in its frame of the word that holds the byte at the address.
fn word_index(address: VirtAddr) -> u16
    ensures value { result ≡ address % 4096 / 8 }
    ensures bounded { result < 512 }
    ensures canonical { IsTrue (is_canonical address) }
{
    (address.as_u64() % 4096 / 8) as u16
}

/// The 8-byte word at the address, through the walk.
///
/// The address is a multiple of 8, and its page is mapped.
pub fn load_word(frames: &Frames, root: PhysFrame, address: VirtAddr) -> u64
    requires page { IsMappedPage frames.now root (address / 4096) }
    requires aligned { address % 8 ≡ 0 }
    ensures word { IfSome (walk_of frames.now root (address / 4096)) (λ place. result ≡ word_at frames.now place.frame (address % 4096 / 8)) }
    ensures bytes { (k : ℕ) → k < 8 → reached frames.now root (address + k) ≡ Some (byte_of result k) }
{
    let Some(page) = walk(frames, root, Page::containing_address(address)) else {
        unreachable!()
    };
    frames.word(page.frame, word_index(address))
}

/// Writes the 8-byte word at the address, through the walk.
///
/// The address is a multiple of 8, and its page is mapped.
pub fn store_word(frames: &mut Frames, root: PhysFrame, address: VirtAddr, value: u64)
    requires page { IsMappedPage frames.old root (address / 4096) }
    requires aligned { address % 8 ≡ 0 }
    ensures word { IfSome (walk_of frames.old root (address / 4096)) (λ place. frames.new ≡ set frames.old (512 * place.frame + address % 4096 / 8) value) }
    ensures kept { KeepsTables frames.old frames.new root }
    ensures put { IsWordPut frames.old frames.new root address value }
{
    let Some(page) = walk(frames, root, Page::containing_address(address)) else {
        unreachable!()
    };
    frames.set_word(page.frame, word_index(address), value);
}

/// Reads the words of the page from `index` on, by one walk.
///
/// The page is mapped, and has that many words from `index` on.
pub fn load_words(frames: &Frames, root: PhysFrame, page: Page, index: u16, words: &mut [u64])
    requires page { IsMappedPage frames.now root page }
    requires fits { index + length words.old ≤ 512 }
    ensures words { IfSome (walk_of frames.now root page) (λ place. AreFrameWords frames.now place.frame index words.new) }
    ensures length { length words.new ≡ length words.old }
    ensures bytes { (address : ℕ) → address / 4096 ≡ page → index ≤ address % 4096 / 8 → address % 4096 / 8 < index + length words.new →
        reached frames.now root address ≡ Some (byte_of (slice_index words.new (address % 4096 / 8 - index)) (address % 8)) }
{
    let frame = frame_of_page(frames, root, page);
    frames.read_words(frame, index, words);
}

/// Writes the words to the page, from `index` on, by one walk.
///
/// The page is mapped, and has that many words from `index` on.
pub fn store_words(frames: &mut Frames, root: PhysFrame, page: Page, index: u16, words: &[u64])
    requires page { IsMappedPage frames.old root page }
    requires fits { index + length words.now ≤ 512 }
    ensures words { IfSome (walk_of frames.old root page) (λ place. AreWordsWritten frames.old frames.new place.frame index words.now) }
    ensures kept { KeepsTables frames.old frames.new root }
    ensures bytes { (free : List Bool) → IsTree frames.old root free → (address : ℕ) → address / 4096 ≡ page → index ≤ address % 4096 / 8 → address % 4096 / 8 < index + length words.now →
        reached frames.new root address ≡ Some (byte_of (slice_index words.now (address % 4096 / 8 - index)) (address % 8)) }
    ensures others { (free : List Bool) → IsTree frames.old root free → (address : ℕ) → IsTrue (is_canonical address) →
        (address / 4096 ≡ page → index ≤ address % 4096 / 8 → address % 4096 / 8 < index + length words.now → ⊥) → reached frames.new root address ≡ reached frames.old root address }
{
    let frame = frame_of_page(frames, root, page);
    frames.write_words(frame, index, words);
}

/// Copies the bytes of one page to another.
///
/// Both are mapped.
pub fn copy_page(frames: &mut Frames, root: PhysFrame, from: Page, to: Page)
    requires source { IsMappedPage frames.old root from }
    requires target { IsMappedPage frames.old root to }
    ensures words { IfSome (walk_of frames.old root from) (λ source. IfSome (walk_of frames.old root to) (λ target. IsFrameCopied frames.old frames.new source.frame target.frame)) }
    ensures kept { KeepsTables frames.old frames.new root }
    ensures bytes { (free : List Bool) → IsTree frames.old root free → (k : ℕ) → k < 4096 → reached frames.new root (4096 * to + k) ≡ reached frames.old root (4096 * from + k) }
    ensures others { (free : List Bool) → IsTree frames.old root free → (address : ℕ) → IsTrue (is_canonical address) → (address / 4096 ≡ to → ⊥) → reached frames.new root address ≡ reached frames.old root address }
{
    let source = frame_of_page(frames, root, from);
    let target = frame_of_page(frames, root, to);
    frames.copy_frame(source, target);
}
