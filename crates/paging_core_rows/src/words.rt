//! Words and pages that are read, written and copied through the walk.
ghost use Rattle.std.specs.Prelude.{◌≡◌, ◌+◌, ◌<◌, IsTrue, IfOk, IsSome};
ghost use Rattle.paging_core.specs.Memory.{frame_count};
ghost use Rattle.paging_core.specs.Walk.{walk_of};

use crate::checks::same;
use crate::large_pages::write;
use paging_core::*;
use std::alloc::Global;
use std::process::Abort;
use std::test::Fail;

/// A memory in which page 0 is at frame 4, page 1 at frame 5, and the pages from 512 on are at the frames from 512
/// on, by a large entry. The root is in frame 0, and the tables are in the frames 1 to 3.
fn memory(alloc: Global) -> Result<Frames, Fail>
    ensures { IfOk result (λ frames. frame_count frames ≡ 1024) }
{
    let mut frames = Frames::new(alloc, 1024)?;
    write(&mut frames, 0, 0, 0x1007);
    write(&mut frames, 1, 0, 0x2007);
    write(&mut frames, 2, 0, 0x3007);
    write(&mut frames, 2, 1, 0x20_0087);
    write(&mut frames, 3, 0, 0x4003);
    write(&mut frames, 3, 1, 0x5003);
    Ok(frames)
}

fn frame_at(number: u64) -> PhysFrame
    requires { number < 1024 }
    ensures { result ≡ number }
{
    PhysFrame::containing_address(PhysAddr::new(number << 12))
}

fn page_at(number: u64) -> Page
    requires { number < 1024 }
    ensures { result ≡ number }
{
    Page::containing_address(VirtAddr::new(number << 12))
}

fn is_mapped(frames: &Frames, page: Page) -> bool
    ensures root { IsTrue result → 0 < frame_count frames.now }
    ensures mapped { IsTrue result → IsSome (walk_of frames.now 0 page) }
{
    if frames.count() == 0 {
        return false;
    }
    walk(frames, frame_at(0), page).is_some()
}

/// A word, by its frame.
fn word(rt: &impl Abort, frames: &Frames, number: u64, index: u16) -> u64
    requires frame { number < 1024 }
    requires index { index < 512 }
{
    assert!(rt; number < u64::from(frames.count()));
    frames.word(frame_at(number), index)
}

/// Writes the words if the page is mapped and has that many words.
fn store(frames: &mut Frames, page: Page, index: u16, words: &[u64]) -> bool {
    if !is_mapped(frames, page) || words.len() > 512 || usize::from(index) + words.len() > 512 {
        return false;
    }
    store_words(frames, frame_at(0), page, index, words);
    true
}

/// Reads as many words as there is room for, if the page is mapped and has that many.
fn load(frames: &Frames, page: Page, index: u16, words: &mut [u64]) -> bool {
    if !is_mapped(frames, page) || words.len() > 512 || usize::from(index) + words.len() > 512 {
        return false;
    }
    load_words(frames, frame_at(0), page, index, words);
    true
}

/// Copies a page to another if both are mapped.
fn copy(frames: &mut Frames, from: Page, to: Page) -> bool {
    if !is_mapped(frames, from) || !is_mapped(frames, to) {
        return false;
    }
    copy_page(frames, frame_at(0), from, to);
    true
}

#[test]
fn words_are_written_to_a_page_and_read(rt: HostRuntime) -> Result<(), Fail> {
    for (number, frame) in [(0, 4), (1, 5), (515, 515)] {
        let mut frames = memory(rt.alloc())?;
        let page = page_at(number);
        for index in [1, 100, 509] {
            assert!(rt; store(&mut frames, page, index - 1, &[1, 2, 3, 4]));
            assert!(rt; store(&mut frames, page, index, &[7, 8]));
            let mut words = [0; 4];
            assert!(rt; load(&frames, page, index - 1, &mut words));
            same(&rt, words, [1, 7, 8, 4]);
            same(&rt, word(&rt, &frames, frame, index), 7);
        }
    }
    Ok(())
}

#[test]
fn words_of_a_page_that_is_not_mapped_are_refused(rt: HostRuntime) -> Result<(), Fail> {
    let mut frames = memory(rt.alloc())?;
    for number in [2, 511] {
        let page = page_at(number);
        let mut words = [5];
        assert!(rt; !store(&mut frames, page, 0, &[7]));
        assert!(rt; !load(&frames, page, 0, &mut words));
        same(&rt, words, [5]);
    }
    assert!(rt; !store(&mut frames, page_at(0), 511, &[7, 8]));
    assert!(rt; !load(&frames, page_at(0), 511, &mut [0; 2]));
    Ok(())
}

#[test]
fn a_page_is_copied_whole(rt: HostRuntime) -> Result<(), Fail> {
    for (from, to, frame) in [(515, 0, 4), (515, 1, 5), (0, 515, 515)] {
        let mut frames = memory(rt.alloc())?;
        frames.set_word(frame_at(frame - 1), 511, 8);
        frames.set_word(frame_at(frame + 1), 0, 9);
        assert!(rt; store(&mut frames, page_at(from), 0, &[3; 512]));
        assert!(rt; copy(&mut frames, page_at(from), page_at(to)));
        for (number, index, wanted) in [
            (frame - 1, 511, 8),
            (frame, 0, 3),
            (frame, 511, 3),
            (frame + 1, 0, 9),
        ] {
            same(&rt, word(&rt, &frames, number, index), wanted);
        }
    }
    Ok(())
}

#[test]
fn a_copy_of_a_page_that_is_not_mapped_is_refused(rt: HostRuntime) -> Result<(), Fail> {
    let mut frames = memory(rt.alloc())?;
    for (from, to) in [(2, 0), (0, 2), (2, 511)] {
        assert!(rt; !copy(&mut frames, page_at(from), page_at(to)));
    }
    Ok(())
}
