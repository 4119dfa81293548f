//! What a space says when it refuses a call.
use crate::checks::same;
use address_space::SpaceFault;
use std::test::Fail;
use x86_flags::PageFaultErrorCode;

#[test]
fn refusals_of_a_space_have_their_words(rt: HostRuntime) -> Result<(), Fail> {
    let table = [
        (
            SpaceFault::BadRange,
            "the range has no pages, is off a page, or leaves its canonical half",
        ),
        (SpaceFault::Overlap, "a page of the target is mapped"),
        (
            SpaceFault::Hole { at: 0x7000 },
            "the page at 0x7000 is not mapped",
        ),
        (SpaceFault::NoRoom, "the window has no place for the pages"),
        (SpaceFault::NoFrames, "there are too few free frames"),
        (
            SpaceFault::Denied {
                at: 0x1234,
                code: PageFaultErrorCode::CAUSED_BY_WRITE,
            },
            "the access at 0x1234 is denied",
        ),
        (SpaceFault::OutOfMemory, "out of memory"),
    ];
    for (fault, words) in table.iter() {
        same(&rt, format!(in rt.alloc(); "{fault}")?.as_str(), *words);
    }
    Ok(())
}
