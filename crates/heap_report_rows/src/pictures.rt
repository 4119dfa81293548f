//! What is drawn.
ghost use Rattle.std.specs.Prelude.{◌<◌, IfSome, length};

use crate::checks::same;
use heap_picture::picture_main;
use heap_program::{MemorySink, MemorySource, SureSink, SureSource};
use heap_report::Reported;
use kernel_heap::{Extent, Kind};
use std::alloc::{AllocError, Global};
use std::process::Abort;
use std::test::Fail;

fn outcome_of(
    alloc: Global,
    words: &[String],
    input: &[u8],
) -> Result<(Reported, SureSink), AllocError> {
    let mut source = SureSource::new(input.to_vec(alloc)?);
    let mut sink = SureSink::new(alloc);
    let reported = picture_main(alloc, words, &mut source, &mut sink);
    Ok((reported, sink))
}

fn outcome(alloc: Global, input: &[u8]) -> Result<(Reported, SureSink), AllocError> {
    outcome_of(alloc, &[], input)
}

// Where the text stands first from a place on.
fn find(text: &[u8], from: usize, part: &[u8]) -> Option<usize>
    ensures { IfSome result (λ at. at < length text.now) }
{
    for at in from..text.len() {
        if text[at..].starts_with(part) {
            return Some(at);
        }
    }
    None
}

/// 200 calls that leave many extents of all kinds: requests for blocks of many sizes, of which some end or change.
fn two_hundred_calls(alloc: Global) -> Result<String, AllocError> {
    let mut calls = String::new(alloc);
    let mut draw: u32 = 7;
    for number in 0u32..100 {
        draw = draw.wrapping_mul(1_664_525).wrapping_add(1_013_904_223);
        let size = draw >> 22;
        writeln!(calls, "malloc {size}")?;
        let other = (draw >> 8) % (number + 1);
        if number % 3 == 0 {
            writeln!(calls, "realloc {other} 77")?;
        } else {
            writeln!(calls, "free {other}")?;
        }
    }
    Ok(calls)
}

/// How the map begins what it says of an extent.
fn words_of(kind: Kind) -> &'static str {
    match kind {
        Kind::Used => "block ",
        Kind::Free => "free of ",
        Kind::Victim => "victim of ",
        Kind::Top => "top of ",
        Kind::Record => "record of ",
        Kind::Foot => "foot of ",
    }
}

/// Looks that the extent has a title, behind a place in the text. Answers where.
fn expect_drawn(
    rt: &impl Abort,
    alloc: Global,
    text: &[u8],
    last: usize,
    extent: Extent,
) -> Result<usize, Fail> {
    let mut title = String::new(alloc);
    let (at, words) = (extent.at, words_of(extent.kind));
    write!(title, "<title>0x{at:x}: {words}")?;
    let Some(at) = find(text, last, title.as_bytes()) else {
        panic!(rt; "an extent is not drawn in its place");
    };
    Ok(at)
}

#[test]
fn each_extent_is_drawn_in_order(rt: HostRuntime) -> Result<(), Fail> {
    let calls = two_hundred_calls(rt.alloc())?;
    let (reported, sink) = outcome(rt.alloc(), calls.as_bytes())?;
    same(&rt, reported.status, 0);
    let Some(extents) = &reported.extents else {
        panic!(rt; "no extents");
    };
    assert!(rt; extents.len() > 60);
    let mut last = 0;
    // With rows of at most 4096 bytes each of these has four cells of a row to itself.
    for extent in extents.as_slice() {
        if extent.size >= 64 {
            last = expect_drawn(&rt, rt.alloc(), sink.written(), last, *extent)?;
        }
    }
    Ok(())
}

/// Looks that the parts stand in the picture of a run, which the words ask for.
fn expect_parts_of(
    rt: &impl Abort,
    alloc: Global,
    words: &[String],
    calls: &[u8],
    parts: &[&str],
) -> Result<(), Fail> {
    let (reported, sink) = outcome_of(alloc, words, calls)?;
    same(rt, reported.status, 0);
    for part in parts {
        assert!(rt;
            find(sink.written(), 0, part.as_bytes()).is_some(),
            "{}",
            part
        );
    }
    Ok(())
}

fn expect_parts(rt: &impl Abort, alloc: Global, calls: &[u8], parts: &[&str]) -> Result<(), Fail> {
    expect_parts_of(rt, alloc, &[], calls, parts)
}

/// Blocks have their numbers and the bytes that were asked for, each at the place of its chunk, and freed ones have none. Of the
/// labels that fits which is the longest.
#[test]
fn blocks_have_their_names(rt: HostRuntime) -> Result<(), Fail> {
    expect_parts(
        &rt,
        rt.alloc(),
        b"malloc 1000\nmalloc 24\nmalloc 24\nmalloc 100\nmalloc 8\nfree 3\nrealloc 4 20\n".as_slice(),
        &[
            "<rect class=\"u\" x=\"144\" y=\"168\" width=\"1024\" height=\"14\"><title>0x400000: block 0, 1,000 of 1,008 bytes</title></rect>\n<text class=\"m in\" x=\"149\" y=\"179\">block 0: 1,008 B</text>\n",
            "<rect class=\"none\" x=\"144\" y=\"189\" width=\"992\" height=\"18\"><title>0x400000: block 0, 1,000 of 1,008 bytes</title></rect>\n<rect class=\"paper\" x=\"1136\" y=\"189\" width=\"1\" height=\"18\"/>\n<rect class=\"none\" x=\"1136\" y=\"189\" width=\"32\" height=\"18\"><title>0x4003f0: block 1, 24 of 32 bytes</title></rect>\n<text class=\"m in\" x=\"1141\" y=\"202\">1</text>\n",
            "<rect class=\"none\" x=\"144\" y=\"212\" width=\"32\" height=\"18\"><title>0x4003f0: block 1, 24 of 32 bytes</title></rect>\n<rect class=\"paper\" x=\"176\" y=\"212\" width=\"1\" height=\"18\"/>\n<rect class=\"none\" x=\"176\" y=\"212\" width=\"64\" height=\"18\"><title>0x400410: block 2, 24 of 32 bytes</title></rect>\n<text class=\"m in\" x=\"181\" y=\"225\">2: 32 B</text>\n",
            "<rect class=\"none\" x=\"240\" y=\"212\" width=\"224\" height=\"18\"><title>0x400430: free of 112 bytes</title></rect>\n<text class=\"m on\" x=\"245\" y=\"225\">free 112 B</text>\n",
            "<rect class=\"none\" x=\"464\" y=\"212\" width=\"64\" height=\"18\"><title>0x4004a0: block 4, 20 of 32 bytes</title></rect>\n<text class=\"m in\" x=\"469\" y=\"225\">4: 32 B</text>\n",
        ],
    )
}

/// A block that was moved has its name at its new place alone, and the next block after a reset has a number of its own.
#[test]
fn names_follow_blocks(rt: HostRuntime) -> Result<(), Fail> {
    expect_parts(
        &rt,
        rt.alloc(),
        b"malloc 24\nmalloc 24\nrealloc 0 2000\n".as_slice(),
        &[
            "<rect class=\"none\" x=\"144\" y=\"166\" width=\"64\" height=\"18\"><title>0x400000: free of 32 bytes</title></rect>\n<text class=\"m on\" x=\"149\" y=\"179\">32 B</text>\n",
            "<rect class=\"none\" x=\"208\" y=\"166\" width=\"64\" height=\"18\"><title>0x400020: block 1, 24 of 32 bytes</title></rect>\n<text class=\"m in\" x=\"213\" y=\"179\">1: 32 B</text>\n",
            "<rect class=\"none\" x=\"272\" y=\"166\" width=\"896\" height=\"18\"><title>0x400040: block 0, 2,000 of 2,016 bytes</title></rect>\n<text class=\"m in\" x=\"277\" y=\"179\">block 0: 2,016 B</text>\n",
        ],
    )?;
    expect_parts(
        &rt,
        rt.alloc(),
        b"malloc 24\nreset\nmalloc 40\n".as_slice(),
        &["<title>0x400000: block 1, 40 of 48 bytes</title>"],
    )
}

/// The lines of a drawing by hand, of ten calls.
#[test]
fn a_run_is_drawn_over_its_calls(rt: HostRuntime) -> Result<(), Fail> {
    let mut word = String::new(rt.alloc());
    word.push_str("time")?;
    let words = vec![in rt.alloc(); word]?;
    expect_parts_of(
        &rt,
        rt.alloc(),
        words.as_slice(),
        b"malloc 1000\nmalloc 24\nmalloc 200\nfree 0\nmalloc 24\ncalloc 300\nrealloc 1 120\nmalloc 64 64\nfree 2\nmalloc 400\n".as_slice(),
        &[
            "<text class=\"h\" x=\"24\" y=\"40\">The heap over 10 calls</text>\n",
            "<svg x=\"144\" y=\"103\" width=\"1024\" height=\"336\" viewBox=\"0 0 65536 21504\">\n<rect class=\"heap\" x=\"0\" y=\"0\" width=\"65536\" height=\"21504\"><title>heap region 0x400000 + 16 pages</title></rect>\n<rect class=\"gone\" x=\"0\" y=\"4109\" width=\"19660\" height=\"17121\"><title>block 0: 1,000 bytes at 0x400010, call 1 to 4 (freed)</title></rect>\n<rect class=\"gone\" x=\"6553\" y=\"3561\" width=\"32768\" height=\"411\"><title>block 1: 24 bytes at 0x400400, call 2 to 7 (moved)</title></rect>\n",
            "<text class=\"m in\" x=\"1070\" y=\"210\">6: 400 B</text>\n",
            "<path class=\"mark\" d=\"M758 162V325m-4 -5l4 5l4 -5\" stroke-width=\"1.5\"/>\n",
            "<text class=\"m\" x=\"762\" y=\"647\">realloc</text>\n<text class=\"m faint\" x=\"762\" y=\"661\">1</text>\n<text class=\"m faint\" x=\"762\" y=\"675\">120</text>\n",
            "<path class=\"su\" d=\"M144 477H246V475H348V456H451V548H553V546H656V518H758V510H860V504H963V522H1065V485H1168\" stroke-width=\"2\"/>\n",
        ],
    )
}

/// The words of a run whose page tables are drawn.
fn tables_words(alloc: Global, of: &[&str]) -> Result<Vec<String>, AllocError> {
    let mut words = Vec::new(alloc);
    for word in of {
        let mut taken = String::new(alloc);
        taken.push_str(word)?;
        words.push(taken)?;
    }
    Ok(words)
}

/// Pages of the user and of the heap one after the other, with frames one after the other and equal rights: the last tables are
/// there from the first call on, and so each later call takes a frame for its page alone.
#[test]
fn a_change_of_owner_begins_a_line(rt: HostRuntime) -> Result<(), Fail> {
    let words = tables_words(
        rt.alloc(),
        ["tables", "0x401000", "3", "4096", "64", "4095"].as_slice(),
    )?;
    expect_parts_of(
        &rt,
        rt.alloc(),
        words.as_slice(),
        b"map 0x404000 1 r---\nmap 0x400000 1 rw--\nmalloc 24\n".as_slice(),
        &[
            "<rect class=\"w\" x=\"120\" y=\"188\" width=\"12\" height=\"14\"><title>0x400000 + 1 page, user rw--, frame 5</title></rect>\n<text class=\"m\" x=\"140\" y=\"199\">0x400000 + 1 page</text>\n<text class=\"m\" x=\"362\" y=\"199\">user</text>\n<text class=\"m faint\" x=\"416\" y=\"199\">rw--</text>\n<text class=\"m faint\" x=\"466\" y=\"199\">5</text>\n",
            "<rect class=\"u\" x=\"120\" y=\"210\" width=\"12\" height=\"14\"><title>0x401000 + 1 page, heap rw--, frame 6</title></rect>\n",
            "<rect class=\"line\" x=\"768\" y=\"214\" width=\"512\" height=\"6\"/>\n<rect class=\"u\" x=\"769\" y=\"211\" width=\"1\" height=\"12\"><title>entry 1</title></rect>\n",
            "<rect class=\"w\" x=\"120\" y=\"232\" width=\"12\" height=\"14\"><title>0x404000 + 1 page, user r---, frame 1</title></rect>\n",
            ">4 tables</text>\n<rect class=\"u\" x=\"272\" y=\"276\" width=\"12\" height=\"12\"/>\n<text class=\"p\" x=\"290\" y=\"286\">1 page of the heap</text>\n<rect class=\"w\" x=\"506\" y=\"276\" width=\"12\" height=\"12\"/>\n<text class=\"p\" x=\"524\" y=\"286\">2 pages of the user</text>\n",
            ">0 in large pages</text>\n",
            ">57 free</text>\n",
            "<rect class=\"w\" x=\"69\" y=\"298\" width=\"8\" height=\"8\"><title>frame 5: page of the user</title></rect>\n<rect class=\"u\" x=\"78\" y=\"298\" width=\"8\" height=\"8\"><title>frame 6: page of the heap</title></rect>\n",
        ],
    )
}

/// A large page of the heap has the colours of both. Its 512 frames are taken first, and those of its tables then.
#[test]
fn a_large_page_has_an_owner(rt: HostRuntime) -> Result<(), Fail> {
    let words = tables_words(rt.alloc(), ["tables"].as_slice())?;
    expect_parts_of(
        &rt,
        rt.alloc(),
        words.as_slice(),
        b"malloc 2500000\n".as_slice(),
        &[
            "<rect class=\"u\" x=\"96\" y=\"166\" width=\"12\" height=\"14\"><title>0x400000 + 1 large page, heap rw--, frames 512 to 1,023</title></rect>\n<rect class=\"l\" x=\"96\" y=\"173\" width=\"12\" height=\"7\"><title>0x400000 + 1 large page, heap rw--, frames 512 to 1,023</title></rect>\n<text class=\"m\" x=\"116\" y=\"177\">0x400000 + 1 large page</text>\n<text class=\"m\" x=\"362\" y=\"177\">heap</text>\n",
            ">512 in large pages</text>\n",
            ">112 pages of the heap</text>\n",
            ">0 pages of the user</text>\n",
        ],
    )
}

#[test]
fn an_empty_heap_has_a_picture(rt: HostRuntime) -> Result<(), Fail> {
    let (reported, sink) = outcome(rt.alloc(), b"".as_slice())?;
    same(&rt, reported.status, 0);
    assert!(rt; sink.written().starts_with(b"<svg xmlns=".as_slice()));
    assert!(rt;
        sink.written().ends_with(b">free frames: 1,023, tables: 1</text>\n</svg>\n".as_slice())
    );
    Ok(())
}

#[test]
fn regions_and_large_pages_are_marked(rt: HostRuntime) -> Result<(), Fail> {
    expect_parts(
        &rt,
        rt.alloc(),
        b"malloc 2500000\nmap 0x700000 2 r-ux\n".as_slice(),
        &[
            "<text class=\"m e\" x=\"1120\" y=\"312\">624 pages</text>\n<text class=\"m e faint\" x=\"1280\" y=\"312\">heap</text>\n",
            "<rect class=\"u\" x=\"912\" y=\"317\" width=\"368\" height=\"4\"><title>0x400000+624 heap</title></rect>\n",
            "<rect class=\"l\" x=\"912\" y=\"317\" width=\"301\" height=\"4\"><title>1 large</title></rect>\n",
            "<rect class=\"w\" x=\"912\" y=\"342\" width=\"3\" height=\"4\"><title>0x700000+2 user r-ux</title></rect>\n",
        ],
    )
}

#[test]
fn neighbours_are_one_line_and_eight_lines_are_counted(rt: HostRuntime) -> Result<(), Fail> {
    expect_parts(
        &rt,
        rt.alloc(),
        b"map 0x10000 1 r---\nmap 0x11000 2 r---\nmap 0x13000 1 rw--\nmap 0x20000 1 r---\nmap 0x30000 1 r---\nmap 0x40000 1 r---\nmap 0x50000 1 r---\nmap 0x60000 1 r---\nmap 0x70000 5 r---\n".as_slice(),
        &[
            ">0x10000</text>\n<text class=\"m e\" x=\"1120\" y=\"220\">3 pages</text>\n",
            ">0x13000</text>\n<text class=\"m e\" x=\"1120\" y=\"245\">1 page</text>\n",
            ">0x50000</text>\n",
            "<text class=\"faint\" x=\"912\" y=\"370\">and 2 more, of 6 pages</text>\n",
        ],
    )
}

#[test]
fn small_extents_share_cells(rt: HostRuntime) -> Result<(), Fail> {
    let mut calls = String::new(rt.alloc());
    // 30 blocks of 40,000 bytes have a cell stand for 128 bytes: the first has 32 that are free and 96 of a block.
    for _ in 0..30 {
        calls.push_str("malloc 24\nmalloc 40000\n")?;
    }
    calls.push_str("free 0\n")?;
    expect_parts(
        &rt,
        rt.alloc(),
        calls.as_bytes(),
        &[
            "<rect class=\"u\" x=\"144\" y=\"170\" width=\"2\" height=\"14\"/>\n<rect class=\"f\" x=\"144\" y=\"166\" width=\"2\" height=\"4\"/>\n",
        ],
    )
}

/// Looks how a run ends of which a read or a write fails.
fn expect_end(
    rt: &impl Abort,
    alloc: Global,
    failing_read: u64,
    failing_write: u64,
    status: u8,
) -> Result<(), Fail> {
    let input = b"malloc 24\n".to_vec(alloc)?;
    let mut source = MemorySource::new(input, 4096, vec![in alloc; failing_read]?);
    let mut sink = MemorySink::new(alloc, 4096, vec![in alloc; failing_write]?);
    let reported = picture_main(alloc, &[], &mut source, &mut sink);
    same(rt, reported.status, status);
    same(rt, reported.extents.is_some(), status == 0);
    if status != 0 {
        same(rt, sink.written().len(), 0);
    }
    Ok(())
}

#[test]
fn a_failing_source_or_sink_ends_the_run(rt: HostRuntime) -> Result<(), Fail> {
    for (failing_read, failing_write, status) in [(0, 99, 6), (99, 1, 7), (99, 99, 0)] {
        expect_end(&rt, rt.alloc(), failing_read, failing_write, status)?;
    }
    Ok(())
}
