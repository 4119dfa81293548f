use crate::checks::{expect_output, same};
use crate::runs::{Row, outcome};
use heap_program::{Ended, end_text, parse_call, text_of};
use kernel_heap::{
    Answer, AnswerList, Call, CallList, Config, Extent, ExtentList, Kind, Machine, Refusal, Reply,
    Run, RunError, run_calls,
};
use std::alloc::{AllocError, Global};
use std::process::Abort;
use std::test::Fail;

pub(crate) const ROWS: [Row; 21] = [
    Row {
        input: "",
        output: "frames 1023 tables 1\n",
    },
    Row {
        input: "malloc 0\nmalloc 24\nmalloc 25\n",
        output: "block 0 0x400010\nheap 0x400000+16\nblock 1 0x400030\nblock 2 0x400050\nregion 0x400000+16 heap\nframes 1004 tables 4\n",
    },
    Row {
        input: "malloc 0xFFFFFFFFFFFEFF99\nmalloc 0xFFFFFFFFFFFEFF98\n",
        output: "refused too-large\nrefused no-space\nframes 1023 tables 1\n",
    },
    Row {
        input: "malloc 65432\nmalloc 8\nmalloc 100\n",
        output: "block 0 0x400010\nheap 0x400000+16\nblock 1 0x40ffb0\nheap 0x400000+16 0x410000+16\nblock 2 0x40ffd0\nregion 0x400000+16 heap\nregion 0x410000+16 heap\nframes 988 tables 4\n",
    },
    Row {
        input: "malloc 4194200\nmalloc 4194201\n",
        output: "refused no-frames\nrefused no-space\nframes 1023 tables 1\n",
    },
    // The last line has no line feed.
    Row {
        input: "malloc 24",
        output: "block 0 0x400010\nheap 0x400000+16\nregion 0x400000+16 heap\nframes 1004 tables 4\n",
    },
    // Two spaces, none, one at the end, a carriage return, and a word more.
    Row {
        input: "malloc  3\nmalloc3\nmalloc 3 \nmalloc 3\r\nmalloc 3 16 1\n",
        output: "bad line\nbad line\nbad line\nbad line\nbad line\nframes 1023 tables 1\n",
    },
    // An empty line, another case, and a line that nothing ends.
    Row {
        input: "\nMALLOC 3\nx",
        output: "bad line\nbad line\nbad line\nframes 1023 tables 1\n",
    },
    // No digit, a sign, 0X, 21 decimal digits, 17 hexadecimal ones, and 2^64.
    Row {
        input: "malloc 0x\nmalloc +1\nmalloc 0X1\nmalloc 000000000000000000001\nmalloc 0x00000000000000001\nmalloc 18446744073709551616\n",
        output: "bad line\nbad line\nbad line\nbad line\nbad line\nbad line\nframes 1023 tables 1\n",
    },
    // Leading zeros, and hexadecimal digits of either case.
    Row {
        input: "malloc 00000000000000000024\nmalloc 0x000000000000001f\nmalloc 0x1F\n",
        output: "block 0 0x400010\nheap 0x400000+16\nblock 1 0x400030\nblock 2 0x400060\nregion 0x400000+16 heap\nframes 1004 tables 4\n",
    },
    // Bytes that were never written are those of cleared pages; a length of 0 is in every block.
    Row {
        input: "malloc 3\nread 0 0 3\nread 0 3 0\nread 0 0 4\nwrite 0 3 00\nwrite 0 1 ff\nread 0 0 3\nread 5 0 0\n",
        output: "block 0 0x400010\nheap 0x400000+16\nbytes 000000\nbytes\nrefused out-of-block\nrefused out-of-block\ndone\nbytes 00ff00\nrefused unknown-block\nregion 0x400000+16 heap\nframes 1004 tables 4\n",
    },
    // No digits, an odd number of them, one that is none, a word more, and sums that would wrap.
    Row {
        input: "malloc 8\nwrite 0 0 \nwrite 0 0 abc\nwrite 0 0 0g\nwrite 0 0 00 00\nread 0 0\nread 0 1 0xffffffffffffffff\nread 0 0xffffffffffffffff 1\nwrite 0 0 aBcD\nread 0 0 2\n",
        output: "block 0 0x400010\nheap 0x400000+16\nbad line\nbad line\nbad line\nbad line\nbad line\nrefused out-of-block\nrefused out-of-block\ndone\nbytes abcd\nregion 0x400000+16 heap\nframes 1004 tables 4\n",
    },
    // The first block comes again from the victim, and what is left of it stays the victim.
    Row {
        input: "malloc 1000\nmalloc 8\nfree 0\nmalloc 24\nmalloc 24\nextents\n",
        output: "block 0 0x400010\nheap 0x400000+16\nblock 1 0x400400\ndone\nblock 2 0x400010\nblock 3 0x400030\nextents used:0x400000+32 used:0x400020+32 victim:0x400040+944 used:0x4003f0+32 top:0x400410+64416 foot:0x40ffb0+80\nregion 0x400000+16 heap\nframes 1004 tables 4\n",
    },
    // A request past what the window holds, beside a free chunk.
    Row {
        input: "malloc 256\nmalloc 256\nfree 0\nmalloc 0xFFFFFFFFFFFEFF98\n",
        output: "block 0 0x400010\nheap 0x400000+16\nblock 1 0x400120\ndone\nrefused no-space\nregion 0x400000+16 heap\nframes 1004 tables 4\n",
    },
    // A heap without regions has no extents.
    Row {
        input: "extents\n",
        output: "extents\nframes 1023 tables 1\n",
    },
    // No number, a space at the end, a word more, no digit, another case, and a space at the start.
    Row {
        input: "free\nfree 0 \nfree 0 0\nfree x\nextents 0\nextents \nFree 0\n free 0\n",
        output: "bad line\nbad line\nbad line\nbad line\nbad line\nbad line\nbad line\nbad line\nframes 1023 tables 1\n",
    },
    // The only block ends: the heap is all top and foot.
    Row {
        input: "malloc 8\nfree 0\nextents\n",
        output: "block 0 0x400010\nheap 0x400000+16\ndone\nextents top:0x400000+65456 foot:0x40ffb0+80\nregion 0x400000+16 heap\nframes 1004 tables 4\n",
    },
    // A block that lies across two regions.
    Row {
        input: "malloc 65432\nmalloc 100\nwrite 1 78 aabbccdd\nread 1 78 4\n",
        output: "block 0 0x400010\nheap 0x400000+16\nblock 1 0x40ffb0\nheap 0x400000+16 0x410000+16\ndone\nbytes aabbccdd\nregion 0x400000+16 heap\nregion 0x410000+16 heap\nframes 988 tables 4\n",
    },
    // Of free chunks of one size the newest is taken first, below 256 bytes.
    Row {
        input: "malloc 24\nmalloc 24\nmalloc 24\nmalloc 24\nfree 0\nfree 2\nmalloc 24\nmalloc 24\n",
        output: "block 0 0x400010\nheap 0x400000+16\nblock 1 0x400030\nblock 2 0x400050\nblock 3 0x400070\ndone\ndone\nblock 4 0x400050\nblock 5 0x400010\nregion 0x400000+16 heap\nframes 1004 tables 4\n",
    },
    // And the oldest from 256 bytes on.
    Row {
        input: "malloc 256\nmalloc 256\nmalloc 256\nmalloc 256\nfree 0\nfree 2\nmalloc 256\nmalloc 256\n",
        output: "block 0 0x400010\nheap 0x400000+16\nblock 1 0x400120\nblock 2 0x400230\nblock 3 0x400340\ndone\ndone\nblock 4 0x400010\nblock 5 0x400230\nregion 0x400000+16 heap\nframes 1004 tables 4\n",
    },
    // The least chunk that fits is taken.
    Row {
        input: "malloc 1000\nmalloc 8\nmalloc 600\nmalloc 8\nfree 0\nfree 2\nmalloc 500\n",
        output: "block 0 0x400010\nheap 0x400000+16\nblock 1 0x400400\nblock 2 0x400420\nblock 3 0x400680\ndone\ndone\nblock 4 0x400420\nregion 0x400000+16 heap\nframes 1004 tables 4\n",
    },
];

#[test]
fn rows_are_printed(rt: HostRuntime) -> Result<(), Fail> {
    for row in &ROWS {
        expect_output(&rt, rt.alloc(), row.input.as_bytes(), row.output.as_bytes())?;
    }
    Ok(())
}

/// What `run` prints for a line of 8193 letters with text before and behind it.
struct LongLine {
    before: &'static str,
    behind: &'static str,
    output: &'static str,
}

const LONG_LINES: [LongLine; 2] = [
    LongLine {
        before: "",
        behind: "\nmalloc 24\n",
        output: "bad line\nblock 0 0x400010\nheap 0x400000+16\nregion 0x400000+16 heap\nframes 1004 tables 4\n",
    },
    // A block that is freed again, and one that was never given.
    LongLine {
        before: "malloc 3\nread 0 0 3\nread 0 0 3\nread 0 3 0\nread 0 0 4\nwrite 0 3 00\nfree 0\nfree 0\nfree 5\n",
        behind: "\n",
        output: "block 0 0x400010\nheap 0x400000+16\nbytes 000000\nbytes 000000\nbytes\nrefused out-of-block\nrefused out-of-block\ndone\nrefused unknown-block\nrefused unknown-block\nbad line\nregion 0x400000+16 heap\nframes 1004 tables 4\n",
    },
];

#[test]
fn a_line_of_8193_bytes_is_bad(rt: HostRuntime) -> Result<(), Fail> {
    for line in &LONG_LINES {
        let mut input = line.before.as_bytes().to_vec(rt.alloc())?;
        input.extend_from_slice(&vec![in rt.alloc(); b'a'; 8193]?)?;
        input.extend_from_slice(line.behind.as_bytes())?;
        expect_output(&rt, rt.alloc(), &input, line.output.as_bytes())?;
    }
    Ok(())
}

#[test]
fn the_longest_line_is_a_call(rt: HostRuntime) -> Result<(), Fail> {
    let digits = vec![in rt.alloc(); b'5'; 8182]?;
    let mut input = b"malloc 4091\n".to_vec(rt.alloc())?;
    // Lines of 8192 bytes and of one byte more.
    for start in ["write 0 0 ", "write 0 00 "] {
        input.extend_from_slice(start.as_bytes())?;
        input.extend_from_slice(&digits)?;
        input.push(b'\n')?;
    }
    input.extend_from_slice(b"read 0 4089 2\n".as_slice())?;
    let output =
        b"block 0 0x400010\nheap 0x400000+16\ndone\nbad line\nbytes 5555\nregion 0x400000+16 heap\nframes 1004 tables 4\n";
    expect_output(&rt, rt.alloc(), &input, output.as_slice())
}

/// Looks for the text of an answer.
fn expect_text(rt: &impl Abort, alloc: Global, reply: Reply, wanted: &[u8]) -> Result<(), Fail> {
    let answer = Answer {
        reply,
        regions: None,
        large: None,
    };
    let text = text_of(alloc, &answer)?;
    same(rt, text.as_slice(), wanted);
    Ok(())
}

/// Looks for the text at the end of a machine.
fn expect_end(
    rt: &impl Abort,
    alloc: Global,
    machine: &Machine,
    wanted: &[u8],
) -> Result<(), Fail> {
    let text = end_text(alloc, machine)?;
    same(rt, text.as_slice(), wanted);
    Ok(())
}

#[test]
fn texts_are_made_alone(rt: HostRuntime) -> Result<(), Fail> {
    let alloc = rt.alloc();
    let Some(Call::Malloc { size, align }) = parse_call(alloc, b"malloc 0x18")? else {
        panic!(rt; "no call");
    };
    same(&rt, (size, align), (24, 16));
    let refused = Reply::Refused(Refusal::NoFrames);
    expect_text(&rt, alloc, refused, b"refused no-frames\n".as_slice())?;
    let (ended, _sink) = outcome(alloc, &["run"], b"malloc 24\n")?;
    let Ended { machine, .. } = ended;
    let Some(machine) = machine else {
        panic!(rt; "no machine");
    };
    let end = b"region 0x400000+16 heap\nframes 1004 tables 4\n";
    expect_end(&rt, alloc, &machine, end.as_slice())
}

#[test]
fn calls_without_sizes_are_parsed(rt: HostRuntime) -> Result<(), Fail> {
    let Some(Call::Free { block }) = parse_call(rt.alloc(), b"free 0x10")? else {
        panic!(rt; "no free");
    };
    same(&rt, block, 16);
    let Some(Call::Extents) = parse_call(rt.alloc(), b"extents")? else {
        panic!(rt; "no extents");
    };
    Ok(())
}

/// An extent of each kind.
const EXTENTS: [Extent; 6] = [
    Extent {
        at: 0x40_0000,
        size: 112,
        kind: Kind::Used,
    },
    Extent {
        at: 0x40_0070,
        size: 3904,
        kind: Kind::Free,
    },
    Extent {
        at: 0x40_0fb0,
        size: 80,
        kind: Kind::Record,
    },
    Extent {
        at: 0x40_1f50,
        size: 176,
        kind: Kind::Victim,
    },
    Extent {
        at: 0x40_3390,
        size: 3104,
        kind: Kind::Top,
    },
    Extent {
        at: 0x40_3fb0,
        size: 80,
        kind: Kind::Foot,
    },
];

#[test]
fn each_kind_of_extent_is_printed(rt: HostRuntime) -> Result<(), Fail> {
    let mut extents = ExtentList::new(rt.alloc());
    for extent in EXTENTS {
        extents.push(extent)?;
    }
    let text =
        b"extents used:0x400000+112 free:0x400070+3904 record:0x400fb0+80 victim:0x401f50+176 top:0x403390+3104 foot:0x403fb0+80\n".as_slice();
    expect_text(&rt, rt.alloc(), Reply::Extents(extents), text)
}

/// The configuration of the command `run`.
pub(crate) const DEFAULT: Config = Config {
    base: 0x40_0000,
    pages: 1024,
    granularity: 65536,
    frames: 1024,
    rate: 4095,
};

/// What `run_calls` answers to requests for blocks of these sizes at a granularity, and the end text of its machine.
struct CallsRow {
    granularity: u64,
    sizes: &'static [u64],
    answers: &'static str,
    end: &'static str,
}

const CALLS: [CallsRow; 4] = [
    CallsRow {
        granularity: 65536,
        sizes: &[0, 24, 25],
        answers: "block 0 0x400010\nheap 0x400000+16\nblock 1 0x400030\nblock 2 0x400050\n",
        end: "region 0x400000+16 heap\nframes 1004 tables 4\n",
    },
    CallsRow {
        granularity: 65536,
        sizes: &[],
        answers: "",
        end: "frames 1023 tables 1\n",
    },
    // Grants of single pages, and of a mebibyte.
    CallsRow {
        granularity: 4096,
        sizes: &[20000, 1],
        answers: "block 0 0x400010\nheap 0x400000+5\nblock 1 0x404e40\n",
        end: "region 0x400000+5 heap\nframes 1015 tables 4\n",
    },
    CallsRow {
        granularity: 1 << 20,
        sizes: &[0],
        answers: "block 0 0x400010\nheap 0x400000+256\n",
        end: "region 0x400000+256 heap\nframes 764 tables 4\n",
    },
];

/// Requests for blocks of these sizes.
fn requests(alloc: Global, sizes: &[u64]) -> Result<CallList, AllocError> {
    let mut calls = CallList::new(alloc);
    for size in sizes {
        calls.push(Call::Malloc {
            size: *size,
            align: 16,
        })?;
    }
    Ok(calls)
}

fn texts(alloc: Global, answers: &AnswerList) -> Result<Vec<u8>, AllocError> {
    let mut texts = Vec::new(alloc);
    for answer in answers.as_slice() {
        texts.extend_from_slice(text_of(alloc, answer)?.as_slice())?;
    }
    Ok(texts)
}

/// Looks for the texts of a run's answers, and for that at its end.
fn expect_run(rt: &impl Abort, alloc: Global, run: &Run, row: &CallsRow) -> Result<(), Fail> {
    let texts = texts(alloc, &run.answers)?;
    same(rt, texts.as_slice(), row.answers.as_bytes());
    expect_end(rt, alloc, &run.machine, row.end.as_bytes())
}

#[test]
fn calls_are_run_as_values(rt: HostRuntime) -> Result<(), Fail> {
    for row in &CALLS {
        let config = Config {
            granularity: row.granularity,
            ..DEFAULT
        };
        let calls = requests(rt.alloc(), row.sizes)?;
        let Ok(run) = run_calls(rt.alloc(), &config, &calls) else {
            panic!(rt; "no run");
        };
        expect_run(&rt, rt.alloc(), &run, row)?;
    }
    Ok(())
}

/// Windows, granularities and frames from which no machine is made, and why.
const REFUSED: [(u64, u64, u64, u32, RunError); 11] = [
    // The window holds the first page of the address space.
    (0, 1, 65536, 1, RunError::BadWindow),
    // It reaches over the end of the lower half, begins off a page, has no pages, and begins in the gap.
    (0x7fff_ffff_f000, 2, 65536, 1, RunError::BadWindow),
    (0x40_0001, 1, 65536, 1, RunError::BadWindow),
    (0x40_0000, 0, 65536, 1, RunError::BadWindow),
    (0x8000_0000_0000, 1, 65536, 1, RunError::BadWindow),
    // It holds the last page of the address space, and its bytes would wrap.
    (0xffff_ffff_ffff_e000, 2, 65536, 1, RunError::BadWindow),
    (0x40_0000, 1 << 52, 65536, 1, RunError::BadWindow),
    // Each cause comes before the later ones.
    (0, 1, 0, 0, RunError::BadWindow),
    (0x40_0000, 1, 8, 1, RunError::BadGranularity),
    (0x40_0000, 1, 3072, 0, RunError::BadGranularity),
    (0x40_0000, 1, 16, 0, RunError::TooFewFrames),
];

#[test]
fn bad_configurations_are_refused(rt: HostRuntime) -> Result<(), Fail> {
    for (base, pages, granularity, frames, error) in REFUSED {
        let config = Config {
            base,
            pages,
            granularity,
            frames,
            rate: 4095,
        };
        let calls = requests(rt.alloc(), &[1])?;
        let found = Machine::new(rt.alloc(), &config).err();
        same(&rt, found, Some(error));
        let found = run_calls(rt.alloc(), &config, &calls).err();
        same(&rt, found, Some(error));
    }
    Ok(())
}
