// What runs out: frames, input and output.
use crate::checks::same;
use crate::runs::{outcome, strings};
use crate::tests::ROWS;
use heap_program::{MemorySink, MemorySource, heap_main};
use std::alloc::{AllocError, Global};
use std::process::Abort;
use std::test::Fail;

/// A request, a map behind the place of its grant, and a greater request, over a window of 64 pages.
const CALLS: &str = "malloc 100\nmap 0x410000 1 rw--\nmalloc 70000\n";

/// What is printed over each number of frames from the least to the most, before the last line; and how many are taken
/// at the end, of which some are tables.
struct Frames {
    least: u32,
    most: u32,
    output: &'static str,
    taken: u32,
    tables: u32,
}

const FRAMES: [Frames; 5] = [
    Frames {
        least: 1,
        most: 4,
        output: "refused no-frames\nrefused no-frames\nrefused no-frames\n",
        taken: 1,
        tables: 1,
    },
    // One page and its three tables.
    Frames {
        least: 5,
        most: 19,
        output: "refused no-frames\ndone\nrefused no-frames\nregion 0x410000+1 user rw--\n",
        taken: 5,
        tables: 4,
    },
    // Sixteen pages and their tables, and none left.
    Frames {
        least: 20,
        most: 20,
        output: "block 0 0x400010\nheap 0x400000+16\nrefused no-frames\nrefused no-frames\nregion 0x400000+16 heap\n",
        taken: 20,
        tables: 4,
    },
    Frames {
        least: 21,
        most: 52,
        output: "block 0 0x400010\nheap 0x400000+16\ndone\nrefused no-frames\nregion 0x400000+16 heap\nregion 0x410000+1 user rw--\n",
        taken: 21,
        tables: 4,
    },
    Frames {
        least: 53,
        most: 60,
        output: "block 0 0x400010\nheap 0x400000+16\ndone\nblock 1 0x411010\nheap 0x400000+16 0x411000+32\nregion 0x400000+16 heap\nregion 0x410000+1 user rw--\nregion 0x411000+32 heap\n",
        taken: 53,
        tables: 4,
    },
];

/// Looks for what is printed over this number of frames.
fn expect_over(rt: &impl Abort, alloc: Global, row: &Frames, frames: u32) -> Result<(), Fail> {
    let number = format!(in alloc; "{frames}")?;
    let output = format!(in alloc;
        "{}frames {} tables {}\n",
        row.output,
        frames.saturating_sub(row.taken),
        row.tables
    )?;
    let words = ["run", "0x400000", "64", "65536", number.as_str(), "4095"];
    let (ended, sink) = outcome(alloc, &words, CALLS.as_bytes())?;
    assert_eq!(rt; sink.written(), output.as_bytes(), "over {} frames", frames);
    same(rt, ended.status, 0);
    Ok(())
}

#[test]
fn calls_over_each_number_of_frames(rt: HostRuntime) -> Result<(), Fail> {
    let mut next = 1;
    for row in &FRAMES {
        same(&rt, row.least, next);
        for frames in row.least..=row.most {
            expect_over(&rt, rt.alloc(), row, frames)?;
            next = frames.saturating_add(1);
        }
    }
    same(&rt, next, 61);
    Ok(())
}

/// The bytes of a piece.
const PIECE: u64 = 8;

/// How a run in pieces ends of which calls of the source and of the sink fail, and what it has written.
fn in_pieces(
    alloc: Global,
    failing_reads: Vec<u64>,
    failing_writes: Vec<u64>,
) -> Result<(u8, MemorySink), AllocError> {
    let words = strings(alloc, &["run"])?;
    let input = ROWS[1].input.as_bytes().to_vec(alloc)?;
    let mut source = MemorySource::new(input, PIECE, failing_reads);
    let mut sink = MemorySink::new(alloc, PIECE, failing_writes);
    let ended = heap_main(alloc, &words, &mut source, &mut sink);
    Ok((ended.status, sink))
}

fn only(alloc: Global, number: u64) -> Result<Vec<u64>, AllocError> {
    let mut numbers = Vec::new(alloc);
    numbers.push(number)?;
    Ok(numbers)
}

/// The reads of the run: the last gives no byte.
const READS: u64 = 5;

/// The writes and flushes of the run.
const WRITES: u64 = 22;

/// Looks that the run ends with status 6, and has written the beginning of its output, where a read fails.
fn expect_failing_read(rt: &impl Abort, alloc: Global, number: u64) -> Result<(), Fail> {
    let (status, sink) = in_pieces(alloc, only(alloc, number)?, Vec::new(alloc))?;
    assert_eq!(rt; status, 6, "read {}", number);
    let output = ROWS[1].output.as_bytes();
    assert!(rt; output.starts_with(sink.written()), "read {}", number);
    same(rt, sink.flushed(), sink.written().len());
    Ok(())
}

#[test]
fn each_read_fails_once(rt: HostRuntime) -> Result<(), Fail> {
    let alloc = rt.alloc();
    for number in 0..READS {
        expect_failing_read(&rt, alloc, number)?;
    }
    let (status, sink) = in_pieces(alloc, only(alloc, READS)?, Vec::new(alloc))?;
    same(&rt, status, 0);
    same(&rt, sink.written(), ROWS[1].output.as_bytes());
    Ok(())
}

/// Looks that the run ends with status 7, and has written the beginning of its output, where a write or a flush fails.
fn expect_failing_write(rt: &impl Abort, alloc: Global, number: u64) -> Result<(), Fail> {
    let (status, sink) = in_pieces(alloc, Vec::new(alloc), only(alloc, number)?)?;
    assert_eq!(rt; status, 7, "write or flush {}", number);
    let output = ROWS[1].output.as_bytes();
    assert!(rt;
        output.starts_with(sink.written()),
        "write or flush {}",
        number
    );
    Ok(())
}

#[test]
fn each_write_and_flush_fails_once(rt: HostRuntime) -> Result<(), Fail> {
    let alloc = rt.alloc();
    for number in 0..WRITES {
        expect_failing_write(&rt, alloc, number)?;
    }
    let (status, sink) = in_pieces(alloc, Vec::new(alloc), only(alloc, WRITES)?)?;
    same(&rt, status, 0);
    same(&rt, sink.written(), ROWS[1].output.as_bytes());
    Ok(())
}
