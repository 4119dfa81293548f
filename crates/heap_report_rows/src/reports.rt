//! What is reported.
use crate::checks::same;
use heap_program::{MemorySink, MemorySource, SureSink, SureSource};
use heap_report::{Reported, report_main};
use kernel_heap::{Extent, Kind};
use std::alloc::{AllocError, Global};
use std::process::Abort;
use std::test::Fail;

fn strings(alloc: Global, words: &[&str]) -> Result<Vec<String>, AllocError> {
    let mut strings = Vec::new(alloc);
    for word in words {
        strings.push(String::from_str(alloc, word)?)?;
    }
    Ok(strings)
}

fn outcome(
    alloc: Global,
    words: &[&str],
    input: &[u8],
) -> Result<(Reported, SureSink), AllocError> {
    let mut source = SureSource::new(input.to_vec(alloc)?);
    let mut sink = SureSink::new(alloc);
    let reported = report_main(alloc, &strings(alloc, words)?, &mut source, &mut sink);
    Ok((reported, sink))
}

/// What is reported of an input. Each run ends with status 0.
struct Row {
    input: &'static str,
    output: &'static str,
}

const ROWS: [Row; 9] = [
    Row {
        input: "",
        output: "live 0\npeak 0\nused 0 0\nfree 0 0\ngreatest 0\noverhead 0\npermille 0\n",
    },
    // An aligned block that is moved leaves a great free chunk.
    Row {
        input: "malloc 100 4096\nrealloc 0 50\n",
        output: "live 50\npeak 100\nused 1 64\nfree 2 65392\ngreatest 57216\noverhead 80\npermille 125\ntree 9 1\n",
    },
    // The peak is in the middle, and the victim is in no class.
    Row {
        input: "malloc 1000\nmalloc 8\nfree 0\nmalloc 24\nmalloc 24\n",
        output: "live 56\npeak 1008\nused 3 96\nfree 2 65360\ngreatest 64416\noverhead 80\npermille 14\n",
    },
    // Lines that are no call are passed over, and the last line has no line feed.
    Row {
        input: "malloc 1000\nhello\nmalloc 8\n\nfree 0\nmalloc  3\nmalloc 24\nmalloc 24",
        output: "live 56\npeak 1008\nused 3 96\nfree 2 65360\ngreatest 64416\noverhead 80\npermille 14\n",
    },
    // Refused calls change nothing.
    Row {
        input: "malloc 1000\nmalloc 8\nfree 0\nfree 0\nrealloc 0 7\nmalloc 1 3\nmalloc 24\nmalloc 24\n",
        output: "live 56\npeak 1008\nused 3 96\nfree 2 65360\ngreatest 64416\noverhead 80\npermille 14\n",
    },
    // Two small chunks of one size.
    Row {
        input: "malloc 24\nmalloc 24\nmalloc 24\nmalloc 24\nfree 0\nfree 2\n",
        output: "live 48\npeak 96\nused 2 64\nfree 3 65392\ngreatest 65328\noverhead 80\npermille 0\nsmall 32 2\n",
    },
    // A block that becomes smaller, cleared bytes, and an extents line of the input.
    Row {
        input: "calloc 200\nc_realloc 0 100\nextents\n",
        output: "live 100\npeak 200\nused 1 112\nfree 1 65344\ngreatest 65344\noverhead 80\npermille 0\n",
    },
    // After a reset no block is live and no region left.
    Row {
        input: "malloc 24\nmalloc 24\nreset\n",
        output: "live 0\npeak 48\nused 0 0\nfree 0 0\ngreatest 0\noverhead 0\npermille 0\n",
    },
    // Two segments of one region each: the first ends in a record.
    Row {
        input: "malloc 24\nmap 0x410000 1 rw--\nmalloc 65433\n",
        output: "live 65457\npeak 65457\nused 2 65488\nfree 2 130960\ngreatest 65536\noverhead 160\npermille 499\ntree 15 1\n",
    },
];

fn expect_row(rt: &impl Abort, alloc: Global, row: &Row) -> Result<(), Fail> {
    let (reported, sink) = outcome(alloc, &[], row.input.as_bytes())?;
    assert_eq!(rt; sink.written(), row.output.as_bytes(), "for {}", row.input);
    same(rt, reported.status, 0);
    Ok(())
}

#[test]
fn rows_are_reported(rt: HostRuntime) -> Result<(), Fail> {
    for row in &ROWS {
        expect_row(&rt, rt.alloc(), row)?;
    }
    Ok(())
}

#[test]
fn what_is_handed_out_belongs_together(rt: HostRuntime) -> Result<(), Fail> {
    let (reported, _sink) = outcome(rt.alloc(), &[], b"malloc 24\nx\nfree 7\n".as_slice())?;
    let (Some(machine), Some(extents)) = (&reported.machine, &reported.extents) else {
        panic!(rt; "something is missing");
    };
    same(&rt, machine.system().free_frames(), 1004);
    let first = Extent {
        at: 0x40_0000,
        size: 32,
        kind: Kind::Used,
    };
    assert_eq!(rt; extents.get(0), Some(&first));
    same(&rt, extents.len(), 3);
    Ok(())
}

/// A command over an input of which one read, write or flush may fail, and its end. The writes and flushes are numbered
/// together.
struct Ending {
    words: &'static [&'static str],
    failing_read: Option<u64>,
    failing_write: Option<u64>,
    status: u8,
    written: usize,
}

const TEXT: &str =
    "live 24\npeak 24\nused 1 32\nfree 1 65424\ngreatest 65424\noverhead 80\npermille 0\n";

const ENDINGS: [Ending; 11] = [
    Ending {
        words: &["0x400000", "1024", "65536", "1024", "4095"],
        failing_read: None,
        failing_write: None,
        status: 0,
        written: TEXT.len(),
    },
    Ending {
        words: &["run"],
        failing_read: None,
        failing_write: None,
        status: 1,
        written: 0,
    },
    Ending {
        words: &["0x400000", "1024", "65536", "0x100000000", "4095"],
        failing_read: None,
        failing_write: None,
        status: 1,
        written: 0,
    },
    Ending {
        words: &["0", "1024", "65536", "1024", "4095"],
        failing_read: None,
        failing_write: None,
        status: 2,
        written: 0,
    },
    Ending {
        words: &["0x400000", "1024", "8", "1024", "4095"],
        failing_read: None,
        failing_write: None,
        status: 3,
        written: 0,
    },
    Ending {
        words: &["0x400000", "1024", "65536", "0", "4095"],
        failing_read: None,
        failing_write: None,
        status: 4,
        written: 0,
    },
    Ending {
        words: &[],
        failing_read: Some(0),
        failing_write: None,
        status: 6,
        written: 0,
    },
    Ending {
        words: &[],
        failing_read: Some(2),
        failing_write: None,
        status: 6,
        written: 0,
    },
    // After the flush that follows each of two pieces, and which writes nothing, the report is written in pieces of 7 bytes.
    Ending {
        words: &[],
        failing_read: None,
        failing_write: Some(2),
        status: 7,
        written: 0,
    },
    Ending {
        words: &[],
        failing_read: None,
        failing_write: Some(5),
        status: 7,
        written: 21,
    },
    // A call that never comes.
    Ending {
        words: &[],
        failing_read: None,
        failing_write: Some(99),
        status: 0,
        written: TEXT.len(),
    },
];

fn numbers(alloc: Global, number: Option<u64>) -> Result<Vec<u64>, AllocError> {
    let mut numbers = Vec::new(alloc);
    if let Some(number) = number {
        numbers.push(number)?;
    }
    Ok(numbers)
}

/// Looks how a command ends, and what is handed out and written then.
fn expect_ending(
    rt: &impl Abort,
    alloc: Global,
    ending: &Ending,
    written: &[u8],
) -> Result<(), Fail> {
    let input = b"malloc 24\n".to_vec(alloc)?;
    let mut source = MemorySource::new(input, 7, numbers(alloc, ending.failing_read)?);
    let mut sink = MemorySink::new(alloc, 7, numbers(alloc, ending.failing_write)?);
    let words = strings(alloc, ending.words)?;
    let reported = report_main(alloc, &words, &mut source, &mut sink);
    let ends_well = ending.status == 0;
    same(rt, reported.status, ending.status);
    same(rt, reported.machine.is_some(), ends_well);
    same(rt, reported.extents.is_some(), ends_well);
    same(rt, sink.written(), written);
    if ends_well {
        same(rt, sink.flushed(), TEXT.len());
    }
    Ok(())
}

#[test]
fn failing_reads_and_writes_end_the_run(rt: HostRuntime) -> Result<(), Fail> {
    for ending in &ENDINGS {
        let written = &TEXT.as_bytes()[..ending.written];
        expect_ending(&rt, rt.alloc(), ending, written)?;
    }
    Ok(())
}
