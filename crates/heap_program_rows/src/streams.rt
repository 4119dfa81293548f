// Sources and sinks: pieces, flushes, and calls that fail.
ghost use Rattle.std.specs.Prelude.{◌<◌};

use crate::checks::same;
use crate::runs::{Row, strings};
use crate::tests::ROWS;
use heap_program::{
    Failed, MemorySink, MemorySource, ReaderSource, SinkFault, WriterSink, heap_main,
};
use std::alloc::{AllocError, Global};
use std::io;
use std::io::Write;
use std::process::Abort;
use std::test::Fail;

#[test]
fn readers_and_writers_are_served(rt: HostRuntime) -> Result<(), Fail> {
    let words = strings(rt.alloc(), &["run"])?;
    let mut source = ReaderSource::new(b"malloc 24\n".as_slice());
    let mut written = Vec::new(rt.alloc());
    let mut sink = WriterSink::new(&mut written);
    let ended = heap_main(rt.alloc(), &words, &mut source, &mut sink);
    same(&rt, ended.status, 0);
    same(
        &rt,
        written.as_slice(),
        b"block 0 0x400010\nheap 0x400000+16\nregion 0x400000+16 heap\nframes 1004 tables 4\n".as_slice(),
    );
    Ok(())
}

/// A writer that marks each flush in what it holds.
#[derive(Drop)]
struct Transcript {
    bytes: Vec<u8>,
}

impl Write for Transcript {
    fn write(&mut self, buf: &[u8]) -> io::Result<usize> {
        self.bytes.extend_from_slice(buf)?;
        Ok(buf.len())
    }

    fn flush(&mut self) -> io::Result<()> {
        self.bytes.push(b'|')?;
        Ok(())
    }
}

#[test]
fn each_piece_is_flushed(rt: HostRuntime) -> Result<(), Fail> {
    let words = strings(rt.alloc(), &["run"])?;
    let mut source = ReaderSource::new(b"malloc 24\n".as_slice());
    let mut transcript = Transcript {
        bytes: Vec::new(rt.alloc()),
    };
    let mut sink = WriterSink::new(&mut transcript);
    let ended = heap_main(rt.alloc(), &words, &mut source, &mut sink);
    same(&rt, ended.status, 0);
    same(
        &rt,
        transcript.bytes.as_slice(),
        b"block 0 0x400010\nheap 0x400000+16\n|region 0x400000+16 heap\nframes 1004 tables 4\n|".as_slice(),
    );
    Ok(())
}

/// Looks for the row's output where the source and the sink take pieces of `piece` bytes.
fn expect_in_pieces(rt: &impl Abort, alloc: Global, row: &Row, piece: u64) -> Result<(), Fail>
    requires { 0 < piece }
{
    let words = strings(alloc, &["run"])?;
    let input = row.input.as_bytes().to_vec(alloc)?;
    let mut source = MemorySource::new(input, piece, Vec::new(alloc));
    let mut sink = MemorySink::new(alloc, piece, Vec::new(alloc));
    let ended = heap_main(alloc, &words, &mut source, &mut sink);
    assert_eq!(rt; ended.status, 0, "in pieces of {}", piece);
    assert_eq!(rt;
        sink.written(),
        row.output.as_bytes(),
        "in pieces of {}",
        piece
    );
    Ok(())
}

#[test]
fn pieces_of_the_input_make_no_difference(rt: HostRuntime) -> Result<(), Fail> {
    for piece in [1, 2, 3, 7, 4096] {
        expect_in_pieces(&rt, rt.alloc(), &ROWS[10], piece)?;
    }
    Ok(())
}

/// A run of which one call of the source or of the sink fails. Reads are numbered from 0, and so are writes
/// and flushes together.
struct Fault {
    failing_read: Option<u64>,
    failing_write: Option<u64>,
    status: u8,
    output: &'static str,
}

const FAULTS: [Fault; 6] = [
    Fault {
        failing_read: Some(0),
        failing_write: None,
        status: 6,
        output: "",
    },
    Fault {
        failing_read: Some(1),
        failing_write: None,
        status: 6,
        output: "block 0 0x400010\nheap 0x400000+16\nblock 1 0x400030\nblock 2 0x400050\n",
    },
    Fault {
        failing_read: None,
        failing_write: Some(0),
        status: 7,
        output: "",
    },
    // A flush that fails.
    Fault {
        failing_read: None,
        failing_write: Some(1),
        status: 7,
        output: "block 0 0x400010\nheap 0x400000+16\nblock 1 0x400030\nblock 2 0x400050\n",
    },
    Fault {
        failing_read: None,
        failing_write: Some(2),
        status: 7,
        output: "block 0 0x400010\nheap 0x400000+16\nblock 1 0x400030\nblock 2 0x400050\n",
    },
    // Calls that never come.
    Fault {
        failing_read: Some(2),
        failing_write: Some(4),
        status: 0,
        output: "block 0 0x400010\nheap 0x400000+16\nblock 1 0x400030\nblock 2 0x400050\nregion 0x400000+16 heap\nframes 1004 tables 4\n",
    },
];

fn numbers(alloc: Global, number: Option<u64>) -> Result<Vec<u64>, AllocError> {
    let mut numbers = Vec::new(alloc);
    if let Some(number) = number {
        numbers.push(number)?;
    }
    Ok(numbers)
}

/// Looks how a run ends of which one call fails.
fn expect_end(rt: &impl Abort, alloc: Global, fault: &Fault) -> Result<(), Fail> {
    let words = strings(alloc, &["run"])?;
    let input = ROWS[1].input.as_bytes().to_vec(alloc)?;
    let mut source = MemorySource::new(input, 4096, numbers(alloc, fault.failing_read)?);
    let mut sink = MemorySink::new(alloc, 4096, numbers(alloc, fault.failing_write)?);
    let ended = heap_main(alloc, &words, &mut source, &mut sink);
    same(rt, ended.status, fault.status);
    same(rt, ended.machine.is_some(), fault.status == 0);
    same(rt, sink.written(), fault.output.as_bytes());
    Ok(())
}

#[test]
fn failing_reads_and_writes_end_the_run(rt: HostRuntime) -> Result<(), Fail> {
    for fault in &FAULTS {
        expect_end(&rt, rt.alloc(), fault)?;
    }
    Ok(())
}

#[test]
fn answers_are_flushed_before_the_next_read(rt: HostRuntime) -> Result<(), Fail> {
    let words = strings(rt.alloc(), &["run"])?;
    // Two pieces of one line each, and a read that fails.
    let input = b"malloc 24\nmalloc 25\n".to_vec(rt.alloc())?;
    let mut source = MemorySource::new(input, 10, numbers(rt.alloc(), Some(2))?);
    let mut sink = MemorySink::new(rt.alloc(), 4096, Vec::new(rt.alloc()));
    let ended = heap_main(rt.alloc(), &words, &mut source, &mut sink);
    same(&rt, ended.status, 6);
    same(
        &rt,
        sink.written(),
        b"block 0 0x400010\nheap 0x400000+16\nblock 1 0x400030\n".as_slice(),
    );
    same(&rt, sink.flushed(), sink.written().len());
    Ok(())
}

#[test]
fn faults_have_texts(rt: HostRuntime) -> Result<(), Fail> {
    let text = Failed.to_string(rt.alloc())?;
    same(&rt, text.as_str(), "the source failed");
    let text = SinkFault::Failed.to_string(rt.alloc())?;
    same(&rt, text.as_str(), "the sink failed");
    let text = SinkFault::OutOfMemory.to_string(rt.alloc())?;
    same(&rt, text.as_str(), "out of memory");
    Ok(())
}
