// The program over readers and writers of its own: its pages, its statuses and what it tells of them.
use crate::command::Heap;
use crate::{HELP, LINES, PAGES, VERSION};
use command_line::program;
use heap_program::{MemorySink, MemorySource, ReaderSource, WriterSink};
use std::alloc::{AllocError, Global};
use std::fmt::Debug;
use std::io::{self, Error, ErrorKind, Read, Write};
use std::process::{Abort, ExitCode};
use std::test::Fail;

/// A call of the program: its words, and what is to come of it.
struct Row {
    words: &'static [&'static str],
    status: u8,
    output: &'static str,
    errors: &'static str,
}

const END: &str = "frames 1023 tables 1\n";

const ROWS: [Row; 15] = [
    Row {
        words: &["run"],
        status: 0,
        output: END,
        errors: "",
    },
    Row {
        words: &[],
        status: 1,
        output: "",
        errors: "usage\n",
    },
    Row {
        words: &["--version"],
        status: 0,
        output: "heap 0.1.0\n",
        errors: "",
    },
    Row {
        words: &["--version", "run"],
        status: 1,
        output: "",
        errors: "usage\n",
    },
    Row {
        words: &["--help", "run"],
        status: 1,
        output: "",
        errors: "usage\n",
    },
    Row {
        words: &["--help", "lines", "run"],
        status: 1,
        output: "",
        errors: "usage\n",
    },
    Row {
        words: &["-h", "run"],
        status: 1,
        output: "",
        errors: "usage\n",
    },
    Row {
        words: &["-h", "-h"],
        status: 1,
        output: "",
        errors: "usage\n",
    },
    Row {
        words: &["-H"],
        status: 1,
        output: "",
        errors: "usage\n",
    },
    Row {
        words: &["lines"],
        status: 1,
        output: "",
        errors: "usage\n",
    },
    Row {
        words: &["--help", "Lines"],
        status: 1,
        output: "",
        errors: "usage\n",
    },
    Row {
        words: &["run", "0x400001", "1024", "65536", "1024", "4095"],
        status: 2,
        output: "",
        errors: "bad window\n",
    },
    Row {
        words: &["run", "0x400000", "1024", "65537", "1024", "4095"],
        status: 3,
        output: "",
        errors: "bad granularity\n",
    },
    Row {
        words: &["run", "0x400000", "1024", "65536", "0", "4095"],
        status: 4,
        output: "",
        errors: "too few frames\n",
    },
    Row {
        words: &["gen", "7", "1000001"],
        status: 1,
        output: "",
        errors: "usage\n",
    },
];

/// The arguments: the program's name, and then the words.
fn arguments(alloc: Global, words: &[&str]) -> Result<Vec<String>, AllocError> {
    let mut all = Vec::new(alloc);
    all.push("heap".to_string(alloc)?)?;
    for word in words {
        all.push(word.to_string(alloc)?)?;
    }
    Ok(all)
}

/// The program over an input in memory, with calls of the source, the sink and the sink for errors that fail.
#[derive(Drop)]
struct Call {
    source: MemorySource,
    sink: MemorySink,
    errors: MemorySink,
}

impl Call {
    fn new(alloc: Global, input: &str, reads: &[u64], writes: &[u64]) -> Result<Call, AllocError> {
        Ok(Call {
            source: MemorySource::new(input.as_bytes().to_vec(alloc)?, 4096, reads.to_vec(alloc)?),
            sink: MemorySink::new(alloc, 4096, writes.to_vec(alloc)?),
            errors: MemorySink::new(alloc, 4096, Vec::new(alloc)),
        })
    }

    fn run(&mut self, alloc: Global, arguments: io::Result<Vec<String>>) -> ExitCode {
        program::<Heap, _, _, _>(
            alloc,
            &PAGES,
            arguments,
            &mut self.source,
            &mut self.sink,
            &mut self.errors,
        )
    }
}

/// Ends the test, and shows both values and the words, if they differ. A test with an `assert_eq!` for each comparison
/// takes several times as long to be proved.
fn same<T: PartialEq + Debug + Drop>(rt: &impl Abort, found: T, wanted: T, words: &[&str]) {
    assert_eq!(rt; found, wanted, "{:?}", words);
}

/// Sees that the program ends so over no input.
fn expect_row(rt: &impl Abort, alloc: Global, row: &Row) -> Result<(), Fail> {
    let arguments = arguments(alloc, row.words)?;
    let mut call = Call::new(alloc, "", &[], &[])?;
    let status = call.run(alloc, Ok(arguments));
    same(rt, status, ExitCode::from(row.status), row.words);
    same(rt, call.sink.written(), row.output.as_bytes(), row.words);
    same(rt, call.errors.written(), row.errors.as_bytes(), row.words);
    Ok(())
}

#[test]
fn words_have_their_statuses(rt: HostRuntime) -> Result<(), Fail> {
    for row in &ROWS {
        expect_row(&rt, rt.alloc(), row)?;
    }
    Ok(())
}

/// Sees that these words show a page, and that no input is read.
fn expect_page(rt: &impl Abort, alloc: Global, words: &[&str], text: &str) -> Result<(), Fail> {
    let arguments = arguments(alloc, words)?;
    let mut call = Call::new(alloc, "malloc 24\n", &[0], &[])?;
    let status = call.run(alloc, Ok(arguments));
    same(rt, status, ExitCode::from(0), words);
    same(rt, call.sink.written(), text.as_bytes(), words);
    same(rt, call.sink.flushed(), call.sink.written().len(), words);
    same(rt, call.errors.written(), b"".as_slice(), words);
    Ok(())
}

#[test]
fn pages_are_shown(rt: HostRuntime) -> Result<(), Fail> {
    for (words, text) in [
        (["--help"].as_slice(), HELP),
        (["-h"].as_slice(), HELP),
        (["--help", "lines"].as_slice(), LINES),
        (["-h", "lines"].as_slice(), LINES),
        (["--version"].as_slice(), VERSION),
    ] {
        expect_page(&rt, rt.alloc(), words, text)?;
    }
    Ok(())
}

/// A call of the program of which some reads and some writes fail, and what is to come of it.
struct FaultRow {
    words: &'static [&'static str],
    reads: &'static [u64],
    writes: &'static [u64],
    status: u8,
    errors: &'static str,
}

const FAULTS: [FaultRow; 4] = [
    FaultRow {
        words: &["run"],
        reads: &[0],
        writes: &[],
        status: 6,
        errors: "read fault\n",
    },
    FaultRow {
        words: &["run"],
        reads: &[],
        writes: &[0],
        status: 7,
        errors: "write fault\n",
    },
    FaultRow {
        words: &["--help"],
        reads: &[],
        writes: &[0],
        status: 7,
        errors: "write fault\n",
    },
    FaultRow {
        words: &["--help"],
        reads: &[],
        writes: &[1],
        status: 7,
        errors: "write fault\n",
    },
];

/// Sees that the program ends so if reads or writes fail.
fn expect_fault(rt: &impl Abort, alloc: Global, row: &FaultRow) -> Result<(), Fail> {
    let arguments = arguments(alloc, row.words)?;
    let mut call = Call::new(alloc, "malloc 24\n", row.reads, row.writes)?;
    let status = call.run(alloc, Ok(arguments));
    same(rt, status, ExitCode::from(row.status), row.words);
    same(rt, call.errors.written(), row.errors.as_bytes(), row.words);
    Ok(())
}

#[test]
fn faults_have_their_statuses(rt: HostRuntime) -> Result<(), Fail> {
    for row in &FAULTS {
        expect_fault(&rt, rt.alloc(), row)?;
    }
    Ok(())
}

/// Sees that the program ends so if its arguments cannot be read.
fn expect_unread(
    rt: &impl Abort,
    alloc: Global,
    kind: ErrorKind,
    status: u8,
    errors: &str,
) -> Result<(), Fail> {
    // A read or a write would fail, and give another status.
    let mut call = Call::new(alloc, "malloc 24\n", &[0], &[0])?;
    let ended = call.run(alloc, Err(Error::from(kind)));
    same(rt, ended, ExitCode::from(status), &[]);
    same(rt, call.sink.written(), b"".as_slice(), &[]);
    same(rt, call.errors.written(), errors.as_bytes(), &[]);
    Ok(())
}

#[test]
fn unread_arguments_have_their_statuses(rt: HostRuntime) -> Result<(), Fail> {
    for (kind, status, errors) in [
        (ErrorKind::OutOfMemory, 5, "out of memory\n"),
        (ErrorKind::InvalidData, 1, "usage\n"),
    ] {
        expect_unread(&rt, rt.alloc(), kind, status, errors)?;
    }
    Ok(())
}

/// A text that cannot be told changes no status.
#[test]
fn untold_statuses_stay(rt: HostRuntime) -> Result<(), Fail> {
    let arguments = arguments(rt.alloc(), &[])?;
    let failing = [0].to_vec(rt.alloc())?;
    let mut call = Call::new(rt.alloc(), "", &[], &[])?;
    call.errors = MemorySink::new(rt.alloc(), 4096, failing);
    let status = call.run(rt.alloc(), Ok(arguments));
    same(&rt, status, ExitCode::from(1), &[]);
    Ok(())
}

/// Bytes, before each of which a signal interrupts the reader.
#[derive(Drop)]
struct InterruptedReader {
    bytes: &'static [u8],
    interrupts: bool,
}

impl Read for InterruptedReader {
    fn read(&mut self, buf: &mut [u8]) -> io::Result<usize> {
        self.interrupts = !self.interrupts;
        if self.interrupts {
            return Err(Error::from(ErrorKind::Interrupted));
        }
        match (self.bytes.split_first(), buf.first_mut()) {
            (Some((byte, rest)), Some(place)) => {
                *place = *byte;
                self.bytes = rest;
                Ok(1)
            }
            _ => Ok(0),
        }
    }
}

/// Bytes, before each write and each flush of which a signal interrupts the writer.
#[derive(Drop)]
struct InterruptedWriter {
    bytes: Vec<u8>,
    interrupts: bool,
}

impl Write for InterruptedWriter {
    fn write(&mut self, buf: &[u8]) -> io::Result<usize> {
        self.interrupts = !self.interrupts;
        if self.interrupts {
            return Err(Error::from(ErrorKind::Interrupted));
        }
        self.bytes.extend_from_slice(buf)?;
        Ok(buf.len())
    }

    fn flush(&mut self) -> io::Result<()> {
        self.interrupts = !self.interrupts;
        if self.interrupts {
            return Err(Error::from(ErrorKind::Interrupted));
        }
        Ok(())
    }
}

#[test]
fn interrupted_calls_are_tried_again(rt: HostRuntime) -> Result<(), Fail> {
    let words = ["run"];
    let arguments = arguments(rt.alloc(), &words)?;
    let mut writer = InterruptedWriter {
        bytes: Vec::new(rt.alloc()),
        interrupts: false,
    };
    let mut source = ReaderSource::new(InterruptedReader {
        bytes: b"malloc 24\n",
        interrupts: false,
    });
    let mut sink = WriterSink::new(&mut writer);
    let mut errors = MemorySink::new(rt.alloc(), 4096, Vec::new(rt.alloc()));
    let status = program::<Heap, _, _, _>(
        rt.alloc(),
        &PAGES,
        Ok(arguments),
        &mut source,
        &mut sink,
        &mut errors,
    );
    same(&rt, status, ExitCode::from(0), &words);
    same(&rt, errors.written(), b"".as_slice(), &words);
    same(
        &rt,
        writer.bytes.as_slice(),
        b"block 0 0x400010\nheap 0x400000+16\nregion 0x400000+16 heap\nframes 1004 tables 4\n".as_slice(),
        &words,
    );
    Ok(())
}
