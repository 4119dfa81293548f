//! Both programs whole: their pages, their statuses and what they say of them.
use crate::checks::same;
use command_line::{Command, Pages, program};
use heap_picture::Picture;
use heap_program::{MemorySink, MemorySource};
use heap_report::Figures;
use std::alloc::{AllocError, Global};
use std::process::{Abort, ExitCode};
use std::test::Fail;

const PAGES: Pages = Pages {
    help: "help\n",
    version: "version\n",
    lines: None,
};

/// A call of either program: its words, and what comes of it.
struct Row {
    words: &'static [&'static str],
    status: u8,
    output: &'static str,
    errors: &'static str,
}

/// The first read fails, where there is one.
const ROWS: [Row; 11] = [
    Row {
        words: &[],
        status: 6,
        output: "",
        errors: "read fault\n",
    },
    Row {
        words: &["0x400000", "1024", "65536", "1024", "4095"],
        status: 6,
        output: "",
        errors: "read fault\n",
    },
    Row {
        words: &["--help"],
        status: 0,
        output: "help\n",
        errors: "",
    },
    Row {
        words: &["-h"],
        status: 0,
        output: "help\n",
        errors: "",
    },
    Row {
        words: &["--version"],
        status: 0,
        output: "version\n",
        errors: "",
    },
    // The lines have a page of `heap` alone.
    Row {
        words: &["--help", "lines"],
        status: 1,
        output: "",
        errors: "usage\n",
    },
    Row {
        words: &["run"],
        status: 1,
        output: "",
        errors: "usage\n",
    },
    Row {
        words: &["-h", "-h"],
        status: 1,
        output: "",
        errors: "usage\n",
    },
    Row {
        words: &["0x400001", "1024", "65536", "1024", "4095"],
        status: 2,
        output: "",
        errors: "bad window\n",
    },
    Row {
        words: &["0x400000", "1024", "65537", "1024", "4095"],
        status: 3,
        output: "",
        errors: "bad granularity\n",
    },
    Row {
        words: &["0x400000", "1024", "65536", "0", "4095"],
        status: 4,
        output: "",
        errors: "too few frames\n",
    },
];

/// Of `heap_picture` alone: the name of a drawing may stand before the words.
const PICTURE_ROWS: [Row; 8] = [
    Row {
        words: &["map"],
        status: 6,
        output: "",
        errors: "read fault\n",
    },
    Row {
        words: &["map", "0x400001", "1024", "65536", "1024", "4095"],
        status: 2,
        output: "",
        errors: "bad window\n",
    },
    Row {
        words: &["time"],
        status: 6,
        output: "",
        errors: "read fault\n",
    },
    Row {
        words: &["time", "0x400000", "1024", "65537", "1024", "4095"],
        status: 3,
        output: "",
        errors: "bad granularity\n",
    },
    Row {
        words: &["tables", "0x400000", "1024", "65536", "0", "4095"],
        status: 4,
        output: "",
        errors: "too few frames\n",
    },
    Row {
        words: &["map", "time"],
        status: 1,
        output: "",
        errors: "usage\n",
    },
    Row {
        words: &["map", "map"],
        status: 1,
        output: "",
        errors: "usage\n",
    },
    Row {
        words: &["mop"],
        status: 1,
        output: "",
        errors: "usage\n",
    },
];

/// The arguments: the program's name, and then the words.
fn arguments(alloc: Global, words: &[&str]) -> Result<Vec<String>, AllocError> {
    let mut all = Vec::new(alloc);
    all.push("name".to_string(alloc)?)?;
    for word in words {
        all.push(word.to_string(alloc)?)?;
    }
    Ok(all)
}

/// Looks that a program ends so.
fn expect_row<C: Command>(rt: &impl Abort, alloc: Global, row: &Row) -> Result<(), Fail> {
    let arguments = arguments(alloc, row.words)?;
    let input = b"malloc 24\n".to_vec(alloc)?;
    let mut source = MemorySource::new(input, 4096, vec![in alloc; 0; 1]?);
    let mut sink = MemorySink::new(alloc, 4096, Vec::new(alloc));
    let mut errors = MemorySink::new(alloc, 4096, Vec::new(alloc));
    let ended = program::<C, _, _, _>(
        alloc,
        &PAGES,
        Ok(arguments),
        &mut source,
        &mut sink,
        &mut errors,
    );
    same(rt, ended, ExitCode::from(row.status));
    same(rt, sink.written(), row.output.as_bytes());
    same(rt, errors.written(), row.errors.as_bytes());
    Ok(())
}

#[test]
fn words_have_their_statuses(rt: HostRuntime) -> Result<(), Fail> {
    for row in &ROWS {
        expect_row::<Figures>(&rt, rt.alloc(), row)?;
        expect_row::<Picture>(&rt, rt.alloc(), row)?;
    }
    Ok(())
}

#[test]
fn a_kind_stands_before_the_words(rt: HostRuntime) -> Result<(), Fail> {
    for row in &PICTURE_ROWS {
        expect_row::<Picture>(&rt, rt.alloc(), row)?;
    }
    Ok(())
}
