// The words of the program: configurations, and commands that are refused.
use crate::checks::{expect_row, same};
use crate::runs::{Row, outcome, strings};
use heap_program::{MemorySink, MemorySource, SureSink, heap_main, status_text};
use std::alloc::Global;
use std::process::Abort;
use std::test::Fail;

/// What a command prints for an input. Each run ends with status 0.
pub(crate) struct Command {
    pub(crate) words: &'static [&'static str],
    pub(crate) row: Row,
}

const COMMANDS: [Command; 12] = [
    // A region of the user behind the first grant: the next grant goes behind it.
    Command {
        words: &["run", "0x400000", "64", "65536", "1024", "4095"],
        row: Row {
            input: "malloc 100\nmap 0x410000 1 rw--\nmalloc 70000\nfree 0\n",
            output: "block 0 0x400010\nheap 0x400000+16\ndone\nblock 1 0x411010\nheap 0x400000+16 0x411000+32\ndone\nregion 0x400000+16 heap\nregion 0x410000+1 user rw--\nregion 0x411000+32 heap\nframes 971 tables 4\n",
        },
    },
    // Once it is unmapped, a grant goes before the segment that stands behind it.
    Command {
        words: &["run", "0x400000", "1024", "4096", "1024", "4095"],
        row: Row {
            input: "malloc 100\nmap 0x401000 1 rw--\nmalloc 5000\nunmap 0x401000 1\nmalloc 3912\nextents\n",
            output: "block 0 0x400010\nheap 0x400000+1\ndone\nblock 1 0x402010\nheap 0x400000+1 0x402000+2\ndone\nblock 2 0x401010\nheap 0x400000+1 0x401000+1 0x402000+2\nextents used:0x400000+112 free:0x400070+3904 record:0x400fb0+80 used:0x401000+3920 free:0x401f50+176 used:0x402000+5008 top:0x403390+3104 foot:0x403fb0+80\nregion 0x400000+1 heap\nregion 0x401000+1 heap\nregion 0x402000+2 heap\nframes 1016 tables 4\n",
        },
    },
    // The greatest block of a window that holds one grant, and one byte more.
    Command {
        words: &["run", "0x400000", "16", "65536", "1024", "4095"],
        row: Row {
            input: "malloc 65432\nextents\n",
            output: "block 0 0x400010\nheap 0x400000+16\nextents used:0x400000+65440 top:0x40ffa0+16 foot:0x40ffb0+80\nregion 0x400000+16 heap\nframes 1004 tables 4\n",
        },
    },
    Command {
        words: &["run", "0x400000", "16", "65536", "1024", "4095"],
        row: Row {
            input: "malloc 65433\n",
            output: "refused no-space\nframes 1023 tables 1\n",
        },
    },
    // As many frames as one grant takes, and one frame less.
    Command {
        words: &["run", "0x400000", "1024", "65536", "20", "4095"],
        row: Row {
            input: "malloc 1\n",
            output: "block 0 0x400010\nheap 0x400000+16\nregion 0x400000+16 heap\nframes 0 tables 4\n",
        },
    },
    Command {
        words: &["run", "0x400000", "1024", "65536", "19", "4095"],
        row: Row {
            input: "malloc 1\n",
            output: "refused no-frames\nframes 18 tables 1\n",
        },
    },
    // A block of twelve mebibytes behind a free chunk.
    Command {
        words: &["run", "0x400000", "4096", "65536", "8192", "4095"],
        row: Row {
            input: "malloc 256\nmalloc 256\nfree 0\nmalloc 12582905\n",
            output: "block 0 0x400010\nheap 0x400000+16\nblock 1 0x400120\ndone\nblock 2 0x400230\nheap 0x400000+16 0x410000+3088\nlarge 0x600000 0x800000 0xa00000 0xc00000 0xe00000\nregion 0x400000+16 heap\nregion 0x410000+3088 heap\nframes 5083 tables 5\n",
        },
    },
    // The default configuration in other digits, and with a rate of 0.
    Command {
        words: &["run", "04194304", "0x400", "0x10000", "01024", "0"],
        row: Row {
            input: "malloc 0\nmalloc 24\nmalloc 25\n",
            output: "block 0 0x400010\nheap 0x400000+16\nblock 1 0x400030\nblock 2 0x400050\nregion 0x400000+16 heap\nframes 1004 tables 4\n",
        },
    },
    // The least granularity: a grant is one page.
    Command {
        words: &["run", "0x400000", "1024", "16", "1024", "4095"],
        row: Row {
            input: "malloc 1\n",
            output: "block 0 0x400010\nheap 0x400000+1\nregion 0x400000+1 heap\nframes 1019 tables 4\n",
        },
    },
    // The greatest granularity, at which the greatest alignment is too large.
    Command {
        words: &[
            "run",
            "0x400000",
            "1024",
            "0x8000000000000000",
            "1024",
            "4095",
        ],
        row: Row {
            input: "malloc 1 0x8000000000000000\n",
            output: "refused too-large\nframes 1023 tables 1\n",
        },
    },
    // The second page of the address space, and the last but one.
    Command {
        words: &["run", "0x1000", "1", "16", "1024", "4095"],
        row: Row {
            input: "malloc 1\n",
            output: "block 0 0x1010\nheap 0x1000+1\nregion 0x1000+1 heap\nframes 1019 tables 4\n",
        },
    },
    Command {
        words: &["run", "0xFFFFFFFFFFFFE000", "1", "16", "1024", "4095"],
        row: Row {
            input: "malloc 1\n",
            output: "block 0 0xffffffffffffe010\nheap 0xffffffffffffe000+1\nregion 0xffffffffffffe000+1 heap\nframes 1019 tables 4\n",
        },
    },
];

#[test]
fn commands_have_configurations(rt: HostRuntime) -> Result<(), Fail> {
    for command in &COMMANDS {
        expect_row(&rt, rt.alloc(), command.words, &command.row)?;
    }
    Ok(())
}

/// Words that end before anything is read or written, and their status.
const REFUSED: [(&'static [&'static str], u8); 29] = [
    (&[], 1),
    (&["Run"], 1),
    (&["run", "run"], 1),
    (&["--help"], 1),
    (&["-h"], 1),
    (&["run 1"], 1),
    (&["run", ""], 1),
    (&["", "run"], 1),
    // One number too few, and one too many.
    (&["run", "0x400000", "1024", "65536", "1024"], 1),
    (
        &["run", "0x400000", "1024", "65536", "1024", "4095", "0"],
        1,
    ),
    // A word that is no number, and 2^64.
    (&["run", "0x400000", "1024", "65536", "1024", "-1"], 1),
    (
        &[
            "run",
            "18446744073709551616",
            "1024",
            "65536",
            "1024",
            "4095",
        ],
        1,
    ),
    // 2^32 frames.
    (
        &["run", "0x400000", "1024", "65536", "4294967296", "4095"],
        1,
    ),
    (&["run", "0", "1", "65536", "1", "0"], 2),
    (&["run", "0x7ffffffff000", "2", "65536", "1", "0"], 2),
    (&["run", "0xfffffffffffff000", "1", "65536", "1", "0"], 2),
    (&["run", "0x400000", "0", "65536", "1", "0"], 2),
    (&["run", "0x400001", "1", "65536", "1", "0"], 2),
    (&["run", "0x400000", "1", "8", "1", "0"], 3),
    (&["run", "0x400000", "1", "16", "0", "0"], 4),
    // Each cause comes before the later ones.
    (&["run", "0", "1", "8", "0x100000000", "0"], 1),
    (&["run", "0", "1", "8", "0", "0"], 2),
    (&["run", "0x400000", "1", "3072", "0", "0"], 3),
    // A drawing without a count, of one call too many, and of configurations that are refused.
    (&["gen", "1"], 1),
    (&["gen", "1", "1000001"], 1),
    (&["gen", "1", "1", "0x400000", "1024"], 1),
    (&["gen", "1", "1", "0", "1", "65536", "1", "0"], 2),
    (&["gen", "1", "1", "0x400000", "1", "8", "1", "0"], 3),
    (&["gen", "1", "1", "0x400000", "1", "16", "0", "0"], 4),
];

/// Looks that the words end with a status, over a source and a sink whose first calls fail, and that nothing comes of them.
fn expect_refusal(rt: &impl Abort, alloc: Global, words: &[&str], status: u8) -> Result<(), Fail> {
    let words = strings(alloc, words)?;
    let input = b"malloc 24\n".to_vec(alloc)?;
    let mut source = MemorySource::new(input, 4096, vec![in alloc; 0; 1]?);
    let mut sink = MemorySink::new(alloc, 4096, vec![in alloc; 0; 1]?);
    let ended = heap_main(alloc, &words, &mut source, &mut sink);
    same(rt, ended.status, status);
    assert!(rt; ended.machine.is_none());
    assert!(rt; sink.written().is_empty());
    Ok(())
}

#[test]
fn refused_words_touch_nothing(rt: HostRuntime) -> Result<(), Fail> {
    for (words, status) in REFUSED {
        expect_refusal(&rt, rt.alloc(), words, status)?;
    }
    Ok(())
}

#[test]
fn statuses_have_texts(rt: HostRuntime) -> Result<(), Fail> {
    let texts = [
        "ok",
        "usage",
        "bad window",
        "bad granularity",
        "too few frames",
    ];
    for status in 0..5 {
        assert_eq!(rt; status_text(status as u8), texts[status]);
    }
    Ok(())
}

/// What `gen` prints where the source fails at its first read, which never comes.
const DRAWN: [(&'static [&'static str], &'static str); 3] = [
    (
        &["gen", "1", "1"],
        "calls 1 blocks 1 refused 0\nregion 0x400000+16 heap\nframes 1004 tables 4\n",
    ),
    // A seed of 0 counts as 1.
    (
        &["gen", "0", "1"],
        "calls 1 blocks 1 refused 0\nregion 0x400000+16 heap\nframes 1004 tables 4\n",
    ),
    (
        &["gen", "7", "0", "0x400000", "16", "65536", "8", "0"],
        "calls 0 blocks 0 refused 0\nframes 7 tables 1\n",
    ),
];

/// Looks that the words print this, over a source whose first read fails.
fn expect_drawing(
    rt: &impl Abort,
    alloc: Global,
    words: &[&str],
    output: &str,
) -> Result<(), Fail> {
    let mut source = MemorySource::new(Vec::new(alloc), 4096, vec![in alloc; 0; 1]?);
    let mut sink = SureSink::new(alloc);
    let ended = heap_main(alloc, &strings(alloc, words)?, &mut source, &mut sink);
    same(rt, ended.status, 0);
    same(rt, sink.written(), output.as_bytes());
    Ok(())
}

#[test]
fn drawings_are_printed(rt: HostRuntime) -> Result<(), Fail> {
    for (words, output) in DRAWN {
        expect_drawing(&rt, rt.alloc(), words, output)?;
    }
    Ok(())
}

#[test]
fn the_same_seed_draws_the_same(rt: HostRuntime) -> Result<(), Fail> {
    let (first, sink) = outcome(rt.alloc(), &["gen", "7", "10000"], b"")?;
    let (second, other) = outcome(rt.alloc(), &["gen", "7", "10000"], b"")?;
    same(&rt, (first.status, second.status), (0, 0));
    same(&rt, sink.written(), other.written());
    assert!(rt;
        sink.written()
            .starts_with(b"calls 10000 blocks ".as_slice())
    );
    Ok(())
}
