//! Memory that goes back, the settings of the heap, and a heap that begins anew.
use crate::checks::expect_row;
use crate::commands::Command;
use crate::runs::Row;
use std::test::Fail;

/// Pages are granted one by one.
const BY_PAGES: &[&str] = &["run", "0x400000", "1024", "4096", "1024", "4095"];

const RUNS: [Command; 14] = [
    // Whole pages of the top go back.
    Command {
        words: BY_PAGES,
        row: Row {
            input: "malloc 20000\nfree 0\ntrim 0\n",
            output: "block 0 0x400010\nheap 0x400000+5\ndone\ntrimmed true\nheap 0x400000+1\nregion 0x400000+1 heap\nframes 1019 tables 4\n",
        },
    },
    // A cut off a page is no cut.
    Command {
        words: &["run", "0x400000", "1024", "16", "1024", "4095"],
        row: Row {
            input: "malloc 1\ntrim 0\n",
            output: "block 0 0x400010\nheap 0x400000+1\ntrimmed false\nregion 0x400000+1 heap\nframes 1019 tables 4\n",
        },
    },
    // A segment that no block is in goes back whole, and the page of the user behind it stays.
    Command {
        words: &["run", "0x400000", "64", "65536", "1024", "4095"],
        row: Row {
            input: "malloc 100\nmap 0x410000 1 rw--\nmalloc 70000\nfree 0\ntrim 0\n",
            output: "block 0 0x400010\nheap 0x400000+16\ndone\nblock 1 0x411010\nheap 0x400000+16 0x411000+32\ndone\ntrimmed true\nheap 0x411000+32\nregion 0x410000+1 user rw--\nregion 0x411000+32 heap\nframes 987 tables 4\n",
        },
    },
    // A region that is cut whole leaves; the bytes of a block stay, and the next request has its pages anew.
    Command {
        words: BY_PAGES,
        row: Row {
            input: "malloc 8\nwrite 0 0 4142\nmalloc 20000\nfree 1\ntrim 0\nread 0 0 2\nmalloc 4000\n",
            output: "block 0 0x400010\nheap 0x400000+1\ndone\nblock 1 0x400030\nheap 0x400000+1 0x401000+5\ndone\ntrimmed true\nheap 0x400000+1\nbytes 4142\nblock 2 0x400030\nheap 0x400000+1 0x401000+2\nregion 0x400000+1 heap\nregion 0x401000+2 heap\nframes 1017 tables 4\n",
        },
    },
    // The pad keeps pages, and one that no heap could serve is none.
    Command {
        words: BY_PAGES,
        row: Row {
            input: "malloc 20000\nfree 0\ntrim 18446744073709551615\ntrim 8192\ntrim 8192\n",
            output: "block 0 0x400010\nheap 0x400000+5\ndone\ntrimmed false\ntrimmed true\nheap 0x400000+3\ntrimmed false\nregion 0x400000+3 heap\nframes 1017 tables 4\n",
        },
    },
    // A free trims a top above the trim check.
    Command {
        words: &["run"],
        row: Row {
            input: "malloc 3000000\nfree 0\n",
            output: "block 0 0x400010\nheap 0x400000+736\nlarge 0x400000\ndone\nheap 0x400000+16\nregion 0x400000+16 heap\nframes 1003 tables 5\n",
        },
    },
    // A rate holds from the next large free on: at 1 that makes a release pass.
    Command {
        words: &["run", "0x400000", "64", "65536", "1024", "4095"],
        row: Row {
            input: "malloc 100\nmap 0x410000 1 rw--\nmalloc 70000\nrate 1\nfree 0\n",
            output: "block 0 0x400010\nheap 0x400000+16\ndone\nblock 1 0x411010\nheap 0x400000+16 0x411000+32\ndone\ndone\nheap 0x411000+32\nregion 0x410000+1 user rw--\nregion 0x411000+32 heap\nframes 987 tables 4\n",
        },
    },
    // A new heap has nothing to give back.
    Command {
        words: &["run"],
        row: Row {
            input: "trim 0\nreset\nreset\n",
            output: "trimmed false\nreleased 0\nreleased 0\nframes 1023 tables 1\n",
        },
    },
    // A rate, a granularity that is none, and a heap that begins anew: numbers go on, and old ones are unknown.
    Command {
        words: &["run"],
        row: Row {
            input: "rate 0\ngranularity 3072\nmalloc 10\nreset\nmalloc 10\nfree 0\n",
            output: "done\naccepted false\nblock 0 0x400010\nheap 0x400000+16\nreleased 65536\nheap none\nblock 1 0x400010\nheap 0x400000+16\nrefused unknown-block\nregion 0x400000+16 heap\nframes 1004 tables 4\n",
        },
    },
    // Another granularity holds from the next grant on, and over a reset.
    Command {
        words: &["run"],
        row: Row {
            input: "malloc 10\ngranularity 4096\nmalloc 65420\nreset\nmalloc 10\n",
            output: "block 0 0x400010\nheap 0x400000+16\naccepted true\nblock 1 0x400030\nheap 0x400000+16 0x410000+16\nreleased 131072\nheap none\nblock 2 0x400010\nheap 0x400000+1\nregion 0x400000+1 heap\nframes 1019 tables 4\n",
        },
    },
    // The least granularity, and numbers that are none.
    Command {
        words: &["run"],
        row: Row {
            input: "granularity 16\ngranularity 8\ngranularity 0\ngranularity 24\ngranularity 0x8000000000000000\nmalloc 1\n",
            output: "accepted true\naccepted false\naccepted false\naccepted false\naccepted true\nrefused no-space\nframes 1023 tables 1\n",
        },
    },
    // A page of the user stays over a reset, and so do its bytes.
    Command {
        words: &["run"],
        row: Row {
            input: "map 0x1000 1 rw--\nmalloc 8\nreset\nprobe 0x1000 read\nprobe 0x400010 read\n",
            output: "done\nblock 0 0x400010\nheap 0x400000+16\nreleased 65536\nheap none\nbyte 00\nfault 0x0\nregion 0x1000+1 user rw--\nframes 1018 tables 5\n",
        },
    },
    // All segments go back, those in use too.
    Command {
        words: &["run", "0x400000", "64", "65536", "1024", "4095"],
        row: Row {
            input: "malloc 100\nmap 0x410000 1 rw--\nmalloc 70000\nreset\nextents\nread 1 0 1\n",
            output: "block 0 0x400010\nheap 0x400000+16\ndone\nblock 1 0x411010\nheap 0x400000+16 0x411000+32\nreleased 196608\nheap none\nextents\nrefused unknown-block\nregion 0x410000+1 user rw--\nframes 1019 tables 4\n",
        },
    },
    // Words that are missing, are more, or are no numbers.
    Command {
        words: &["run"],
        row: Row {
            input: "trim\ntrim x\ntrim 0 0\nrate\nrate 1 2\nrate -1\ngranularity\ngranularity 16 16\ngranularity 16b\nreset 0\nRESET\nset_rate 1\nset_granularity 16\n",
            output: "bad line\nbad line\nbad line\nbad line\nbad line\nbad line\nbad line\nbad line\nbad line\nbad line\nbad line\nbad line\nbad line\nframes 1023 tables 1\n",
        },
    },
];

#[test]
fn memory_goes_back_and_settings_hold(rt: HostRuntime) -> Result<(), Fail> {
    for run in &RUNS {
        expect_row(&rt, rt.alloc(), run.words, &run.row)?;
    }
    Ok(())
}
