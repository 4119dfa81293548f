//! Requests that the heap serves though the system could not, those that it refuses for want of room, and what refusals leave.
use crate::checks::expect_row;
use crate::commands::Command;
use crate::runs::Row;
use std::test::Fail;

/// A window of 24 pages, which are granted one by one.
const SMALL_WINDOW: &[&str] = &["run", "0x400000", "24", "4096", "1024", "4095"];

const RUNS: [Command; 4] = [
    // The top serves a request that the granularity in force would not let the window grant.
    Command {
        words: SMALL_WINDOW,
        row: Row {
            input: "malloc 98104\nfree 0\ngranularity 131072\nmalloc 98104\n",
            output: "block 0 0x400010\nheap 0x400000+24\ndone\naccepted true\nblock 1 0x400010\nregion 0x400000+24 heap\nframes 996 tables 4\n",
        },
    },
    // So a block grows where it stands, until the top has no more.
    Command {
        words: SMALL_WINDOW,
        row: Row {
            input: "malloc 90000\nfree 0\nmalloc 24\ngranularity 131072\nrealloc 1 80000\nc_realloc 1 90000\nrealloc 1 90009\nc_realloc 1 90009\n",
            output: "block 0 0x400010\nheap 0x400000+22\ndone\nblock 1 0x400010\naccepted true\nblock 1 0x400010\nblock 1 0x400010\nrefused no-space\nrefused no-space\nregion 0x400000+22 heap\nframes 998 tables 4\n",
        },
    },
    // No frame is free, and a block that leaves 16 bytes of the top is served still.
    Command {
        words: &["run", "0x400000", "64", "4096", "28", "4095"],
        row: Row {
            input: "malloc 98104\nmalloc 200\ncalloc 100\ncalloc 80\n",
            output: "block 0 0x400010\nheap 0x400000+24\nrefused no-frames\nrefused no-frames\nblock 1 0x417f50\nregion 0x400000+24 heap\nframes 0 tables 4\n",
        },
    },
    // Calls that are refused, a setting that is not accepted and a fault leave all bytes and regions.
    Command {
        words: &["run"],
        row: Row {
            input: "malloc 24\nwrite 0 0 4142\nwrite 0 23 4344\nread 0 23 2\ngranularity 24\nprobe 0x800000 read\nunmap 0x400000 16\nmap 0x400000 1 rw--\nread 0 0 2\nread 0 22 2\n",
            output: "block 0 0x400010\nheap 0x400000+16\ndone\nrefused out-of-block\nrefused out-of-block\naccepted false\nfault 0x0\nrefused heap-region\nrefused heap-region\nbytes 4142\nbytes 0000\nregion 0x400000+16 heap\nframes 1004 tables 4\n",
        },
    },
];

#[test]
fn room_is_used_before_it_is_wanting(rt: HostRuntime) -> Result<(), Fail> {
    for run in &RUNS {
        expect_row(&rt, rt.alloc(), run.words, &run.row)?;
    }
    Ok(())
}
