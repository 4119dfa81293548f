//! Slots of 2 MiB that one entry maps, as large pages: when they come, how they leave, and how they are cut.
use crate::checks::expect_row;
use crate::commands::Command;
use crate::runs::Row;
use std::test::Fail;

/// A window of 4 MiB, and frames in which there are three free runs for large pages.
const MORE_FRAMES: &[&str] = &["run", "0x400000", "1024", "65536", "2048", "4095"];

const RUNS: [Command; 16] = [
    Command {
        words: &["run"],
        row: Row {
            input: "map 0x800000 512 rw--\nprobe 0x9fffff write\n",
            output: "done\nlarge 0x800000\nbyte 00\nregion 0x800000+512 user rw--\nframes 509 tables 3\n",
        },
    },
    // Only the slot amid the range lies whole in it.
    Command {
        words: MORE_FRAMES,
        row: Row {
            input: "map 0x801000 1024 r---\n",
            output: "done\nlarge 0xa00000\nregion 0x801000+1024 user r---\nframes 1019 tables 5\n",
        },
    },
    // No 512 frames in a row are free, the first at a multiple of 512.
    Command {
        words: &["run", "0x400000", "1024", "65536", "600", "4095"],
        row: Row {
            input: "map 0x800000 512 rw--\n",
            output: "done\nregion 0x800000+512 user rw--\nframes 84 tables 4\n",
        },
    },
    Command {
        words: &["run"],
        row: Row {
            input: "map 0x800000 512 rw--\nunmap 0x800000 512\n",
            output: "done\nlarge 0x800000\ndone\nframes 1021 tables 3\n",
        },
    },
    // A trim cuts a large page that was granted; what stays keeps its bytes.
    Command {
        words: &["run", "0x400000", "1024", "4096", "2048", "4095"],
        row: Row {
            input: "malloc 2097000\nwrite 0 0 41\nrealloc 0 10\ntrim 0\nread 0 0 1\n",
            output: "block 0 0x400010\nheap 0x400000+512\nlarge 0x400000\ndone\nblock 0 0x400010\ntrimmed true\nheap 0x400000+1\nbytes 41\nregion 0x400000+1 heap\nframes 2043 tables 4\n",
        },
    },
    // It does so with no frame free: the first frame that it gives up becomes the table of the page that stays.
    Command {
        words: &["run", "0x400000", "1024", "4096", "1024", "4095"],
        row: Row {
            input: "malloc 2097000\nmap 0x200000 508 r---\nmap 0x1000 1 r---\nwrite 0 0 41\nrealloc 0 10\ntrim 0\nread 0 0 1\n",
            output: "block 0 0x400010\nheap 0x400000+512\nlarge 0x400000\ndone\nrefused no-frames\ndone\nblock 0 0x400010\ntrimmed true\nheap 0x400000+1\nbytes 41\nregion 0x200000+508 user r---\nregion 0x400000+1 heap\nframes 510 tables 5\n",
        },
    },
    // One page goes back, and its frame becomes the table of the others: no more frames are free than before.
    Command {
        words: &["run", "0x400000", "1024", "4096", "1024", "4095"],
        row: Row {
            input: "malloc 2097000\nrealloc 0 2090000\ntrim 0\n",
            output: "block 0 0x400010\nheap 0x400000+512\nlarge 0x400000\nblock 0 0x400010\ntrimmed true\nheap 0x400000+511\nregion 0x400000+511 heap\nframes 509 tables 4\n",
        },
    },
    // A block moves into a region before its own. The free of the old block gives its region back and a part of the new
    // one, so of the slots that the answer lists the second is cut already.
    Command {
        words: &["run", "0x400000", "2048", "65536", "4096", "4095"],
        row: Row {
            input: "map 0x400000 1024 r---\nmalloc 3100000 32\nwrite 0 0 4142\nunmap 0x400000 1024\ngranularity 4194304\nrealloc 0 70000\nread 0 0 2\nprobe 0x6fffff fetch\nprobe 0x700000 write\n",
            output: "done\nlarge 0x400000 0x600000\nblock 0 0x800040\nheap 0x800000+768\nlarge 0x800000\ndone\ndone\naccepted true\nblock 0 0x400040\nheap 0x400000+768\nlarge 0x400000 0x600000\nbytes 4142\nfault 0x11\nfault 0x2\nregion 0x400000+768 heap\nframes 3323 tables 5\n",
        },
    },
    // Two slots, and one run of frames: the lower slot gets it.
    Command {
        words: &["run", "0x400000", "1024", "65536", "1535", "4095"],
        row: Row {
            input: "map 0x800000 1024 rw--\n",
            output: "done\nlarge 0x800000\nregion 0x800000+1024 user rw--\nframes 507 tables 4\n",
        },
    },
    // Single pages and tables take the lowest frames: 508 pages leave the only run, and one page more takes its first frame.
    Command {
        words: &["run", "0x400000", "1024", "65536", "1535", "4095"],
        row: Row {
            input: "map 0x200000 508 r---\nmap 0x400000 512 r---\nunmap 0x400000 512\nmap 0x3fc000 1 r---\nmap 0x400000 512 r---\n",
            output: "done\ndone\nlarge 0x400000\ndone\ndone\ndone\nregion 0x200000+508 user r---\nregion 0x3fc000+1 user r---\nregion 0x400000+512 user r---\nframes 509 tables 5\n",
        },
    },
    // A slot that has a table keeps it, even if none of its pages is mapped.
    Command {
        words: MORE_FRAMES,
        row: Row {
            input: "map 0x900000 1 r---\nunmap 0x900000 1\nmap 0x800000 1024 rw--\n",
            output: "done\ndone\ndone\nlarge 0xa00000\nregion 0x800000+1024 user rw--\nframes 1020 tables 4\n",
        },
    },
    // A region with a large page and pages on both sides leaves, and comes again.
    Command {
        words: MORE_FRAMES,
        row: Row {
            input: "map 0x801000 1024 r---\nunmap 0x801000 1024\nprobe 0xa00000 read\nmap 0x801000 1024 r---\nprobe 0xa00000 read\n",
            output: "done\nlarge 0xa00000\ndone\nfault 0x0\ndone\nlarge 0xa00000\nbyte 00\nregion 0x801000+1024 user r---\nframes 1019 tables 5\n",
        },
    },
    // Beside a slot of which another region has one half. Each page has the rights of its region.
    Command {
        words: MORE_FRAMES,
        row: Row {
            input: "map 0x800000 256 r---\nmap 0x900000 768 rwu-\nprobe 0x8fffff write\nprobe 0x900000 write user\nprobe 0xa00000 write user\nprobe 0xbfffff fetch user\nprobe 0xc00000 read\n",
            output: "done\ndone\nlarge 0xa00000\nfault 0x3\nbyte 00\nbyte 00\nfault 0x15\nfault 0x0\nregion 0x800000+256 user r---\nregion 0x900000+768 user rwu-\nframes 1020 tables 4\n",
        },
    },
    // A block of six slots goes back in a reset. Its slots are large pages again, and their bytes are cleared.
    Command {
        words: &["run", "0x400000", "4096", "65536", "8192", "4095"],
        row: Row {
            input: "malloc 12582905\nwrite 0 5000000 ff\nreset\nprobe 0x400010 read\nmalloc 12582905\nread 1 5000000 1\n",
            output: "block 0 0x400010\nheap 0x400000+3088\nlarge 0x400000 0x600000 0x800000 0xa00000 0xc00000 0xe00000\ndone\nreleased 12648448\nheap none\nfault 0x0\nblock 1 0x400010\nheap 0x400000+3088\nlarge 0x400000 0x600000 0x800000 0xa00000 0xc00000 0xe00000\nbytes 00\nregion 0x400000+3088 heap\nframes 5100 tables 4\n",
        },
    },
    // Frames are counted as if no large page were used: 512 and those of two tables, of which one is not made.
    Command {
        words: &["run"],
        row: Row {
            input: "map 0x200000 507 r---\nmap 0x40000000 512 r---\nunmap 0x200000 507\nmap 0x200000 506 r---\nmap 0x40000000 512 r---\n",
            output: "done\nrefused no-frames\ndone\ndone\ndone\nlarge 0x40000000\nregion 0x200000+506 user r---\nregion 0x40000000+512 user r---\nframes 1 tables 5\n",
        },
    },
    // A resized block takes the place of the user's pages. Its call makes two slots large and cuts one of them again, as the old
    // block's pages go back: the answer tells both.
    Command {
        words: &["run", "0x430000", "8192", "65536", "8192", "4095"],
        row: Row {
            input: "map 0x430000 1488 rw--\nmalloc 3000000 1048576\nunmap 0x430000 1488\nrealloc 0 5000000\n",
            output: "done\nlarge 0x600000 0x800000\nblock 0 0xb00000\nheap 0xa00000+992\nlarge 0xa00000\ndone\nblock 0 0x500000\nheap 0x430000+1440\nlarge 0x600000 0x800000\nregion 0x430000+1440 heap\nframes 6746 tables 6\n",
        },
    },
];

#[test]
fn large_pages_come_and_go(rt: HostRuntime) -> Result<(), Fail> {
    for run in &RUNS {
        expect_row(&rt, rt.alloc(), run.words, &run.row)?;
    }
    Ok(())
}
