//! Probes of the heap's pages and of pages that are not mapped.
use crate::checks::expect_row;
use crate::runs::Row;
use std::test::Fail;

const ROWS: [Row; 4] = [
    // A byte that was written; a fetch and the user's read, which the heap's pages deny; a page that is not mapped; and
    // an address between the canonical halves.
    Row {
        input: "malloc 4\nwrite 0 0 41\nprobe 0x400010 read\nprobe 0x400010 fetch\nprobe 0x400010 read user\nprobe 0x300000 write user\nprobe 0x800000000000 read\n",
        output: "block 0 0x400010\nheap 0x400000+16\ndone\nbyte 41\nfault 0x11\nfault 0x5\nfault 0x6\nrefused not-canonical\nregion 0x400000+16 heap\nframes 1004 tables 4\n",
    },
    // A probe that asks to write shows the byte and changes nothing, to the last byte of the region.
    Row {
        input: "malloc 2\nwrite 0 1 ff\nprobe 0x400011 write\nread 0 0 2\nprobe 0x40ffff write\nprobe 0x410000 write\n",
        output: "block 0 0x400010\nheap 0x400000+16\ndone\nbyte ff\nbytes 00ff\nbyte 00\nfault 0x2\nregion 0x400000+16 heap\nframes 1004 tables 4\n",
    },
    // The bits of a fault's code where no page is mapped, and the last address of each canonical half.
    Row {
        input: "probe 0x400000 read\nprobe 0x400000 write\nprobe 0x400000 fetch\nprobe 0x400000 read user\nprobe 0x400000 fetch user\nprobe 0x7fffffffffff read\nprobe 0xffff7fffffffffff read\nprobe 0xffff800000000000 read\nprobe 0xffffffffffffffff read\n",
        output: "fault 0x0\nfault 0x2\nfault 0x10\nfault 0x4\nfault 0x14\nfault 0x0\nrefused not-canonical\nfault 0x0\nfault 0x0\nframes 1023 tables 1\n",
    },
    // No address, no access, another word, and one more.
    Row {
        input: "probe\nprobe 0\nprobe 0 READ\nprobe 0 read kernel\nprobe 0 read user user\nprobe x read\nprobe 0 user read\nprobe 0 read \n",
        output: "bad line\nbad line\nbad line\nbad line\nbad line\nbad line\nbad line\nbad line\nframes 1023 tables 1\n",
    },
];

#[test]
fn probes_are_answered(rt: HostRuntime) -> Result<(), Fail> {
    for row in &ROWS {
        expect_row(&rt, rt.alloc(), &["run"], row)?;
    }
    Ok(())
}
