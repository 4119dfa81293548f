//! Regions of the user: mapped, unmapped, and refused.
use crate::checks::expect_row;
use crate::runs::Row;
use std::test::Fail;

const ROWS: [Row; 6] = [
    // The last page of the address space, with rights to read alone; ranges over the gap and off a page; and regions that
    // meet others, or are none.
    Row {
        input: "map 0xfffffffffffff000 1 r---\nprobe 0xffffffffffffffff read\nprobe 0xffffffffffffffff write\nmap 0x7ffffffff000 2 rw--\nmap 0x1001 1 rw--\nmalloc 0\nmap 0x400000 1 rw--\nmap 0xfffffffffffff000 1 rw--\nunmap 0x7000 1\nunmap 0x400000 16\nunmap 0xfffffffffffff000 1\n",
        output: "done\nbyte 00\nfault 0x3\nrefused bad-range\nrefused bad-range\nblock 0 0x400010\nheap 0x400000+16\nrefused heap-region\nrefused overlap\nrefused unknown-region\nrefused heap-region\ndone\nregion 0x400000+16 heap\nframes 1001 tables 7\n",
    },
    // Each right grants its kind of access; the user has none where `u` does not stand.
    Row {
        input: "map 0x1000 1 rwux\nmap 0x2000 1 r-u-\nmap 0x3000 1 r--x\nprobe 0x1000 write user\nprobe 0x1fff fetch user\nprobe 0x2000 read user\nprobe 0x2000 write user\nprobe 0x2000 fetch\nprobe 0x3000 fetch\nprobe 0x3000 fetch user\nprobe 0x4000 read\n",
        output: "done\ndone\ndone\nbyte 00\nbyte 00\nbyte 00\nfault 0x7\nfault 0x11\nbyte 00\nfault 0x15\nfault 0x0\nregion 0x1000+1 user rwux\nregion 0x2000+1 user r-u-\nregion 0x3000+1 user r--x\nframes 1017 tables 4\n",
    },
    // Only the region as it was mapped is unmapped: no part of it, no more, and no two.
    Row {
        input: "map 0x1000 2 rw--\nmap 0x3000 1 rw--\nunmap 0x1000 1\nunmap 0x2000 1\nunmap 0x1000 3\nunmap 0x1000 0\nunmap 0x1000 2\nunmap 0x1000 2\nmap 0x1000 1 r---\n",
        output: "done\ndone\nrefused unknown-region\nrefused unknown-region\nrefused unknown-region\nrefused bad-range\ndone\nrefused unknown-region\ndone\nregion 0x1000+1 user r---\nregion 0x3000+1 user rw--\nframes 1018 tables 4\n",
    },
    // A page that is mapped again reads as 0, and the frames of a region that left serve others.
    Row {
        input: "malloc 8\nwrite 0 0 ff\nmap 0x410000 1 rw--\nunmap 0x410000 1\nmalloc 70000\nwrite 1 0 ee\nmap 0x600000 1 r---\nprobe 0x600000 read\n",
        output: "block 0 0x400010\nheap 0x400000+16\ndone\ndone\ndone\nblock 1 0x400030\nheap 0x400000+16 0x410000+32\ndone\ndone\nbyte 00\nregion 0x400000+16 heap\nregion 0x410000+32 heap\nregion 0x600000+1 user r---\nframes 970 tables 5\n",
    },
    // All frames but those of tables that the pages lack; and one page more, which changes nothing.
    Row {
        input: "map 0x200000 512 rw--\nmap 0x400000 509 rw--\nmap 0x400000 508 rw--\n",
        output: "done\nlarge 0x200000\nrefused no-frames\ndone\nregion 0x200000+512 user rw--\nregion 0x400000+508 user rw--\nframes 0 tables 4\n",
    },
    // Words that are missing, are more, or write no rights.
    Row {
        input: "map\nmap 0\nmap 0 1\nmap 0 1 rw\nmap 0 1 rw---\nmap 0 1 -w--\nmap 0 1 rwxu\nmap 0 1 RW--\nmap 0 1 rw-- 0\nmap x 1 rw--\nunmap\nunmap 0\nunmap 0 1 0\nunmap 0 x\n",
        output: "bad line\nbad line\nbad line\nbad line\nbad line\nbad line\nbad line\nbad line\nbad line\nbad line\nbad line\nbad line\nbad line\nbad line\nframes 1023 tables 1\n",
    },
];

#[test]
fn users_map_and_unmap(rt: HostRuntime) -> Result<(), Fail> {
    for row in &ROWS {
        expect_row(&rt, rt.alloc(), &["run"], row)?;
    }
    Ok(())
}
