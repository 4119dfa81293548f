//! Requests at alignments, for cleared bytes, and for other sizes.
use crate::checks::expect_row;
use crate::runs::Row;
use std::test::Fail;

const ROWS: [Row; 11] = [
    // An aligned block, and one before it.
    Row {
        input: "malloc 100 4096\nmalloc 4072\n",
        output: "block 0 0x401000\nheap 0x400000+16\nblock 1 0x400010\nregion 0x400000+16 heap\nframes 1004 tables 4\n",
    },
    // An aligned block is never resized in place.
    Row {
        input: "malloc 100 4096\nrealloc 0 50\nextents\n",
        output: "block 0 0x401000\nheap 0x400000+16\nblock 0 0x402000\nextents free:0x400000+8176 used:0x401ff0+64 top:0x402030+57216 foot:0x40ffb0+80\nregion 0x400000+16 heap\nframes 1004 tables 4\n",
    },
    // A free that leaves a long top gives the end of it back; the tables stay.
    Row {
        input: "malloc 2500000\nfree 0\nmalloc 8\n",
        output: "block 0 0x400010\nheap 0x400000+624\nlarge 0x400000\ndone\nheap 0x400000+16\nblock 1 0x400010\nregion 0x400000+16 heap\nframes 1003 tables 5\n",
    },
    // No power of two, and one that no window has room for.
    Row {
        input: "malloc 1 0\nmalloc 1 24\nmalloc 1 0x8000000000000000\n",
        output: "refused bad-align\nrefused bad-align\nrefused no-space\nframes 1023 tables 1\n",
    },
    // Cleared bytes, and bytes that both sizes have, in place and elsewhere.
    Row {
        input: "calloc 8\nwrite 0 0 0102030405060708\nrealloc 0 4\nrealloc 0 100\nread 0 0 4\nmalloc 8\nrealloc 0 200\nread 0 0 4\nmalloc 100\n",
        output: "block 0 0x400010\nheap 0x400000+16\ndone\nblock 0 0x400010\nblock 0 0x400010\nbytes 01020304\nblock 1 0x400080\nblock 0 0x4000a0\nbytes 01020304\nblock 2 0x400010\nregion 0x400000+16 heap\nframes 1004 tables 4\n",
    },
    // Whatever its alignment, c_realloc resizes a block in place, and then it is aligned at 16.
    Row {
        input: "malloc 100 4096\nc_realloc 0 50\nrealloc 0 4000\n",
        output: "block 0 0x401000\nheap 0x400000+16\nblock 0 0x401000\nblock 0 0x401000\nregion 0x400000+16 heap\nframes 1004 tables 4\n",
    },
    // A rest of 64 bytes is freed, one of 16 stays with the block.
    Row {
        input: "malloc 100\nmalloc 100\nmalloc 8\nfree 1\nrealloc 0 150\nrealloc 0 190\nextents\n",
        output: "block 0 0x400010\nheap 0x400000+16\nblock 1 0x400080\nblock 2 0x4000f0\ndone\nblock 0 0x400010\nblock 0 0x400010\nextents used:0x400000+224 used:0x4000e0+32 top:0x400100+65200 foot:0x40ffb0+80\nregion 0x400000+16 heap\nframes 1004 tables 4\n",
    },
    // A block grows into the victim, and then takes it whole.
    Row {
        input: "malloc 1000\nmalloc 8\nfree 0\nmalloc 24\nrealloc 2 500\nextents\nrealloc 2 984\nextents\n",
        output: "block 0 0x400010\nheap 0x400000+16\nblock 1 0x400400\ndone\nblock 2 0x400010\nblock 2 0x400010\nextents used:0x400000+512 victim:0x400200+496 used:0x4003f0+32 top:0x400410+64416 foot:0x40ffb0+80\nblock 2 0x400010\nextents used:0x400000+1008 used:0x4003f0+32 top:0x400410+64416 foot:0x40ffb0+80\nregion 0x400000+16 heap\nframes 1004 tables 4\n",
    },
    // Cleared bytes where others were, also at a greater alignment.
    Row {
        input: "malloc 100\nwrite 0 0 ffffffffffffffffff\nfree 0\ncalloc 9\nread 1 0 9\ncalloc 16 64\nread 2 0 16\n",
        output: "block 0 0x400010\nheap 0x400000+16\ndone\ndone\nblock 1 0x400010\nbytes 000000000000000000\nblock 2 0x400080\nbytes 00000000000000000000000000000000\nregion 0x400000+16 heap\nframes 1004 tables 4\n",
    },
    // Blocks that no number names, and lines that are none.
    Row {
        input: "realloc 0 8\nc_realloc 0 8\nmalloc 8\nfree 0\nrealloc 0 8\nrealloc 0\nrealloc 0 8 16\nc_realloc x 8\ncalloc\ncalloc 1 2 3\nmalloc 1 x\n",
        output: "refused unknown-block\nrefused unknown-block\nblock 0 0x400010\nheap 0x400000+16\ndone\nrefused unknown-block\nbad line\nbad line\nbad line\nbad line\nbad line\nbad line\nregion 0x400000+16 heap\nframes 1004 tables 4\n",
    },
    // A size that is too large for a heap, of a block that stays.
    Row {
        input: "malloc 8\nwrite 0 0 aa\nrealloc 0 0xFFFFFFFFFFFEFF99\nc_realloc 0 0xFFFFFFFFFFFEFF99\nrealloc 0 0xFFFFFFFFFFFEFF98\nread 0 0 1\n",
        output: "block 0 0x400010\nheap 0x400000+16\ndone\nrefused too-large\nrefused too-large\nrefused no-space\nbytes aa\nregion 0x400000+16 heap\nframes 1004 tables 4\n",
    },
];

#[test]
fn requests_are_served(rt: HostRuntime) -> Result<(), Fail> {
    for row in &ROWS {
        expect_row(&rt, rt.alloc(), &["run"], row)?;
    }
    Ok(())
}
