use crate::calls::{Call, FOOT, NEW, NO_SPACE, Row, TOO_LARGE, serve};
use dlmalloc::Kind;
use std::marker::Brand;
use std::sync::ledger::Blank;
use std::test::Fail;

/// A block, one after it that is freed, and one that stays.
const BINNED: &[Call] = &[
    Call::Malloc(100, Ok(0x40_0010)),
    Call::Malloc(100, Ok(0x40_0080)),
    Call::Malloc(8, Ok(0x40_00f0)),
    Call::Free(0x40_0080),
];

/// A block before the victim.
const VICTIM: &[Call] = &[
    Call::Malloc(1000, Ok(0x40_0010)),
    Call::Malloc(8, Ok(0x40_0400)),
    Call::Free(0x40_0010),
    Call::Malloc(24, Ok(0x40_0010)),
];

#[test]
fn blocks_get_other_sizes(rt: HostRuntime) -> Result<(), Fail> {
    let rows = [
        Row {
            rule: "a block takes bytes of the binned chunk behind it",
            before: BINNED,
            calls: &[Call::Realloc(0x40_0010, 100, 16, 150, Ok(0x40_0010))],
            extents: &[
                (Kind::Used, 0x40_0000, 160),
                (Kind::Free, 0x40_00a0, 64),
                (Kind::Used, 0x40_00e0, 32),
                (Kind::Top, 0x40_0100, 65200),
                FOOT,
            ],
        },
        Row {
            rule: "and all of them, where 16 would be left",
            before: BINNED,
            calls: &[
                Call::Realloc(0x40_0010, 100, 16, 150, Ok(0x40_0010)),
                Call::Realloc(0x40_0010, 150, 16, 190, Ok(0x40_0010)),
            ],
            extents: &[
                (Kind::Used, 0x40_0000, 224),
                (Kind::Used, 0x40_00e0, 32),
                (Kind::Top, 0x40_0100, 65200),
                FOOT,
            ],
        },
        Row {
            rule: "the rest of the victim is the victim",
            before: VICTIM,
            calls: &[Call::Realloc(0x40_0010, 24, 16, 500, Ok(0x40_0010))],
            extents: &[
                (Kind::Used, 0x40_0000, 512),
                (Kind::Victim, 0x40_0200, 496),
                (Kind::Used, 0x40_03f0, 32),
                (Kind::Top, 0x40_0410, 64416),
                FOOT,
            ],
        },
        Row {
            rule: "and the victim may be used up",
            before: VICTIM,
            calls: &[
                Call::Realloc(0x40_0010, 24, 16, 500, Ok(0x40_0010)),
                Call::Realloc(0x40_0010, 500, 16, 984, Ok(0x40_0010)),
            ],
            extents: &[
                (Kind::Used, 0x40_0000, 1008),
                (Kind::Used, 0x40_03f0, 32),
                (Kind::Top, 0x40_0410, 64416),
                FOOT,
            ],
        },
        Row {
            rule: "the top may not",
            before: NEW,
            calls: &[
                Call::Malloc(24, Ok(0x40_0010)),
                Call::Realloc(0x40_0010, 24, 16, 65448, NO_SPACE),
                Call::Realloc(0x40_0010, 24, 16, 65432, Ok(0x40_0010)),
            ],
            extents: &[
                (Kind::Used, 0x40_0000, 65440),
                (Kind::Top, 0x40_ffa0, 16),
                FOOT,
            ],
        },
        Row {
            rule: "a rest of 16 bytes stays with a block that gets smaller, and one of 32 is freed",
            before: NEW,
            calls: &[
                Call::Malloc(200, Ok(0x40_0010)),
                Call::Malloc(8, Ok(0x40_00e0)),
                Call::Realloc(0x40_0010, 200, 16, 184, Ok(0x40_0010)),
                Call::Realloc(0x40_0010, 184, 16, 168, Ok(0x40_0010)),
            ],
            extents: &[
                (Kind::Used, 0x40_0000, 176),
                (Kind::Free, 0x40_00b0, 32),
                (Kind::Used, 0x40_00d0, 32),
                (Kind::Top, 0x40_00f0, 65216),
                FOOT,
            ],
        },
        Row {
            rule: "a block moves where nothing behind it has room",
            before: NEW,
            calls: &[
                Call::Calloc(8, 16, Ok(0x40_0010)),
                Call::Realloc(0x40_0010, 8, 16, 4, Ok(0x40_0010)),
                Call::Realloc(0x40_0010, 4, 16, 100, Ok(0x40_0010)),
                Call::Malloc(8, Ok(0x40_0080)),
                Call::Realloc(0x40_0010, 100, 16, 200, Ok(0x40_00a0)),
                Call::Malloc(100, Ok(0x40_0010)),
            ],
            extents: &[
                (Kind::Used, 0x40_0000, 112),
                (Kind::Used, 0x40_0070, 32),
                (Kind::Used, 0x40_0090, 208),
                (Kind::Top, 0x40_0160, 65104),
                FOOT,
            ],
        },
        Row {
            rule: "an aligned block always does",
            before: NEW,
            calls: &[
                Call::Aligned(100, 4096, Ok(0x40_1000)),
                Call::Realloc(0x40_1000, 100, 4096, 50, Ok(0x40_2000)),
            ],
            extents: &[
                (Kind::Free, 0x40_0000, 8176),
                (Kind::Used, 0x40_1ff0, 64),
                (Kind::Top, 0x40_2030, 57216),
                FOOT,
            ],
        },
        Row {
            rule: "but not by c_realloc, and then its alignment is 16",
            before: NEW,
            calls: &[
                Call::Aligned(100, 4096, Ok(0x40_1000)),
                Call::CRealloc(0x40_1000, 50, Ok(0x40_1000)),
                Call::Realloc(0x40_1000, 50, 16, 4000, Ok(0x40_1000)),
            ],
            extents: &[
                (Kind::Free, 0x40_0000, 4080),
                (Kind::Used, 0x40_0ff0, 4016),
                (Kind::Top, 0x40_1fa0, 57360),
                FOOT,
            ],
        },
        Row {
            rule: "a block that is refused another size stays as it is",
            before: NEW,
            calls: &[
                Call::Malloc(24, Ok(0x40_0010)),
                Call::Realloc(0x40_0010, 24, 16, 65536, NO_SPACE),
                Call::Realloc(0x40_0010, 24, 16, 0xffff_ffff_fffe_ff99, TOO_LARGE),
                Call::Realloc(0x40_0010, 24, 4096, 0xffff_ffff_ffff_ffff, TOO_LARGE),
                Call::CRealloc(0x40_0010, 65536, NO_SPACE),
                Call::CRealloc(0x40_0010, 0xffff_ffff_fffe_ff99, TOO_LARGE),
            ],
            extents: &[
                (Kind::Used, 0x40_0000, 32),
                (Kind::Top, 0x40_0020, 65424),
                FOOT,
            ],
        },
    ];
    for row in &rows {
        serve::<Brand, HostRuntime>(&rt, rt.alloc(), row, Blank::new(1))?;
    }
    Ok(())
}
