// Where grants go, and the countdown that the first grant begins.
use crate::calls::{Call, NO_SPACE};
use crate::scripted::{Given, serve_given};
use dlmalloc::Kind;
use std::marker::Brand;
use std::sync::ledger::Blank;
use std::test::Fail;

#[test]
fn grants_go_to_their_places(rt: HostRuntime) -> Result<(), Fail> {
    let rows = [
        Given {
            rule: "at the end of the head segment the top grows",
            granularity: 4096,
            gives: &[(0x1_0000, 4096, 0), (0x1_1000, 4096, 0)],
            frees: true,
            parts: true,
            calls: &[
                Call::Malloc(100, Ok(0x1_0010)),
                Call::Malloc(3912, Ok(0x1_0080)),
            ],
            extents: &[
                (Kind::Used, 0x1_0000, 112),
                (Kind::Used, 0x1_0070, 3920),
                (Kind::Top, 0x1_0fc0, 4080),
                (Kind::Foot, 0x1_1fb0, 80),
            ],
            destroyed: 8192,
        },
        Given {
            rule: "behind a gap the grant is the new head, and the old top is free",
            granularity: 4096,
            gives: &[(0x1_0000, 4096, 0), (0x2_0000, 4096, 0)],
            frees: true,
            parts: true,
            calls: &[
                Call::Malloc(100, Ok(0x1_0010)),
                Call::Malloc(3912, Ok(0x2_0010)),
            ],
            extents: &[
                (Kind::Used, 0x1_0000, 112),
                (Kind::Free, 0x1_0070, 3904),
                (Kind::Record, 0x1_0fb0, 80),
                (Kind::Used, 0x2_0000, 3920),
                (Kind::Top, 0x2_0f50, 96),
                (Kind::Foot, 0x2_0fb0, 80),
            ],
            destroyed: 8192,
        },
        Given {
            rule: "what was the top serves on",
            granularity: 4096,
            gives: &[(0x1_0000, 4096, 0), (0x2_0000, 4096, 0)],
            frees: true,
            parts: true,
            calls: &[
                Call::Malloc(100, Ok(0x1_0010)),
                Call::Malloc(3912, Ok(0x2_0010)),
                Call::Malloc(3896, Ok(0x1_0080)),
            ],
            extents: &[
                (Kind::Used, 0x1_0000, 112),
                (Kind::Used, 0x1_0070, 3904),
                (Kind::Record, 0x1_0fb0, 80),
                (Kind::Used, 0x2_0000, 3920),
                (Kind::Top, 0x2_0f50, 96),
                (Kind::Foot, 0x2_0fb0, 80),
            ],
            destroyed: 8192,
        },
        Given {
            rule: "a top of 16 bytes is part of the record",
            granularity: 4096,
            gives: &[(0x1_0000, 4096, 0), (0x2_0000, 4096, 0)],
            frees: true,
            parts: true,
            calls: &[
                Call::Malloc(3992, Ok(0x1_0010)),
                Call::Malloc(8, Ok(0x2_0010)),
            ],
            extents: &[
                (Kind::Used, 0x1_0000, 4000),
                (Kind::Record, 0x1_0fa0, 96),
                (Kind::Used, 0x2_0000, 32),
                (Kind::Top, 0x2_0020, 3984),
                (Kind::Foot, 0x2_0fb0, 80),
            ],
            destroyed: 8192,
        },
        Given {
            rule: "before a block a grant is put before the segment, and the rest is free",
            granularity: 4096,
            gives: &[(0x2_0000, 4096, 0), (0x1_f000, 4096, 0)],
            frees: true,
            parts: true,
            calls: &[
                Call::Malloc(100, Ok(0x2_0010)),
                Call::Malloc(3912, Ok(0x1_f010)),
            ],
            extents: &[
                (Kind::Used, 0x1_f000, 3920),
                (Kind::Free, 0x1_ff50, 176),
                (Kind::Used, 0x2_0000, 112),
                (Kind::Top, 0x2_0070, 3904),
                (Kind::Foot, 0x2_0fb0, 80),
            ],
            destroyed: 8192,
        },
        Given {
            rule: "before a free chunk the rest joins it",
            granularity: 4096,
            gives: &[(0x2_0000, 4096, 0), (0x1_f000, 4096, 0)],
            frees: true,
            parts: true,
            calls: &[
                Call::Malloc(1000, Ok(0x2_0010)),
                Call::Malloc(8, Ok(0x2_0400)),
                Call::Free(0x2_0010),
                Call::Malloc(3912, Ok(0x1_f010)),
            ],
            extents: &[
                (Kind::Used, 0x1_f000, 3920),
                (Kind::Free, 0x1_ff50, 1184),
                (Kind::Used, 0x2_03f0, 32),
                (Kind::Top, 0x2_0410, 2976),
                (Kind::Foot, 0x2_0fb0, 80),
            ],
            destroyed: 8192,
        },
        Given {
            rule: "before the top the rest joins it",
            granularity: 4096,
            gives: &[(0x2_0000, 4096, 0), (0x1_e000, 8192, 0)],
            frees: true,
            parts: true,
            calls: &[
                Call::Malloc(100, Ok(0x2_0010)),
                Call::Free(0x2_0010),
                Call::Malloc(4000, Ok(0x1_e010)),
            ],
            extents: &[
                (Kind::Used, 0x1_e000, 4016),
                (Kind::Top, 0x1_efb0, 8192),
                (Kind::Foot, 0x2_0fb0, 80),
            ],
            destroyed: 12288,
        },
        Given {
            rule: "before a segment that is not the head its record names the new base",
            granularity: 4096,
            gives: &[(0x1_0000, 4096, 0), (0x2_0000, 4096, 0), (0xf000, 4096, 0)],
            frees: true,
            parts: true,
            calls: &[
                Call::Malloc(100, Ok(0x1_0010)),
                Call::Malloc(3912, Ok(0x2_0010)),
                Call::Malloc(3960, Ok(0xf010)),
            ],
            extents: &[
                (Kind::Used, 0xf000, 3968),
                (Kind::Free, 0xff80, 128),
                (Kind::Used, 0x1_0000, 112),
                (Kind::Free, 0x1_0070, 3904),
                (Kind::Record, 0x1_0fb0, 80),
                (Kind::Used, 0x2_0000, 3920),
                (Kind::Top, 0x2_0f50, 96),
                (Kind::Foot, 0x2_0fb0, 80),
            ],
            destroyed: 12288,
        },
        Given {
            rule: "records name each other",
            granularity: 16,
            gives: &[(0x1_0000, 192, 0), (0x2_0000, 208, 0), (0x3_0000, 224, 0)],
            frees: true,
            parts: true,
            calls: &[
                Call::Malloc(24, Ok(0x1_0010)),
                Call::Malloc(100, Ok(0x2_0010)),
                Call::Malloc(120, Ok(0x3_0010)),
            ],
            extents: &[
                (Kind::Used, 0x1_0000, 32),
                (Kind::Free, 0x1_0020, 80),
                (Kind::Record, 0x1_0070, 80),
                (Kind::Used, 0x2_0000, 112),
                (Kind::Record, 0x2_0070, 96),
                (Kind::Used, 0x3_0000, 128),
                (Kind::Top, 0x3_0080, 16),
                (Kind::Foot, 0x3_0090, 80),
            ],
            destroyed: 624,
        },
    ];
    for row in &rows {
        serve_given::<Brand, HostRuntime>(&rt, rt.alloc(), row, Blank::new(1))?;
    }
    Ok(())
}

#[test]
fn the_first_grant_begins_the_countdown(rt: HostRuntime) -> Result<(), Fail> {
    let rows = [
        Given {
            rule: "there is none before",
            granularity: 4096,
            gives: &[(0x1_0000, 16, 0), (0x1_1000, 4096, 0)],
            frees: true,
            parts: true,
            calls: &[
                Call::Countdown(0),
                Call::Malloc(100, NO_SPACE),
                Call::Countdown(0),
                Call::Malloc(100, Ok(0x1_1010)),
                Call::Countdown(4095),
            ],
            extents: &[
                (Kind::Used, 0x1_1000, 112),
                (Kind::Top, 0x1_1070, 3904),
                (Kind::Foot, 0x1_1fb0, 80),
            ],
            destroyed: 4096,
        },
        Given {
            rule: "it is the rate that was set",
            granularity: 4096,
            gives: &[(0x1_0000, 4096, 0)],
            frees: true,
            parts: true,
            calls: &[
                Call::Rate(8),
                Call::Countdown(8),
                Call::Malloc(100, Ok(0x1_0010)),
                Call::Countdown(8),
            ],
            extents: &[
                (Kind::Used, 0x1_0000, 112),
                (Kind::Top, 0x1_0070, 3904),
                (Kind::Foot, 0x1_0fb0, 80),
            ],
            destroyed: 4096,
        },
        Given {
            rule: "it never ends with a rate of 0",
            granularity: 4096,
            gives: &[(0x1_0000, 4096, 0)],
            frees: true,
            parts: true,
            calls: &[
                Call::Rate(0),
                Call::Countdown(u64::MAX),
                Call::Malloc(100, Ok(0x1_0010)),
                Call::Countdown(u64::MAX),
            ],
            extents: &[
                (Kind::Used, 0x1_0000, 112),
                (Kind::Top, 0x1_0070, 3904),
                (Kind::Foot, 0x1_0fb0, 80),
            ],
            destroyed: 4096,
        },
        Given {
            rule: "a grant that makes the top longer leaves it",
            granularity: 4096,
            gives: &[(0x1_0000, 4096, 0), (0x1_1000, 4096, 0)],
            frees: true,
            parts: true,
            calls: &[
                Call::Malloc(1000, Ok(0x1_0010)),
                Call::Malloc(8, Ok(0x1_0400)),
                Call::Free(0x1_0010),
                Call::Countdown(4094),
                Call::Malloc(3912, Ok(0x1_0420)),
                Call::Countdown(4094),
            ],
            extents: &[
                (Kind::Free, 0x1_0000, 1008),
                (Kind::Used, 0x1_03f0, 32),
                (Kind::Used, 0x1_0410, 3920),
                (Kind::Top, 0x1_1360, 3152),
                (Kind::Foot, 0x1_1fb0, 80),
            ],
            destroyed: 8192,
        },
        Given {
            rule: "so does a new head segment",
            granularity: 4096,
            gives: &[(0x1_0000, 4096, 0), (0x2_0000, 4096, 0)],
            frees: true,
            parts: true,
            calls: &[
                Call::Malloc(1000, Ok(0x1_0010)),
                Call::Malloc(8, Ok(0x1_0400)),
                Call::Free(0x1_0010),
                Call::Countdown(4094),
                Call::Malloc(3912, Ok(0x2_0010)),
                Call::Countdown(4094),
            ],
            extents: &[
                (Kind::Free, 0x1_0000, 1008),
                (Kind::Used, 0x1_03f0, 32),
                (Kind::Free, 0x1_0410, 2976),
                (Kind::Record, 0x1_0fb0, 80),
                (Kind::Used, 0x2_0000, 3920),
                (Kind::Top, 0x2_0f50, 96),
                (Kind::Foot, 0x2_0fb0, 80),
            ],
            destroyed: 8192,
        },
        Given {
            rule: "and one that is put before",
            granularity: 4096,
            gives: &[(0x2_0000, 4096, 0), (0x1_f000, 4096, 0)],
            frees: true,
            parts: true,
            calls: &[
                Call::Malloc(1000, Ok(0x2_0010)),
                Call::Malloc(8, Ok(0x2_0400)),
                Call::Free(0x2_0010),
                Call::Countdown(4094),
                Call::Malloc(3912, Ok(0x1_f010)),
                Call::Countdown(4094),
            ],
            extents: &[
                (Kind::Used, 0x1_f000, 3920),
                (Kind::Free, 0x1_ff50, 1184),
                (Kind::Used, 0x2_03f0, 32),
                (Kind::Top, 0x2_0410, 2976),
                (Kind::Foot, 0x2_0fb0, 80),
            ],
            destroyed: 8192,
        },
    ];
    for row in &rows {
        serve_given::<Brand, HostRuntime>(&rt, rt.alloc(), row, Blank::new(1))?;
    }
    Ok(())
}
