// Trims: what is left of heaps over systems that take parts of their regions back, or take none.
use crate::calls::{Call, NO_SPACE, TRIM_THRESHOLD};
use crate::scripted::{Given, serve_given};
use dlmalloc::Kind;
use std::marker::Brand;
use std::sync::ledger::Blank;
use std::test::Fail;

#[test]
fn the_end_of_the_top_goes_back(rt: HostRuntime) -> Result<(), Fail> {
    let rows = [
        Given {
            rule: "whole granularities go, and the top keeps some bytes",
            granularity: 4096,
            gives: &[(0x1_0000, 20480, 0)],
            frees: true,
            parts: true,
            calls: &[
                Call::Malloc(20000, Ok(0x1_0010)),
                Call::Free(0x1_0010),
                Call::Trim(0, true),
                Call::Trim(0, false),
                Call::TrimCheck(TRIM_THRESHOLD),
            ],
            extents: &[(Kind::Top, 0x1_0000, 4016), (Kind::Foot, 0x1_0fb0, 80)],
            destroyed: 4096,
        },
        Given {
            rule: "the top keeps more than the pad and 80 bytes",
            granularity: 4096,
            gives: &[(0x1_0000, 20480, 0)],
            frees: true,
            parts: true,
            calls: &[
                Call::Malloc(20000, Ok(0x1_0010)),
                Call::Free(0x1_0010),
                Call::Trim(3935, true),
                Call::TrimCheck(TRIM_THRESHOLD),
            ],
            extents: &[(Kind::Top, 0x1_0000, 4016), (Kind::Foot, 0x1_0fb0, 80)],
            destroyed: 4096,
        },
        Given {
            rule: "a byte more keeps a granularity",
            granularity: 4096,
            gives: &[(0x1_0000, 20480, 0)],
            frees: true,
            parts: true,
            calls: &[
                Call::Malloc(20000, Ok(0x1_0010)),
                Call::Free(0x1_0010),
                Call::Trim(3936, true),
                Call::TrimCheck(TRIM_THRESHOLD),
            ],
            extents: &[(Kind::Top, 0x1_0000, 8112), (Kind::Foot, 0x1_1fb0, 80)],
            destroyed: 8192,
        },
        Given {
            rule: "what is left serves on, and what went is asked for anew",
            granularity: 4096,
            gives: &[(0x2_0000, 20480, 0), (0x1_0000, 4096, 0)],
            frees: true,
            parts: true,
            calls: &[
                Call::Malloc(20000, Ok(0x2_0010)),
                Call::Free(0x2_0010),
                Call::Trim(0, true),
                Call::Malloc(100, Ok(0x2_0010)),
                Call::Malloc(3912, Ok(0x1_0010)),
                Call::TrimCheck(TRIM_THRESHOLD),
            ],
            extents: &[
                (Kind::Used, 0x1_0000, 3920),
                (Kind::Top, 0x1_0f50, 96),
                (Kind::Foot, 0x1_0fb0, 80),
                (Kind::Used, 0x2_0000, 112),
                (Kind::Free, 0x2_0070, 3904),
                (Kind::Record, 0x2_0fb0, 80),
            ],
            destroyed: 8192,
        },
        Given {
            rule: "a segment of two regions is cut within the first",
            granularity: 4096,
            gives: &[(0x1_0000, 8192, 0), (0x1_2000, 8192, 0)],
            frees: true,
            parts: true,
            calls: &[
                Call::Malloc(8000, Ok(0x1_0010)),
                Call::Malloc(8000, Ok(0x1_1f60)),
                Call::Free(0x1_1f60),
                Call::Free(0x1_0010),
                Call::Trim(0, true),
                Call::TrimCheck(TRIM_THRESHOLD),
            ],
            extents: &[(Kind::Top, 0x1_0000, 4016), (Kind::Foot, 0x1_0fb0, 80)],
            destroyed: 4096,
        },
        Given {
            rule: "granularities of 16 bytes",
            granularity: 16,
            gives: &[(0x1_0000, 4096, 0)],
            frees: true,
            parts: true,
            calls: &[
                Call::Malloc(1, Ok(0x1_0010)),
                Call::Trim(0, true),
                Call::TrimCheck(TRIM_THRESHOLD),
            ],
            extents: &[
                (Kind::Used, 0x1_0000, 32),
                (Kind::Top, 0x1_0020, 96),
                (Kind::Foot, 0x1_0080, 80),
            ],
            destroyed: 208,
        },
    ];
    for row in &rows {
        serve_given::<Brand, HostRuntime>(&rt, rt.alloc(), row, Blank::new(1))?;
    }
    Ok(())
}

#[test]
fn trims_that_give_nothing_back(rt: HostRuntime) -> Result<(), Fail> {
    let rows = [
        Given {
            rule: "the pad leaves no granularity, or is too large",
            granularity: 4096,
            gives: &[(0x1_0000, 20480, 0)],
            frees: true,
            parts: true,
            calls: &[
                Call::Malloc(20000, Ok(0x1_0010)),
                Call::Free(0x1_0010),
                Call::Trim(16304, false),
                Call::Trim(20319, false),
                Call::Trim(20320, false),
                Call::Trim(18_446_744_073_709_547_416, false),
                Call::Trim(18_446_744_073_709_547_417, false),
                Call::Trim(u64::MAX, false),
                Call::TrimCheck(TRIM_THRESHOLD),
            ],
            extents: &[(Kind::Top, 0x1_0000, 20400), (Kind::Foot, 0x1_4fb0, 80)],
            destroyed: 20480,
        },
        Given {
            rule: "the system takes no parts",
            granularity: 4096,
            gives: &[(0x1_0000, 20480, 0)],
            frees: true,
            parts: false,
            calls: &[
                Call::Malloc(20000, Ok(0x1_0010)),
                Call::Free(0x1_0010),
                Call::Trim(0, false),
                Call::TrimCheck(TRIM_THRESHOLD),
            ],
            extents: &[(Kind::Top, 0x1_0000, 20400), (Kind::Foot, 0x1_4fb0, 80)],
            destroyed: 20480,
        },
        Given {
            rule: "the system takes nothing",
            granularity: 4096,
            gives: &[(0x1_0000, 20480, 0)],
            frees: false,
            parts: true,
            calls: &[
                Call::Malloc(20000, Ok(0x1_0010)),
                Call::Free(0x1_0010),
                Call::Trim(0, false),
                Call::TrimCheck(TRIM_THRESHOLD),
            ],
            extents: &[(Kind::Top, 0x1_0000, 20400), (Kind::Foot, 0x1_4fb0, 80)],
            destroyed: 0,
        },
        Given {
            rule: "there is no top",
            granularity: 4096,
            gives: &[],
            frees: true,
            parts: true,
            calls: &[
                Call::Trim(0, false),
                Call::Malloc(1, NO_SPACE),
                Call::TrimCheck(0),
            ],
            extents: &[],
            destroyed: 0,
        },
        Given {
            rule: "a top above the trim check is given up",
            granularity: 65536,
            gives: &[(0x10_0000, 2_162_688, 0)],
            frees: true,
            parts: false,
            calls: &[
                Call::Malloc(8, Ok(0x10_0010)),
                Call::Trim(0, false),
                Call::TrimCheck(u64::MAX),
            ],
            extents: &[
                (Kind::Used, 0x10_0000, 32),
                (Kind::Top, 0x10_0020, 2_162_576),
                (Kind::Foot, 0x30_ffb0, 80),
            ],
            destroyed: 2_162_688,
        },
    ];
    for row in &rows {
        serve_given::<Brand, HostRuntime>(&rt, rt.alloc(), row, Blank::new(1))?;
    }
    Ok(())
}

#[test]
fn frees_trim_a_long_top(rt: HostRuntime) -> Result<(), Fail> {
    let rows = [
        Given {
            rule: "a top above the trim check is cut",
            granularity: 65536,
            gives: &[(0x10_0000, 4_194_304, 0)],
            frees: true,
            parts: true,
            calls: &[
                Call::Malloc(3_000_000, Ok(0x10_0010)),
                Call::Free(0x10_0010),
                Call::TrimCheck(TRIM_THRESHOLD),
            ],
            extents: &[(Kind::Top, 0x10_0000, 65456), (Kind::Foot, 0x10_ffb0, 80)],
            destroyed: 65536,
        },
        Given {
            rule: "one that is as long as the trim check stays",
            granularity: 65536,
            gives: &[(0x10_0000, 2_097_232, 0)],
            frees: true,
            parts: true,
            calls: &[
                Call::Malloc(2_000_000, Ok(0x10_0010)),
                Call::Free(0x10_0010),
                Call::TrimCheck(TRIM_THRESHOLD),
            ],
            extents: &[
                (Kind::Top, 0x10_0000, 2_097_152),
                (Kind::Foot, 0x30_0000, 80),
            ],
            destroyed: 2_097_232,
        },
        Given {
            rule: "where the system does not take the end, no later free tries",
            granularity: 65536,
            gives: &[(0x10_0000, 2_097_248, 0)],
            frees: false,
            parts: true,
            calls: &[
                Call::Malloc(2_000_000, Ok(0x10_0010)),
                Call::Free(0x10_0010),
                Call::TrimCheck(u64::MAX),
            ],
            extents: &[
                (Kind::Top, 0x10_0000, 2_097_168),
                (Kind::Foot, 0x30_0010, 80),
            ],
            destroyed: 0,
        },
        Given {
            rule: "the old block of a move is freed so too",
            granularity: 65536,
            gives: &[(0x10_0000, 4_194_304, 0)],
            frees: true,
            parts: true,
            calls: &[
                Call::Malloc(4000, Ok(0x10_0010)),
                Call::Aligned(3_000_000, 32, Ok(0x10_0fc0)),
                Call::Free(0x10_0010),
                Call::Realloc(0x10_0fc0, 3_000_000, 32, 100, Ok(0x10_0040)),
                Call::TrimCheck(TRIM_THRESHOLD),
            ],
            extents: &[
                (Kind::Free, 0x10_0000, 48),
                (Kind::Used, 0x10_0030, 128),
                (Kind::Top, 0x10_00b0, 65280),
                (Kind::Foot, 0x10_ffb0, 80),
            ],
            destroyed: 65536,
        },
    ];
    for row in &rows {
        serve_given::<Brand, HostRuntime>(&rt, rt.alloc(), row, Blank::new(1))?;
    }
    Ok(())
}
