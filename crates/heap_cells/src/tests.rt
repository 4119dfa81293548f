use crate::push_cells;
use heap_history::{Band, Ending, Held, Stay};
use std::alloc::{AllocError, Global};
use std::test::Fail;

const BANDS: [Band; 2] = [
    Band {
        low: 4096,
        high: 8292,
        folded: true,
        y: 68,
        height: 16,
    },
    Band {
        low: 0,
        high: 400,
        folded: false,
        y: 84,
        height: 8,
    },
];

fn stay(address: u64, size: u64, born: u64, end: u64) -> Stay {
    Stay {
        block: 0,
        address,
        size,
        born,
        end,
        ending: Ending::Freed,
    }
}

const HEAP: [Held; 2] = [
    Held {
        start: 0,
        pages: 1,
        born: 100,
        end: 1024,
    },
    Held {
        start: 4096,
        pages: 1,
        born: 600,
        end: 800,
    },
];

/// The stays below in 1,024 calls, by the prototype of this drawing.
const TEXT: &str = "\
<path class=\"sh\" d=\"M744 83h200M744 81h200M744 79h200M744 77h200M744 75h200M744 73h200M744 71h200M744 69h200\
M244 91h924M244 89h924M244 87h924M244 85h924\" stroke-width=\"2\"/>
<path class=\"su\" d=\"M656 87h512\" stroke-width=\"2\" opacity=\".25\"/>
<path class=\"su\" d=\"M844 69h200M144 89h512\" stroke-width=\"2\" opacity=\".5\"/>
<path class=\"su\" d=\"M146 85h2\" stroke-width=\"2\" opacity=\".75\"/>
<path class=\"su\" d=\"M144 91h512M656 89h512\" stroke-width=\"2\" opacity=\"1\"/>
";

#[test]
fn stays_are_bars(rt: HostRuntime) -> Result<(), Fail> {
    let stays = [
        stay(0, 150, 0, 512),
        stay(300, 0, 0, 1),
        stay(310, 60, 3, 5),
        stay(120, 100, 512, 1024),
        stay(8100, 184, 700, 900),
    ];
    let mut text = String::new(rt.alloc());
    push_cells(rt.alloc(), &mut text, 1024, &BANDS, &stays, &HEAP)?;
    assert_eq!(rt; text.as_str(), TEXT);
    Ok(())
}

#[test]
fn nothing_is_drawn_of_no_calls(rt: HostRuntime) -> Result<(), Fail> {
    let mut text = String::new(rt.alloc());
    push_cells(rt.alloc(), &mut text, 0, &BANDS, &[], &HEAP)?;
    assert_eq!(rt; text.as_str(), "");
    Ok(())
}

// Stays that take turns: each is there for four calls, and then for four there is none.
fn turns(alloc: Global) -> Result<Vec<Stay>, AllocError> {
    let mut stays = Vec::new(alloc);
    for turn in 0..128u64 {
        stays.push(stay(0, 4000, 8 * turn, 8 * turn + 4))?;
    }
    Ok(stays)
}

// 168 rows of 128 bars are more than 16,000 bars, and 84 are not.
#[test]
fn many_bars_have_greater_cells(rt: HostRuntime) -> Result<(), Fail> {
    let band = Band {
        low: 0,
        high: 4000,
        folded: false,
        y: 84,
        height: 336,
    };
    let stays = turns(rt.alloc())?;
    let mut text = String::new(rt.alloc());
    push_cells(rt.alloc(), &mut text, 1024, &[band], &stays, &[])?;
    assert!(rt; text.as_str().contains("M144 418h4M152 418h4"));
    assert!(rt; !text.as_str().contains("stroke-width=\"2\""));
    Ok(())
}
