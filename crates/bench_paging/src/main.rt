//! Measures page tables: for each number of the command line, that many pages that are mapped, walked to and unmapped,
//! a region of that many pages with large pages and without, a memory with that many regions, and an address space with
//! that many areas.
//!
//! Standard output says what the calls found, standard error what processor time each took.
#![tactic(auto)]

mod regions;
mod slots;
mod spaces;
mod tables;

use measuring::numbers;
use paging_core::Rights;
use std::io;

const DATA: Rights = Rights {
    write: true,
    user: false,
    fetch: false,
};

const CODE: Rights = Rights {
    write: false,
    user: true,
    fetch: true,
};

/// The most pages, regions and areas that are measured.
const MOST: u32 = 1 << 20;

fn main(rt: HostRuntime) -> io::Result<()> {
    for number in numbers(&rt, rt.alloc())? {
        let number = number.min(MOST);
        if number != 0 {
            tables::measure(&rt, number)?;
            slots::measure(&rt, number)?;
        }
        regions::measure(&rt, number)?;
        spaces::measure(&rt, number)?;
    }
    Ok(())
}
