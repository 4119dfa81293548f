//! Measures the heap: for each number of the command line, blocks over plain words, and calls of the machine, beside so
//! many live blocks.
//!
//! Standard output says what the calls answered, standard error what processor time each took.
#![tactic(auto)]

mod blocks;
mod calls;
mod counted;

use measuring::numbers;
use std::io;

/// The most blocks that are measured.
const MOST: u32 = 1 << 20;

fn main(rt: HostRuntime) -> io::Result<()> {
    for number in numbers(&rt, rt.alloc())? {
        let number = number.min(MOST);
        blocks::measure(&rt, number)?;
        calls::measure(&rt, number)?;
    }
    Ok(())
}
