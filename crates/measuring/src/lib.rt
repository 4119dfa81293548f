//! What the programs that measure share: the numbers that the command line gives, and the processor time of a loop.
#![tactic(auto)]

use std::alloc::Global;
use std::rt::Env;
use std::time::{CpuClock, Duration};
use std::{env, io};

/// The numbers after the program's own name. A word that is no number is an error.
pub fn numbers<R: Env + Alloc>(rt: &R, alloc: Global) -> io::Result<Vec<u32>> {
    let mut numbers = Vec::new(alloc);
    for word in env::args(rt)?.skip(1) {
        match word.as_str().parse::<u32>() {
            Ok(number) => numbers.push(number)?,
            Err(_) => return Err(io::Error::from(io::ErrorKind::InvalidInput)),
        }
    }
    Ok(numbers)
}

/// The moment at which a loop began, by the processor time of the process: what other processes take is not in it.
#[derive(Clone, Copy)]
pub struct Watch {
    start: Duration,
}

impl Watch {
    pub fn start(rt: &impl CpuClock) -> io::Result<Watch> {
        Ok(Watch {
            start: rt.process_cpu_time()?,
        })
    }

    /// The processor time since then, for each of `rounds` rounds.
    pub fn mean(self, rt: &impl CpuClock, rounds: u32) -> io::Result<Duration> {
        let taken = rt.process_cpu_time()?.saturating_sub(self.start);
        Ok(taken / rounds.max(1))
    }
}
