// Calls of the machine, without the lines of the program.
use kernel_heap::{Bytes, Call, Config, Machine, Reply};
use measuring::Watch;
use std::alloc::{AllocError, Global};
use std::io;

const CONFIG: Config = Config {
    base: 0x40_0000,
    pages: 0x10_0000,
    granularity: 65536,
    frames: 40_000,
    rate: 4095,
};

/// Makes a call in each round, and answers how often it was not refused.
fn repeat(machine: &mut Machine, call: &Call, rounds: u32) -> Result<u32, AllocError> {
    let mut served = 0u32;
    for _ in 0..rounds {
        match machine.step(call)?.reply {
            Reply::Refused(_) => {}
            _ => served = served.saturating_add(1),
        }
    }
    Ok(served)
}

/// Asks for a block in each round, ends it each time, and answers how often it was given.
fn repeat_and_free(machine: &mut Machine, call: &Call, rounds: u32) -> Result<u32, AllocError> {
    let mut given = 0u32;
    for _ in 0..rounds {
        if let Reply::Block { number, .. } = machine.step(call)?.reply {
            machine.step(&Call::Free { block: number })?;
            given = given.saturating_add(1);
        }
    }
    Ok(given)
}

/// Makes a call again and again, ends the block that each gives if that is asked for, and says what it took.
fn measure_call(
    rt: &HostRuntime,
    machine: &mut Machine,
    name: &str,
    call: &Call,
) -> io::Result<()> {
    let rounds = 1_000;
    let watch = Watch::start(rt)?;
    let served = repeat(machine, call, rounds)?;
    let mean = watch.mean(rt, rounds)?;
    println!(rt; "  {name}: {served} served")?;
    eprintln!(rt; "  {name} {mean:?}")
}

fn measure_blocks(
    rt: &HostRuntime,
    machine: &mut Machine,
    name: &str,
    call: &Call,
) -> io::Result<()> {
    let rounds = 1_000;
    let watch = Watch::start(rt)?;
    let given = repeat_and_free(machine, call, rounds)?;
    let mean = watch.mean(rt, rounds)?;
    println!(rt; "  {name} and free: {given} blocks given")?;
    eprintln!(rt; "  {name} and free {mean:?}")
}

/// A call that writes 4000 bytes into the first block.
fn write_of(alloc: Global) -> Result<Call, AllocError> {
    Ok(Call::Write {
        block: 0,
        offset: 0,
        bytes: Bytes::from_vec(vec![in alloc; 0xab; 4000]?),
    })
}

/// Measures beside this number of live blocks.
pub(crate) fn measure(rt: &HostRuntime, blocks: u32) -> io::Result<()> {
    let alloc = rt.alloc();
    let Ok(mut machine) = Machine::new(alloc, &CONFIG) else {
        return Err(io::Error::from(io::ErrorKind::OutOfMemory));
    };
    let machine = &mut machine;
    let large = Call::Malloc {
        size: 4000,
        align: 16,
    };
    let small = Call::Malloc {
        size: 100,
        align: 16,
    };
    let cleared = Call::Calloc {
        size: 4000,
        align: 16,
    };
    let read = Call::Read {
        block: 0,
        offset: 0,
        length: 4000,
    };
    repeat(machine, &large, 1)?;
    let given = repeat(machine, &small, blocks)?;
    println!(rt; "{given} blocks:")?;
    eprintln!(rt; "{given} blocks:")?;
    measure_blocks(rt, machine, "malloc 100", &small)?;
    measure_blocks(rt, machine, "calloc 4000", &cleared)?;
    measure_call(rt, machine, "write of 4000 bytes", &write_of(alloc)?)?;
    measure_call(rt, machine, "read of 4000 bytes", &read)
}
