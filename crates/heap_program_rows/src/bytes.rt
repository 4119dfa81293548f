//! Bytes that are written and read at each place of a word, also where a page ends; cleared blocks, and copied ones.
ghost use Rattle.std.specs.Prelude.{◌≤◌};

use crate::checks::machine_of;
use crate::tests::DEFAULT;
use kernel_heap::{Bytes, Call, Config, Machine, Reply};
use std::alloc::{AllocError, Global};
use std::process::Abort;
use std::test::Fail;

/// Puts bytes into a block.
fn write(machine: &mut Machine, block: u64, offset: u64, bytes: Vec<u8>) -> Result<(), AllocError> {
    machine.step(&Call::Write {
        block,
        offset,
        bytes: Bytes::from_vec(bytes),
    })?;
    Ok(())
}

/// Whether these are the bytes of a block from an offset on.
fn has(machine: &mut Machine, block: u64, offset: u64, bytes: &[u8]) -> Result<bool, AllocError> {
    let answer = machine.step(&Call::Read {
        block,
        offset,
        length: bytes.len() as u64,
    })?;
    match &answer.reply {
        Reply::Bytes(found) => Ok(found.as_slice() == bytes),
        _ => Ok(false),
    }
}

/// This number of bytes, none of value 0 or 255, of which two that are eight or 4096 apart differ.
fn numbered(alloc: Global, count: u64) -> Result<Vec<u8>, AllocError> {
    let mut bytes = Vec::new(alloc);
    for k in 0..count {
        bytes.push((k % 251 + 1) as u8)?;
    }
    Ok(bytes)
}

/// Forty-eight bytes of value 255, but for these from the sixteenth on.
fn among_full(alloc: Global, some: &[u8]) -> Result<Vec<u8>, AllocError> {
    let mut bytes = Vec::new(alloc);
    for k in 0..48usize {
        let byte = some.get(k.wrapping_sub(16)).unwrap_or(&0xff);
        bytes.push(*byte)?;
    }
    Ok(bytes)
}

/// Whether bytes that are put at an offset of a block are read there, between those that were there before.
fn keeps_neighbours(
    alloc: Global,
    machine: &mut Machine,
    offset: u64,
    count: u64,
) -> Result<bool, AllocError>
    requires from { 16 ≤ offset }
{
    let some = numbered(alloc, count)?;
    let around = among_full(alloc, &some)?;
    write(machine, 0, offset - 16, vec![in alloc; 0xff; 48]?)?;
    write(machine, 0, offset, numbered(alloc, count)?)?;
    Ok(has(machine, 0, offset, &some)? && has(machine, 0, offset - 16, &around)?)
}

/// Puts bytes at each place of two words of a block, and looks that they are there.
fn put_at_each_place(rt: &impl Abort, alloc: Global, machine: &mut Machine) -> Result<(), Fail> {
    machine.step(&Call::Malloc {
        size: 8000,
        align: 16,
    })?;
    // The block is at 0x400010. The first of these words is amid a page, the other is the last of its page.
    for (first, behind) in [(1024, 1032), (4072, 4080)] {
        for offset in first..behind {
            for count in 0..18 {
                let kept = keeps_neighbours(alloc, machine, offset, count)?;
                assert!(rt; kept, "{count} bytes at {offset}");
            }
        }
    }
    Ok(())
}

#[test]
fn bytes_are_put_at_each_place(rt: HostRuntime) -> Result<(), Fail> {
    let mut machine = machine_of(&rt, rt.alloc(), &DEFAULT);
    put_at_each_place(&rt, rt.alloc(), &mut machine)
}

/// Sizes of blocks: less than a word, some words, up to the end of a page and over it, and many pages.
const SIZES: [u64; 8] = [1, 24, 4072, 4080, 4088, 8200, 20000, 60000];

/// Fills a block, frees it, and looks that a cleared one of its size has no byte of it.
fn clear(rt: &impl Abort, alloc: Global, machine: &mut Machine, size: u64) -> Result<(), Fail> {
    machine.step(&Call::Malloc { size, align: 16 })?;
    write(machine, 0, 0, vec![in alloc; 0xff; size as usize]?)?;
    machine.step(&Call::Free { block: 0 })?;
    machine.step(&Call::Calloc { size, align: 16 })?;
    let zeros = vec![in alloc; 0; size as usize]?;
    assert!(rt; has(machine, 1, 0, &zeros)?, "{size} bytes");
    Ok(())
}

#[test]
fn blocks_are_cleared(rt: HostRuntime) -> Result<(), Fail> {
    for size in SIZES {
        let mut machine = machine_of(&rt, rt.alloc(), &DEFAULT);
        clear(&rt, rt.alloc(), &mut machine, size)?;
    }
    Ok(())
}

/// Looks that a block that moves to have another size keeps its bytes.
fn copy(rt: &impl Abort, alloc: Global, machine: &mut Machine, size: u64) -> Result<(), Fail> {
    machine.step(&Call::Malloc { size, align: 16 })?;
    // The block behind it keeps it from growing where it is.
    machine.step(&Call::Malloc { size: 8, align: 16 })?;
    write(machine, 0, 0, numbered(alloc, size)?)?;
    machine.step(&Call::Realloc {
        block: 0,
        size: 70000,
    })?;
    let kept = numbered(alloc, size)?;
    assert!(rt; has(machine, 0, 0, &kept)?, "{size} bytes");
    Ok(())
}

#[test]
fn blocks_are_copied(rt: HostRuntime) -> Result<(), Fail> {
    for size in SIZES {
        let mut machine = machine_of(&rt, rt.alloc(), &DEFAULT);
        copy(&rt, rt.alloc(), &mut machine, size)?;
    }
    Ok(())
}

/// Puts bytes into two slots of a block, and looks that each is read where it was put.
fn use_two_slots(rt: &impl Abort, alloc: Global, machine: &mut Machine) -> Result<(), Fail> {
    machine.step(&Call::Malloc {
        size: 0x200_0010,
        align: 16,
    })?;
    // The slots of these bytes have numbers that are 16 apart. One is a large page, the other has a table.
    for (offset, byte) in [(0, 1), (0x200_0000, 2)] {
        write(machine, 0, offset, vec![in alloc; byte; 1]?)?;
    }
    for (offset, byte) in [(0, 1), (0x200_0000, 2), (0, 1)] {
        let kept = vec![in alloc; byte; 1]?;
        assert!(rt; has(machine, 0, offset, &kept)?, "at {offset}");
    }
    Ok(())
}

#[test]
fn slots_that_share_a_place(rt: HostRuntime) -> Result<(), Fail> {
    let config = Config {
        pages: 9000,
        frames: 9100,
        ..DEFAULT
    };
    let mut machine = machine_of(&rt, rt.alloc(), &config);
    use_two_slots(&rt, rt.alloc(), &mut machine)
}
