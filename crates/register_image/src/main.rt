//! The program `register_image`: descriptor tables and values of registers as the types of x86_tables and x86_registers make
//! them, and what these types say of vectors and error codes.
#![tactic(auto)]

mod breakpoints;
mod gates;
mod meanings;
mod numbers;
mod segments;
mod values;

use breakpoints::push_breakpoints;
use gates::{Gate, push_table};
use meanings::{push_exception, push_page_fault_code, push_selector_code};
use paging_core::VirtAddr;
use segments::push_segments;
use std::alloc::Global;
use std::io;
use values::{push_descriptor, push_mxcsr, push_register, push_states};
use x86_flags::{DebugAddressRegisterNumber, PrivilegeLevel};
use x86_registers::control::{Cr0, Cr4, Efer};
use x86_tables::tss::TaskStateSegment;

const VERSION: &str = "\
register_image 0.1.0
";

const HELP: &str = "\
register_image 0.1.0: descriptor tables and values of registers

Usage: register_image

Answers each line of standard input. Numbers are of hexadecimal digits, and NAMES are
names of flags, as WRITE_PROTECT.

  gdt AT WORD TSS MAP BASE RSP0 IST1..IST7 BYTE..
                     a global descriptor table at AT of the null descriptor, of code and
                     data of the kernel, of data and code of users, of WORD, and of the
                     task state segment at TSS, whose map of ports is at MAP and has these
                     bytes: the lines `selectors`, `gdt`, `gdtr` and `tss`
  idt AT SELECTOR GATE..
                     an interrupt descriptor table at AT: the line `idtr`, and a line
                     `gate` for each vector. A GATE is VECTOR HANDLER RING STACK OFF
                     PRESENT, where STACK 0 is none, and OFF and PRESENT are 0 or 1
  cr0, cr4, efer, mxcsr NAMES
                     what the register holds after these flags were written to it
  xcr0 NAMES         the flags' bits, and `written`, or why they cannot be
  descriptor NAMES   the word of a segment descriptor
  dr7 NUMBER         a line `breakpoint` for each breakpoint of a debug address register:
                     what it waits for, its bytes, and DR7
  exception VECTOR   the name of the exception
  selector CODE      which selector an error code names
  page-fault CODE    which flags of a page fault's error code are set
";

fn parsed(alloc: Global, words: &[&str]) -> anyhow::Result<Vec<u64>> {
    let mut found = Vec::new(alloc);
    for word in words {
        found.push(u64::from_str_radix(word, 16)?)?;
    }
    Ok(found)
}

fn address(number: u64) -> anyhow::Result<VirtAddr> {
    match VirtAddr::try_new(number) {
        Ok(address) => Ok(address),
        Err(_) => anyhow::bail!("an address is not canonical"),
    }
}

// A number of 16 bits.
fn short(number: u64) -> anyhow::Result<u16> {
    if number >= 1 << 16 {
        anyhow::bail!("a number is too great");
    }
    Ok(number as u16)
}

fn byte(number: u64) -> anyhow::Result<u8> {
    if number >= 1 << 8 {
        anyhow::bail!("a number is too great");
    }
    Ok(number as u8)
}

fn gates_of(alloc: Global, numbers: &[u64]) -> anyhow::Result<Vec<Gate>> {
    let mut found = Vec::new(alloc);
    let mut rest = numbers;
    while let [vector, handler, ring, stack, off, present, behind @ ..] = rest {
        let Some(ring) = PrivilegeLevel::try_from_u16(short(*ring)?) else {
            anyhow::bail!("there is no such ring");
        };
        found.push(Gate {
            vector: byte(*vector)?,
            handler: address(*handler)?,
            ring,
            stack: short(*stack)?,
            off: *off == 1,
            present: *present == 1,
        })?;
        rest = behind;
    }
    Ok(found)
}

fn interrupt_table(alloc: Global, out: &mut String, numbers: &[u64]) -> anyhow::Result<()> {
    let [at, selector, rest @ ..] = numbers else {
        anyhow::bail!("too few numbers");
    };
    let gates = gates_of(alloc, rest)?;
    push_table(out, address(*at)?, short(*selector)?, gates.as_slice())?;
    Ok(())
}

fn global_table(alloc: Global, out: &mut String, numbers: &[u64]) -> anyhow::Result<()> {
    let [
        at,
        given,
        tss_at,
        map_at,
        base,
        rsp0,
        ist1,
        ist2,
        ist3,
        ist4,
        ist5,
        ist6,
        ist7,
        rest @ ..,
    ] = numbers
    else {
        anyhow::bail!("too few numbers");
    };
    let mut map = Vec::new(alloc);
    for number in rest {
        map.push(byte(*number)?)?;
    }
    let none = VirtAddr::zero();
    let tss = TaskStateSegment {
        privilege_stack_table: [address(*rsp0)?, none, none],
        interrupt_stack_table: [
            address(*ist1)?,
            address(*ist2)?,
            address(*ist3)?,
            address(*ist4)?,
            address(*ist5)?,
            address(*ist6)?,
            address(*ist7)?,
        ],
        iomap_base: short(*base)?,
    };
    let (at, tss_at, map_at) = (address(*at)?, address(*tss_at)?, address(*map_at)?);
    push_segments(out, at, *given, tss_at, &tss, map_at, map.as_slice())?;
    Ok(())
}

fn breakpoints_of(out: &mut String, numbers: &[u64]) -> anyhow::Result<()> {
    let [number] = numbers else {
        anyhow::bail!("a number is wanted");
    };
    let Some(register) = DebugAddressRegisterNumber::new(byte(*number)?) else {
        anyhow::bail!("there is no such register");
    };
    push_breakpoints(out, register)?;
    Ok(())
}

// Answers a command that has a number.
fn about_number(out: &mut String, command: &str, number: u64) -> anyhow::Result<()> {
    match command {
        "exception" => push_exception(out, byte(number)?)?,
        "selector" => push_selector_code(out, number)?,
        "page-fault" => push_page_fault_code(out, number)?,
        _ => anyhow::bail!("there is no such command"),
    }
    Ok(())
}

fn answer(alloc: Global, out: &mut String, words: &[&str]) -> anyhow::Result<()> {
    let [command, rest @ ..] = words else {
        return Ok(());
    };
    match *command {
        "gdt" => return global_table(alloc, out, &parsed(alloc, rest)?),
        "idt" => return interrupt_table(alloc, out, &parsed(alloc, rest)?),
        "dr7" => return breakpoints_of(out, &parsed(alloc, rest)?),
        _ => {}
    }
    out.push_str(command)?;
    match *command {
        "cr0" => push_register::<Cr0>(out, rest)?,
        "cr4" => push_register::<Cr4>(out, rest)?,
        "efer" => push_register::<Efer>(out, rest)?,
        "mxcsr" => push_mxcsr(out, rest)?,
        "xcr0" => push_states(out, rest)?,
        "descriptor" => push_descriptor(out, rest)?,
        _ => match parsed(alloc, rest)?.as_slice() {
            [number] => about_number(out, command, *number)?,
            _ => anyhow::bail!("a number is wanted"),
        },
    }
    out.push_str("\n")?;
    Ok(())
}

fn answers(alloc: Global, text: &str) -> anyhow::Result<String> {
    let mut out = String::new(alloc);
    for line in text.split('\n') {
        let mut words: Vec<&str> = Vec::new(alloc);
        for word in line.split_whitespace() {
            words.push(word)?;
        }
        answer(alloc, &mut out, words.as_slice())?;
    }
    Ok(out)
}

fn main(rt: HostRuntime) -> anyhow::Result<()> {
    let alloc = rt.alloc();
    let arguments: Vec<String> = std::env::args(&rt)?.collect(alloc)?;
    match arguments.as_slice() {
        [_, word] if word.as_bytes() == b"--help".as_slice() => print!(rt; "{HELP}")?,
        [_, word] if word.as_bytes() == b"--version".as_slice() => print!(rt; "{VERSION}")?,
        _ => {
            let given = io::read_to_string(alloc, rt.reader())?;
            let text = answers(alloc, &given)?;
            print!(rt; "{text}")?
        }
    }
    Ok(())
}
