//! The registers of the machine: what a fault leaves in CR2, and which root table CR3 names.
use crate::checks::{machine_of, same};
use crate::tests::DEFAULT;
use heap_program::{parse_call, text_of};
use kernel_heap::Machine;
use std::alloc::Global;
use std::process::Abort;
use std::test::Fail;
use x86_registers::FlagRegister;
use x86_registers::control::{Cr0, Cr2, Cr3, Cr4, Efer};

/// A line, its answer, and what CR2 has after it.
struct Line {
    line: &'static str,
    answer: &'static str,
    cr2: u64,
}

const LINES: [Line; 11] = [
    Line {
        line: "malloc 4",
        answer: "block 0 0x400010\nheap 0x400000+16\n",
        cr2: 0,
    },
    Line {
        line: "write 0 0 41",
        answer: "done\n",
        cr2: 0,
    },
    // A byte that is shown is no fault.
    Line {
        line: "probe 0x400010 read",
        answer: "byte 41\n",
        cr2: 0,
    },
    Line {
        line: "probe 0x400010 fetch",
        answer: "fault 0x11\n",
        cr2: 0x40_0010,
    },
    Line {
        line: "probe 0x400011 read user",
        answer: "fault 0x5\n",
        cr2: 0x40_0011,
    },
    Line {
        line: "probe 0x300000 write user",
        answer: "fault 0x6\n",
        cr2: 0x30_0000,
    },
    // What is refused is no fault, and neither is another call.
    Line {
        line: "probe 0x800000000000 read",
        answer: "refused not-canonical\n",
        cr2: 0x30_0000,
    },
    Line {
        line: "map 0x300000 1 rw--",
        answer: "done\n",
        cr2: 0x30_0000,
    },
    Line {
        line: "free 1",
        answer: "refused unknown-block\n",
        cr2: 0x30_0000,
    },
    // A reset leaves the registers, and the page of the block is not mapped any more.
    Line {
        line: "reset",
        answer: "released 65536\nheap none\n",
        cr2: 0x30_0000,
    },
    Line {
        line: "probe 0x400010 write",
        answer: "fault 0x2\n",
        cr2: 0x40_0010,
    },
];

/// Looks for the answer to a line, and for the registers after it.
fn expect_line(
    rt: &impl Abort,
    alloc: Global,
    machine: &mut Machine,
    row: &Line,
) -> Result<(), Fail> {
    let Some(call) = parse_call(alloc, row.line.as_bytes())? else {
        panic!(rt; "no call");
    };
    let answer = machine.step(&call)?;
    let text = text_of(alloc, &answer)?;
    assert_eq!(rt; text.as_slice(), row.answer.as_bytes(), "for {}", row.line);
    assert_eq!(rt; Cr2::read_raw(machine.cpu()), row.cr2, "for {}", row.line);
    let (root, _) = Cr3::read(machine.cpu());
    assert_eq!(rt; root, machine.system().root(), "for {}", row.line);
    Ok(())
}

#[test]
fn faults_leave_their_address(rt: HostRuntime) -> Result<(), Fail> {
    let mut machine = machine_of(&rt, rt.alloc(), &DEFAULT);
    for row in &LINES {
        expect_line(&rt, rt.alloc(), &mut machine, row)?;
    }
    Ok(())
}

#[test]
fn paging_is_on(rt: HostRuntime) -> Result<(), Fail> {
    let machine = machine_of(&rt, rt.alloc(), &DEFAULT);
    let cpu = machine.cpu();
    same(&rt, Cr0::read_raw(cpu), 0x8001_0001);
    same(&rt, Cr4::read_raw(cpu), 0x20);
    same(&rt, Efer::read_raw(cpu), 0xD00);
    same(&rt, Cr3::read_raw(cpu), (machine.system().root(), 0));
    same(&rt, Cr2::read_raw(cpu), 0);
    same(&rt, cpu.rflags, 2);
    same(&rt, cpu.mxcsr, 0x1F80);
    Ok(())
}
