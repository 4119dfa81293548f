ghost use Rattle.std.specs.Prelude.{◌≡◌, ◌%◌, ◌^◌};

use crate::checks::same;
use bitflags::Flags;
use paging_core::{NotGiantPageSize, Page, PageRange, Size2MiB, Size4KiB, VirtAddr};
use std::alloc::{AllocError, Global};
use std::test::Fail;
use x86_instructions::interrupts;
use x86_instructions::port::{
    MemoryPorts, Port, PortAccess, PortAccessed, PortRead, PortReadOnly, PortWrite, PortWriteOnly,
    ReadOnlyAccess, ReadWriteAccess, WriteOnlyAccess,
};
use x86_instructions::smap::Smap;
use x86_instructions::tables::{lgdt, lidt, load_tss, sgdt, sidt};
use x86_instructions::tlb::{
    AsidOutOfRangeError, FlushCommand, FlushList, InvPcidCommand, Invlpgb, Pcid, flush, flush_all,
    flush_pcid,
};
use x86_registers::rflags::RFlags;
use x86_registers::segmentation::SegmentSelector;
use x86_registers::{Cpu, DescriptorTablePointer};

#[test]
fn interrupts_are_switched_by_their_flag(rt: HostRuntime) {
    let mut cpu = Cpu::new();
    assert!(rt; !interrupts::are_enabled(&cpu));
    interrupts::enable(&mut cpu);
    assert!(rt; interrupts::are_enabled(&cpu));
    same(&rt, cpu.rflags, 2 | RFlags::INTERRUPT_FLAG.bits());
    let seen = interrupts::without_interrupts(&mut cpu, |cpu| cpu.rflags);
    same(&rt, seen, 2);
    same(&rt, cpu.rflags, 0x202);
    interrupts::disable(&mut cpu);
    same(&rt, cpu.rflags, 2);
}

#[test]
fn access_prevention_is_switched_by_its_flag(rt: HostRuntime) {
    let mut cpu = Cpu::new();
    assert!(rt; Smap::new(&cpu).is_none());
    cpu.smap = true;
    assert!(rt; Smap::new(&cpu).is_some());
    let smap = Smap::new_unchecked();
    assert!(rt; smap.is_enabled(&cpu));
    smap.disable(&mut cpu);
    same(&rt, cpu.rflags, 2 | RFlags::ALIGNMENT_CHECK.bits());
    assert!(rt; !smap.is_enabled(&cpu));
    smap.enable(&mut cpu);
    same(&rt, cpu.rflags, 2);
    let seen = smap.without_smap(&mut cpu, |cpu| cpu.rflags);
    same(&rt, seen, 0x4_0002);
    same(&rt, cpu.rflags, 2);
}

#[test]
fn tables_are_where_they_were_loaded(rt: HostRuntime) {
    let mut cpu = Cpu::new();
    let gdt = DescriptorTablePointer {
        limit: 0x37,
        base: VirtAddr::new(0x1000),
    };
    let idt = DescriptorTablePointer {
        limit: 0xFFF,
        base: VirtAddr::new(0xFFFF_8000_0000_0000),
    };
    lgdt(&mut cpu, &gdt);
    lidt(&mut cpu, &idt);
    load_tss(&mut cpu, SegmentSelector(0x30));
    same(&rt, sgdt(&cpu).to_bytes(), gdt.to_bytes());
    same(&rt, sidt(&cpu).to_bytes(), idt.to_bytes());
    same(&rt, cpu.tr, 0x30);
}

#[test]
fn a_port_makes_accesses_of_its_width(rt: HostRuntime) -> Result<(), Fail> {
    let mut ports = MemoryPorts::new(0x1_2345);
    same(&rt, ports.last(), None);
    let mut port: Port<u16> = Port::new(0x60);
    same(&rt, port.read(&mut ports), 0x2345);
    let read = PortAccessed {
        port: 0x60,
        width: 16,
        write: false,
        value: 0x2345,
    };
    same(&rt, ports.last(), Some(read));
    port.write(&mut ports, 7);
    let written = PortAccessed {
        write: true,
        value: 7,
        ..read
    };
    same(&rt, ports.last(), Some(written));
    assert!(rt; port == port.clone()?);
    assert!(rt; port != Port::new(0x61));
    same(
        &rt,
        format!(in rt.alloc(); "{port:?}")?.as_str(),
        "PortGeneric { port: 96, access: ReadWrite }",
    );
    Ok(())
}

/// What a caller shows of a read of ports in memory: it answers the low bits of their value.
fn first_read<T: PortRead>(value: u32, number: u16) -> T
    ensures { T.number result ≡ value % 2 ^ T.width }
{
    let mut ports = MemoryPorts::new(value);
    let mut port: PortReadOnly<T> = PortReadOnly::new(number);
    port.read(&mut ports)
}

#[test]
fn ports_of_each_width_and_leave(rt: HostRuntime) {
    let mut ports = MemoryPorts::new(0xFEDC_BA98);
    same(&rt, first_read::<u8>(0xFEDC_BA98, 0x60), 0x98);
    same(&rt, u8::read_from_port(&mut ports, 1), 0x98);
    same(&rt, u32::read_from_port(&mut ports, 2), 0xFEDC_BA98);
    let mut input: PortReadOnly<u8> = PortReadOnly::new(0x60);
    same(&rt, input.read(&mut ports), 0x98);
    let mut output: PortWriteOnly<u32> = PortWriteOnly::new(0xCF8);
    output.write(&mut ports, 0x8000_0000);
    let written = PortAccessed {
        port: 0xCF8,
        width: 32,
        write: true,
        value: 0x8000_0000,
    };
    same(&rt, ports.last(), Some(written));
    u8::write_to_port(&mut ports, 0x20, 0x20);
    u16::write_to_port(&mut ports, 0x1F0, 0xFFFF);
    same(&rt, ports.last().map(|access| access.width), Some(16));
    same(&rt, ReadOnlyAccess::DEBUG_STR, "ReadOnly");
    same(&rt, WriteOnlyAccess::DEBUG_STR, "WriteOnly");
    same(&rt, ReadWriteAccess::DEBUG_STR, "ReadWrite");
}

#[test]
fn flushes_are_appended_in_order(rt: HostRuntime) -> Result<(), Fail> {
    let mut list = FlushList::new(rt.alloc());
    assert!(rt; list.is_empty());
    let mut cpu = Cpu::new();
    cpu.cr3 = 0xFFF0_0000_0012_3FFF;
    let address = VirtAddr::new(0x1000);
    let five = Pcid::new(5)?;
    flush(&mut list, address)?;
    flush_pcid(&mut list, InvPcidCommand::Single(five))?;
    flush_all(&mut list, &mut cpu)?;
    flush_pcid(&mut list, InvPcidCommand::Address(address, five))?;
    flush_pcid(&mut list, InvPcidCommand::All)?;
    flush_pcid(&mut list, InvPcidCommand::AllExceptGlobal)?;
    let wanted = [
        FlushCommand::Invlpg(address),
        FlushCommand::Invpcid {
            kind: 1,
            pcid: 5,
            address: 0,
        },
        FlushCommand::ReloadCr3,
        FlushCommand::Invpcid {
            kind: 0,
            pcid: 5,
            address: 0x1000,
        },
        FlushCommand::Invpcid {
            kind: 2,
            pcid: 0,
            address: 0,
        },
        FlushCommand::Invpcid {
            kind: 3,
            pcid: 0,
            address: 0,
        },
    ];
    same(&rt, list.as_slice(), wanted.as_slice());
    same(&rt, list.len(), 6);
    same(&rt, list.get(2), Some(&FlushCommand::ReloadCr3));
    same(&rt, list.get(6), None);
    // The frame and the two flags stay.
    same(&rt, cpu.cr3, 0x12_3018);
    Ok(())
}

/// A processor with four address space identifiers.
fn invlpgb(count_max: u16) -> Option<Invlpgb> {
    let mut cpu = Cpu::new();
    cpu.invlpgb = true;
    cpu.tlb_flush_nested = true;
    cpu.nasid = 4;
    cpu.invlpgb_count_max = count_max;
    Invlpgb::new(&cpu)
}

fn page<S: NotGiantPageSize>(address: u64) -> Page<S> {
    Page::containing_address(VirtAddr::new_truncate(address))
}

/// The commands of the pages from one address up to another.
fn commands<S: NotGiantPageSize>(
    alloc: Global,
    count_max: u16,
    first: u64,
    end: u64,
) -> Result<FlushList, AllocError> {
    let mut list = FlushList::new(alloc);
    let pages: PageRange<S> = Page::range(page(first), page(end));
    if let Some(invlpgb) = invlpgb(count_max) {
        invlpgb.build().pages(pages).flush(&mut list)?;
    }
    Ok(list)
}

/// A range, the greatest count that the processor takes, and RAX and ECX of each command.
struct Row<'a> {
    first: u64,
    end: u64,
    count_max: u16,
    words: &'a [(u64, u32)],
}

const ROWS_4KIB: &[Row<'static>] = &[
    Row {
        first: 0x5000,
        end: 0x5000,
        count_max: 7,
        words: &[],
    },
    Row {
        first: 0x6000,
        end: 0x5000,
        count_max: 7,
        words: &[],
    },
    Row {
        first: 0x5000,
        end: 0x6000,
        count_max: 7,
        words: &[(0x5001, 1)],
    },
    Row {
        first: 0x5000,
        end: 0x6000,
        count_max: 0,
        words: &[(0x5001, 0)],
    },
    Row {
        first: 0xF000_0000,
        end: 0xF000_2000,
        count_max: 1,
        words: &[(0xF000_0001, 1), (0xF000_1001, 1)],
    },
    Row {
        first: 0,
        end: 0xF000,
        count_max: 7,
        words: &[(1, 7), (0x7001, 7), (0xE001, 1)],
    },
    // Up to the gap, over it, and from it on.
    Row {
        first: 0x7FFF_FFFF_E000,
        end: 0xFFFF_8000_0000_0000,
        count_max: 7,
        words: &[(0x7FFF_FFFF_E001, 2)],
    },
    Row {
        first: 0x7FFF_FFFF_E000,
        end: 0xFFFF_8000_0000_1000,
        count_max: 7,
        words: &[(0x7FFF_FFFF_E001, 2), (0xFFFF_8000_0000_0001, 1)],
    },
    Row {
        first: 0x7FFF_FFFF_F000,
        end: 0xFFFF_8000_0000_1000,
        count_max: 0,
        words: &[(0x7FFF_FFFF_F001, 0), (0xFFFF_8000_0000_0001, 0)],
    },
    Row {
        first: 0xFFFF_8000_0000_0000,
        end: 0xFFFF_8000_0000_2000,
        count_max: 7,
        words: &[(0xFFFF_8000_0000_0001, 2)],
    },
    // 65535 pages, and one more.
    Row {
        first: 0,
        end: 0xFFF_F000,
        count_max: 65535,
        words: &[(1, 65535)],
    },
    Row {
        first: 0,
        end: 0x1000_0000,
        count_max: 65535,
        words: &[(1, 65535), (0xFFF_F001, 1)],
    },
    Row {
        first: 0xFFFF_FFFF_FFFF_E000,
        end: 0xFFFF_FFFF_FFFF_F000,
        count_max: 7,
        words: &[(0xFFFF_FFFF_FFFF_E001, 1)],
    },
];

const ROWS_2MIB: &[Row<'static>] = &[
    Row {
        first: 0x40_0000,
        end: 0x40_0000,
        count_max: 7,
        words: &[],
    },
    Row {
        first: 0x40_0000,
        end: 0xA0_0000,
        count_max: 7,
        words: &[(0x40_0001, 0x8000_0003)],
    },
    Row {
        first: 0x40_0000,
        end: 0x80_0000,
        count_max: 0,
        words: &[(0x40_0001, 0x8000_0000), (0x60_0001, 0x8000_0000)],
    },
    Row {
        first: 0x7FFF_FFE0_0000,
        end: 0xFFFF_8000_0020_0000,
        count_max: 7,
        words: &[
            (0x7FFF_FFE0_0001, 0x8000_0001),
            (0xFFFF_8000_0000_0001, 0x8000_0001),
        ],
    },
    Row {
        first: 0,
        end: 0x20_0000_0000,
        count_max: 65535,
        words: &[(1, 0x8000_FFFF), (0x1F_FFE0_0001, 0x8000_0001)],
    },
];

/// Whether the list has the commands of these words, with no identifiers, and no others.
fn has_words(list: &FlushList, words: &[(u64, u32)]) -> bool {
    let commands = list.as_slice();
    commands.len() == words.len()
        && commands.iter().zip(words).all(|(command, (rax, ecx))| {
            *command
                == FlushCommand::Invlpgb {
                    rax: *rax,
                    ecx: *ecx,
                    edx: 0,
                }
        })
}

#[test]
fn ranges_are_flushed_in_turns(rt: HostRuntime) -> Result<(), Fail> {
    for row in ROWS_4KIB {
        let list = commands::<Size4KiB>(rt.alloc(), row.count_max, row.first, row.end)?;
        assert!(rt;
            has_words(&list, row.words),
            "{:x} {:x}",
            row.first,
            row.end
        );
    }
    for row in ROWS_2MIB {
        let list = commands::<Size2MiB>(rt.alloc(), row.count_max, row.first, row.end)?;
        assert!(rt;
            has_words(&list, row.words),
            "{:x} {:x}",
            row.first,
            row.end
        );
    }
    Ok(())
}

/// The commands that flush three pages, global ones too.
fn global_commands(alloc: Global, count_max: u16) -> Result<FlushList, AllocError> {
    let mut list = FlushList::new(alloc);
    if let Some(invlpgb) = invlpgb(count_max) {
        let pages: PageRange = Page::range(page(0xF000_0000), page(0xF000_3000));
        let mut flush = invlpgb.build().pages(pages);
        flush.include_global().flush(&mut list)?;
    }
    Ok(list)
}

#[test]
fn global_pages_by_count(rt: HostRuntime) -> Result<(), Fail> {
    let list = global_commands(rt.alloc(), 7)?;
    assert!(rt; has_words(&list, &[(0xF000_0009, 3)]));
    let list = global_commands(rt.alloc(), 0)?;
    let words = [(0xF000_0009, 0), (0xF000_1009, 0), (0xF000_2009, 0)];
    assert!(rt; has_words(&list, &words));
    Ok(())
}

#[test]
fn a_flush_without_pages_names_what_else_is_given(rt: HostRuntime) -> Result<(), Fail> {
    let invlpgb = invlpgb(7).expect(&rt, "the processor has the instruction");
    same(&rt, invlpgb.invlpgb_count_max(), 7);
    same(&rt, invlpgb.nasid(), 4);
    assert!(rt; invlpgb.tlb_flush_nested());
    let mut list = FlushList::new(rt.alloc());
    let mut flush = invlpgb.build();
    flush.flush(&mut list)?;
    let refused = AsidOutOfRangeError { asid: 4, nasid: 4 };
    same(&rt, flush.asid(4).err(), Some(refused));
    flush.flush(&mut list)?;
    flush.pcid(Pcid::new(5)?).final_translation_only();
    flush.asid(3)?.include_global();
    let other = AsidOutOfRangeError { asid: 9, nasid: 4 };
    same(&rt, flush.asid(9).err(), Some(other));
    same(&rt, flush.try_asid(9), Err(other));
    flush.clone()?.flush(&mut list)?;
    if invlpgb.tlb_flush_nested() {
        let nested = invlpgb.build().include_nested_translations();
        nested.flush(&mut list)?;
    }
    let wanted = [
        FlushCommand::Invlpgb {
            rax: 0,
            ecx: 0,
            edx: 0,
        },
        FlushCommand::Invlpgb {
            rax: 0,
            ecx: 0,
            edx: 0,
        },
        FlushCommand::Invlpgb {
            rax: 0b1_1110,
            ecx: 0,
            edx: 0x5_0003,
        },
        FlushCommand::Invlpgb {
            rax: 0b10_0000,
            ecx: 0,
            edx: 0,
        },
    ];
    same(&rt, list.as_slice(), wanted.as_slice());
    let text = format!(in rt.alloc(); "{other}")?;
    same(
        &rt,
        text.as_str(),
        "9 is out of the range of available ASIDS (4)",
    );
    Ok(())
}
