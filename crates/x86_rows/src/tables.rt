//! Worked rows of the layouts, the texts of the errors, and each call once.

use crate::checks::{same, same_at};
use bitflags::Flags;
use paging_core::{PageTableFlags, VirtAddr};
use std::alloc::{AllocError, Global};
use std::mem::size_of;
use std::process::Abort;
use std::test::Fail;
use x86_flags::{PrivilegeLevel, RFlags, SegmentSelector};
use x86_registers::Cpu;
use x86_tables::gdt::{Descriptor, DescriptorFlags, GlobalDescriptorTable};
use x86_tables::idt::{
    DescriptorTable, Entry, ExceptionVector, HandlerFunc, InterruptDescriptorTable,
    InterruptStackFrame, InterruptStackFrameValue, InvalidExceptionVectorNumber,
    PageFaultErrorCode, PageFaultHandlerFunc, SelectorErrorCode,
};
use x86_tables::mem_encrypt::{
    EncryptionBits, MemoryEncryptionConfiguration, enable_memory_encryption,
};
use x86_tables::tss::{InvalidIoMap, TaskStateSegment};
use x86_tables::{default_segments, number_of_vector, selector_gives_back};

/// The values of an old Linux, which `SYSCALL` and `SYSENTER` need too.
#[test]
fn segments_of_kernels(rt: HostRuntime) {
    default_segments();
    let rows = [
        (
            "KERNEL_CODE64",
            DescriptorFlags::KERNEL_CODE64,
            0x00af_9b00_0000_ffff,
        ),
        (
            "KERNEL_CODE32",
            DescriptorFlags::KERNEL_CODE32,
            0x00cf_9b00_0000_ffff,
        ),
        (
            "KERNEL_DATA",
            DescriptorFlags::KERNEL_DATA,
            0x00cf_9300_0000_ffff,
        ),
        (
            "USER_CODE64",
            DescriptorFlags::USER_CODE64,
            0x00af_fb00_0000_ffff,
        ),
        (
            "USER_CODE32",
            DescriptorFlags::USER_CODE32,
            0x00cf_fb00_0000_ffff,
        ),
        (
            "USER_DATA",
            DescriptorFlags::USER_DATA,
            0x00cf_f300_0000_ffff,
        ),
        ("all", DescriptorFlags::all(), 0xffff_ffff_ffff_ffff),
        (
            "BASE_0_23",
            DescriptorFlags::BASE_0_23,
            0x0000_00ff_ffff_0000,
        ),
    ];
    for (name, flags, wanted) in rows {
        same_at(&rt, name, flags.bits(), wanted);
    }
    let levels = [
        (Descriptor::kernel_code_segment(), PrivilegeLevel::Ring0),
        (Descriptor::kernel_data_segment(), PrivilegeLevel::Ring0),
        (Descriptor::user_code_segment(), PrivilegeLevel::Ring3),
        (Descriptor::user_data_segment(), PrivilegeLevel::Ring3),
    ];
    for (descriptor, level) in levels {
        same(&rt, descriptor.dpl(), level);
    }
    same(
        &rt,
        selector_gives_back(8191, PrivilegeLevel::Ring2),
        (8191, PrivilegeLevel::Ring2),
    );
}

#[test]
fn a_table_is_filled(rt: HostRuntime) -> Result<(), Fail> {
    let mut gdt = GlobalDescriptorTable::<8>::new();
    let user_code32 = Descriptor::UserSegment(DescriptorFlags::USER_CODE32.bits());
    same(&rt, gdt.append(Descriptor::kernel_code_segment()).0, 0x08);
    same(&rt, gdt.append(Descriptor::kernel_data_segment()).0, 0x10);
    same(&rt, gdt.append(user_code32).0, 0x1b);
    same(&rt, gdt.append(Descriptor::user_data_segment()).0, 0x23);
    same(&rt, gdt.append(Descriptor::user_code_segment()).0, 0x2b);
    same(&rt, gdt.entries().len(), 6);
    let seventh = gdt.clone()?.try_append(Descriptor::user_data_segment());
    same(&rt, seventh, Some(SegmentSelector(0x33)));
    let tss = TaskStateSegment::new();
    let segment = Descriptor::tss_segment(VirtAddr::new(0x1000), &tss);
    same(&rt, gdt.append(segment).0, 0x30);
    same(&rt, gdt.entries().len(), 8);
    same(&rt, gdt.limit(), 63);
    same(&rt, gdt.try_append(segment), None);
    same(&rt, gdt.try_append(user_code32), None);
    let mut cpu = Cpu::new();
    gdt.load(&mut cpu, VirtAddr::new(0x5000));
    same(&rt, cpu.gdtr.to_bytes(), [63, 0, 0, 0x50, 0, 0, 0, 0, 0, 0]);
    let raw = [0, 0x00af_9b00_0000_ffff, 0x00cf_9300_0000_ffff];
    let given = GlobalDescriptorTable::<3>::from_raw_entries(&raw);
    let words = given.entries();
    same(&rt, words.len(), 3);
    same(&rt, words[1].raw(), 0x00af_9b00_0000_ffff);
    given.load_unsafe(&mut cpu, VirtAddr::new(0x6000));
    same(&rt, cpu.gdtr.limit, 23);
    same(&rt, GlobalDescriptorTable::<8>::default().limit(), 7);
    Ok(())
}

#[test]
fn a_task_state_segment(rt: HostRuntime) {
    let mut tss = TaskStateSegment::default();
    let bytes = tss.to_bytes();
    same(&rt, bytes.len(), 0x68);
    same(&rt, &bytes[102..], [0x68, 0].as_slice());
    match Descriptor::tss_segment(VirtAddr::new(0x1000), &tss) {
        Descriptor::SystemSegment(low, high) => {
            same(&rt, low, 0x0000_8900_1000_0067);
            same(&rt, high, 0);
        }
        Descriptor::UserSegment(_) => assert!(rt; false),
    }
    match Descriptor::tss_segment(VirtAddr::new(0xffff_8000_1234_5678), &tss) {
        Descriptor::SystemSegment(low, high) => {
            same(&rt, low, 0x1200_8934_5678_0067);
            same(&rt, high, 0xffff_8000);
        }
        Descriptor::UserSegment(_) => assert!(rt; false),
    }
    tss.privilege_stack_table[0] = VirtAddr::new(0x1122_3344_5566);
    tss.interrupt_stack_table[6] = VirtAddr::new(0xffff_8000_0000_0001);
    tss.iomap_base = 0x1234;
    let bytes = tss.to_bytes();
    same(
        &rt,
        &bytes[..12],
        [0, 0, 0, 0, 0x66, 0x55, 0x44, 0x33, 0x22, 0x11, 0, 0].as_slice(),
    );
    same(
        &rt,
        &bytes[84..92],
        [1, 0, 0, 0, 0, 0x80, 0xff, 0xff].as_slice(),
    );
    same(
        &rt,
        &bytes[92..],
        [0, 0, 0, 0, 0, 0, 0, 0, 0, 0, 0x34, 0x12].as_slice(),
    );
}

#[test]
fn maps_of_ports(rt: HostRuntime) -> Result<(), Fail> {
    let mut tss = TaskStateSegment::new();
    tss.iomap_base = 0x100;
    let at = VirtAddr::new(0x1000);
    let map = [0xff, 0, 0x80, 0xff];
    match Descriptor::tss_segment_with_iomap(at, &tss, VirtAddr::new(0x1100), &map) {
        Ok(Descriptor::SystemSegment(low, _)) => same(&rt, low, 0x0000_8900_1000_0103),
        _ => assert!(rt; false),
    }
    let long = [0xff; 8194];
    let rows: [(u64, &[u8], InvalidIoMap, &str); 6] = [
        (
            0,
            &long,
            InvalidIoMap::TooLong { len: 8194 },
            "The IO permissions bitmap exceeds the maximum length (8194 > 8193)",
        ),
        (
            0xfff,
            &map[..3],
            InvalidIoMap::IoMapBeforeTss,
            "the IO permissions bitmap is before the TSS",
        ),
        (
            0xf000,
            &map[..3],
            InvalidIoMap::TooFarFromTss { distance: 0xe000 },
            "the IO permissions bitmap is too far from the TSS (distance 57344)",
        ),
        (
            0xefff,
            &map[..3],
            InvalidIoMap::InvalidTerminatingByte { byte: 0x80 },
            "The final byte of the IO permissions bitmap was not 0xff (128",
        ),
        (
            0xefff,
            &map,
            InvalidIoMap::InvalidBase {
                expected: 0xdfff,
                got: 0x100,
            },
            "the `iomap_base` in the `TaskStateSegment` struct was not what was expected (expected 57343, got 256)",
        ),
        (
            0x10ff,
            &map[..0],
            InvalidIoMap::InvalidBase {
                expected: 0xff,
                got: 0x100,
            },
            "the `iomap_base` in the `TaskStateSegment` struct was not what was expected (expected 255, got 256)",
        ),
    ];
    for (iomap_at, iomap, wanted, text) in rows {
        let iomap_at = VirtAddr::new_truncate(iomap_at);
        match Descriptor::tss_segment_with_iomap(at, &tss, iomap_at, iomap) {
            Err(error) => {
                same(&rt, error, wanted);
                let shown = format!(in rt.alloc(); "{error}")?;
                same(&rt, shown.as_str(), text);
            }
            Ok(_) => assert!(rt; false, "{text}"),
        }
    }
    Ok(())
}

#[test]
fn a_gate_and_its_options(rt: HostRuntime) {
    let mut cpu = Cpu::new();
    cpu.cs = 8;
    let mut entry = Entry::<PageFaultHandlerFunc>::missing();
    same(
        &rt,
        entry.to_bytes(),
        [0, 0, 0, 0, 0, 0x0e, 0, 0, 0, 0, 0, 0, 0, 0, 0, 0],
    );
    let handler = VirtAddr::new(0xffff_8000_1234_5678);
    entry.set_handler_addr(&cpu, handler);
    same(
        &rt,
        entry.to_bytes(),
        [
            0x78, 0x56, 0x08, 0x00, 0x00, 0x8e, 0x34, 0x12, 0x00, 0x80, 0xff, 0xff, 0, 0, 0, 0,
        ],
    );
    same(&rt, entry.handler_addr(), handler);
    same(&rt, entry.options().stack_index(), None);
    entry
        .set_handler_addr(&cpu, handler)
        .set_code_selector(SegmentSelector(0x33))
        .set_privilege_level(PrivilegeLevel::Ring3)
        .set_stack_index(6)
        .disable_interrupts(false)
        .set_present(false);
    same(
        &rt,
        entry.to_bytes(),
        [
            0x78, 0x56, 0x33, 0x00, 0x07, 0x6f, 0x34, 0x12, 0x00, 0x80, 0xff, 0xff, 0, 0, 0, 0,
        ],
    );
    let options = entry.options();
    same(&rt, options.code_selector(), SegmentSelector(0x33));
    same(&rt, options.privilege_level(), PrivilegeLevel::Ring3);
    same(&rt, options.stack_index(), Some(6));
    assert!(rt; !options.present() && entry == entry);
}

#[test]
fn a_table_of_gates(rt: HostRuntime) -> Result<(), Fail> {
    same(&rt, size_of::<Entry<HandlerFunc>>(), 16);
    same(&rt, size_of::<InterruptDescriptorTable>(), 256 * 16);
    let mut cpu = Cpu::new();
    let handler = VirtAddr::new(0x4000);
    let mut idt = InterruptDescriptorTable::default();
    for vector in 0..=255u8 {
        let none = matches!(vector, 8 | 10..=15 | 17 | 18 | 21..=27 | 29..=31);
        same_at(&rt, vector, idt.entry(vector).is_none(), none);
        same_at(&rt, vector, idt.entry_mut(vector).is_none(), none);
    }
    idt.double_fault
        .set_handler_addr(&cpu, handler)
        .set_stack_index(0);
    same(&rt, idt.double_fault.options().stack_index(), Some(0));
    if let Some(entry) = idt.entry_mut(3) {
        entry.set_handler_addr(&cpu, handler);
    }
    assert!(rt; idt.breakpoint.options().present());
    idt.load(&mut cpu, VirtAddr::new(0x7000));
    same(
        &rt,
        cpu.idtr.to_bytes(),
        [0xff, 0x0f, 0, 0x70, 0, 0, 0, 0, 0, 0],
    );
    idt.load_unsafe(&mut cpu, VirtAddr::new(0x8000));
    same(&rt, cpu.idtr.limit, 4095);
    Ok(())
}

#[test]
fn slices_of_gates(rt: HostRuntime) {
    let cpu = Cpu::new();
    let mut idt = InterruptDescriptorTable::new();
    let rows = [
        (32, 256, Some(224)),
        (32, 64, Some(32)),
        (256, 256, Some(0)),
        (31, 64, None),
        (32, 257, None),
        (65, 64, None),
    ];
    for (lower, upper, wanted) in rows {
        same(&rt, idt.slice(lower, upper).map(|part| part.len()), wanted);
        same(
            &rt,
            idt.slice_mut(lower, upper).map(|part| part.len()),
            wanted,
        );
    }
    for entry in idt.interrupts_mut(32, 64) {
        entry.set_handler_addr(&cpu, VirtAddr::new(0x4000));
    }
    same(&rt, present(&idt, 63), Some(true));
    same(&rt, present(&idt, 64), Some(false));
}

/// The vectors whose gates are present.
fn present_vectors(alloc: Global, idt: &InterruptDescriptorTable) -> Result<Vec<u8>, AllocError> {
    let mut vectors = Vec::new(alloc);
    for vector in 0..=255u8 {
        if idt.gate(vector)[5] == 0x8e {
            vectors.push(vector)?;
        }
    }
    Ok(vectors)
}

/// Sets the handler of the gates of the vectors 40 to 42.
fn set_interrupts(idt: &mut InterruptDescriptorTable, handler: VirtAddr) {
    let cpu = Cpu::new();
    for entry in idt.interrupts_mut(40, 43) {
        entry.set_handler_addr(&cpu, handler);
    }
}

/// Sets the handler of the gates of a slice, or takes it from them. Answers whether the slice is there.
fn change_slice(
    idt: &mut InterruptDescriptorTable,
    lower: u16,
    upper: u16,
    handler: Option<VirtAddr>,
) -> bool {
    let cpu = Cpu::new();
    let Some(entries) = idt.slice_mut(lower, upper) else {
        return false;
    };
    for entry in entries {
        match handler {
            Some(handler) => {
                entry.set_handler_addr(&cpu, handler);
            }
            None => *entry = Entry::missing(),
        }
    }
    true
}

/// Whether a slice is there. It is only looked at.
fn has_slice(idt: &mut InterruptDescriptorTable, lower: u16, upper: u16) -> bool {
    idt.slice_mut(lower, upper).is_some()
}

/// Checks that the gates of these vectors are present, and no others.
fn are_present(
    rt: &impl Abort,
    alloc: Global,
    idt: &InterruptDescriptorTable,
    vectors: &[u8],
) -> Result<(), Fail> {
    let found = present_vectors(alloc, idt)?;
    same(rt, found.as_slice(), vectors);
    Ok(())
}

#[test]
fn writes_through_a_slice_of_gates(rt: HostRuntime) -> Result<(), Fail> {
    let handler = VirtAddr::new(0x4000);
    let mut idt = InterruptDescriptorTable::new();
    idt.breakpoint.set_handler_addr(&Cpu::new(), handler);
    set_interrupts(&mut idt, handler);
    // A slice that is not there leaves every gate as it is, and so does one that is only looked at.
    assert!(rt; !has_slice(&mut idt, 31, 64));
    assert!(rt; !has_slice(&mut idt, 32, 257));
    assert!(rt; !has_slice(&mut idt, 65, 64));
    assert!(rt; has_slice(&mut idt, 32, 256));
    are_present(&rt, rt.alloc(), &idt, &[3, 40, 41, 42])?;
    assert!(rt; change_slice(&mut idt, 254, 256, Some(handler)));
    assert!(rt; change_slice(&mut idt, 41, 42, None));
    are_present(&rt, rt.alloc(), &idt, &[3, 40, 42, 254, 255])
}

#[test]
fn gates_of_all_vectors(rt: HostRuntime) {
    let cpu = Cpu::new();
    let mut idt = InterruptDescriptorTable::new();
    idt.double_fault.set_handler_addr(&cpu, VirtAddr::new(8));
    idt.general_protection_fault
        .set_handler_addr(&cpu, VirtAddr::new(13));
    idt.page_fault.set_handler_addr(&cpu, VirtAddr::new(14));
    idt.machine_check.set_handler_addr(&cpu, VirtAddr::new(18));
    idt.cp_protection_exception
        .set_handler_addr(&cpu, VirtAddr::new(21));
    idt.security_exception
        .set_handler_addr(&cpu, VirtAddr::new(30));
    for vector in 0..=255u8 {
        let is_set = matches!(vector, 8 | 13 | 14 | 18 | 21 | 30);
        let gate = idt.gate(vector);
        same(&rt, gate[0], if is_set { vector } else { 0 });
        same(&rt, gate[5], if is_set { 0x8e } else { 0x0e });
    }
}

#[test]
fn a_table_is_copied_and_reset(rt: HostRuntime) -> Result<(), Fail> {
    let mut idt = InterruptDescriptorTable::new();
    idt.breakpoint
        .set_handler_addr(&Cpu::new(), VirtAddr::new(0x4000));
    let copy = idt.clone()?;
    idt.reset();
    for (table, wanted) in [(copy, Some(true)), (idt, Some(false))] {
        same(&rt, present(&table, 3), wanted);
    }
    Ok(())
}

fn present(idt: &InterruptDescriptorTable, vector: u8) -> Option<bool> {
    idt.entry(vector).map(|entry| entry.options().present())
}

#[test]
fn error_codes(rt: HostRuntime) -> Result<(), Fail> {
    let code = SelectorErrorCode::new(0x1b).ok_or("0x1b")?;
    assert!(rt; code.external() && !code.is_null());
    same(&rt, code.descriptor_table(), DescriptorTable::Idt);
    same(&rt, code.index(), 3);
    same(&rt, SelectorErrorCode::new(0x10000), None);
    let tables = [
        (0xfff8, DescriptorTable::Gdt),
        (0xfffa, DescriptorTable::Idt),
        (0xfffc, DescriptorTable::Ldt),
        (0xfffe, DescriptorTable::Idt),
    ];
    for (value, table) in tables {
        let code = SelectorErrorCode::new_truncate(0xabcd_0000 + value);
        same(&rt, code.descriptor_table(), table);
        same(&rt, code.index(), 0x1fff);
        assert!(rt; !code.external());
    }
    assert!(rt; SelectorErrorCode::new_truncate(0x10000).is_null());
    let write = PageFaultErrorCode::CAUSED_BY_WRITE | PageFaultErrorCode::USER_MODE;
    same(&rt, write.bits(), 6);
    Ok(())
}

/// The numbers of the exceptions, in the manual's order; no other number is one.
const VECTORS: &[(u8, ExceptionVector)] = &[
    (0x00, ExceptionVector::Division),
    (0x01, ExceptionVector::Debug),
    (0x02, ExceptionVector::NonMaskableInterrupt),
    (0x03, ExceptionVector::Breakpoint),
    (0x04, ExceptionVector::Overflow),
    (0x05, ExceptionVector::BoundRange),
    (0x06, ExceptionVector::InvalidOpcode),
    (0x07, ExceptionVector::DeviceNotAvailable),
    (0x08, ExceptionVector::Double),
    (0x0A, ExceptionVector::InvalidTss),
    (0x0B, ExceptionVector::SegmentNotPresent),
    (0x0C, ExceptionVector::Stack),
    (0x0D, ExceptionVector::GeneralProtection),
    (0x0E, ExceptionVector::Page),
    (0x10, ExceptionVector::X87FloatingPoint),
    (0x11, ExceptionVector::AlignmentCheck),
    (0x12, ExceptionVector::MachineCheck),
    (0x13, ExceptionVector::SimdFloatingPoint),
    (0x14, ExceptionVector::Virtualization),
    (0x15, ExceptionVector::ControlProtection),
    (0x1C, ExceptionVector::HypervisorInjection),
    (0x1D, ExceptionVector::VmmCommunication),
    (0x1E, ExceptionVector::Security),
];

#[test]
fn vectors_by_their_numbers(rt: HostRuntime) {
    for (number, vector) in VECTORS {
        same(&rt, number_of_vector(*vector), *number);
        same(&rt, ExceptionVector::try_from(*number), Ok(*vector));
    }
    for number in 0..=255u8 {
        if VECTORS.iter().all(|(known, _)| *known != number) {
            let refused = InvalidExceptionVectorNumber(number);
            same(&rt, ExceptionVector::try_from(number), Err(refused));
        }
    }
}

#[test]
fn the_text_of_a_number_that_is_no_vector(rt: HostRuntime) -> Result<(), Fail> {
    let text = format!(in rt.alloc(); "{}", InvalidExceptionVectorNumber(9))?;
    same(&rt, text.as_str(), "9 is not a valid exception vector");
    Ok(())
}

#[test]
fn a_frame_is_changed(rt: HostRuntime) {
    same(&rt, size_of::<InterruptStackFrame>(), 40);
    same(&rt, size_of::<InterruptStackFrameValue>(), 40);
    let mut frame = InterruptStackFrame::new(
        VirtAddr::new(0x1000),
        SegmentSelector(8),
        RFlags::INTERRUPT_FLAG,
        VirtAddr::new(0x2000),
        SegmentSelector(0x10),
    );
    frame.as_mut().instruction_pointer = VirtAddr::new(0x1002);
    same(
        &rt,
        frame.value().instruction_pointer,
        VirtAddr::new(0x1002),
    );
    same(&rt, frame.value().stack_segment, SegmentSelector(0x10));
}

#[test]
fn encryption_of_a_page(rt: HostRuntime) {
    let encrypted = enable_memory_encryption(MemoryEncryptionConfiguration::EncryptedBit(47));
    same(&rt, encrypted.mask, 0x8000_0000_0000);
    same(&rt, encrypted.address_mask, 0x000f_7fff_ffff_f000);
    let shared = enable_memory_encryption(MemoryEncryptionConfiguration::SharedBit(51));
    let mut flags = PageTableFlags::PRESENT;
    assert!(rt; !encrypted.is_encrypted(&flags) && shared.is_encrypted(&flags));
    encrypted.set_encrypted(&mut flags, true);
    shared.set_encrypted(&mut flags, false);
    same(&rt, flags.bits(), 0x0008_8000_0000_0001);
    assert!(rt; encrypted.is_encrypted(&flags) && !shared.is_encrypted(&flags));
    assert!(rt; !EncryptionBits::none().is_encrypted(&flags));
    same(
        &rt,
        EncryptionBits::none().address_mask,
        0x000f_ffff_ffff_f000,
    );
}
