use crate::checks::{same, same_at};
use bitflags::Flags;
use paging_core::{Page, PhysAddr, PhysFrame, VirtAddr, VirtAddrNotValid};
use std::test::Fail;
use x86_flags::Pcid;
use x86_registers::control::{
    Cr0, Cr0Flags, Cr2, Cr3, Cr3Flags, Cr4, Cr4Flags, Cr8, Efer, EferFlags, PriorityClass,
};
use x86_registers::debug::{
    DebugAddressRegister, DebugAddressRegisterNumber, Dr0, Dr1, Dr2, Dr3, Dr6, Dr7, Dr7Flags,
    Dr7Value,
};
use x86_registers::model_specific::{
    AddressRegister, ApicBase, ApicBaseFlags, CetFlags, CetRegister, FsBase, GsBase,
    InvalidStarSegmentSelectors, KernelGsBase, LStar, ModelSpecificRegister, Msr, SCet, SFMask,
    Star, UCet,
};
use x86_registers::mxcsr::{self, MxCsr};
use x86_registers::rflags::{self, RFlags};
use x86_registers::segmentation::{CS, DS, ES, FS, GS, SS, Segment, Segment64, SegmentSelector};
use x86_registers::xcontrol::{InvalidXCr0, XCr0, XCr0Flags};
use x86_registers::{Cpu, DescriptorTablePointer, FlagRegister};

fn frame(address: u64) -> PhysFrame {
    PhysFrame::containing_address(PhysAddr::new_truncate(address))
}

fn page(address: u64) -> Page {
    Page::containing_address(VirtAddr::new_truncate(address))
}

#[test]
fn a_new_register_file(rt: HostRuntime) {
    let cpu = Cpu::new();
    same(&rt, mxcsr::read(&cpu), MxCsr::default());
    same(&rt, cpu.rflags, 2);
    same(&rt, rflags::read(&cpu), RFlags::empty());
    same(&rt, cpu.gdtr.to_bytes(), [0; 10]);
    let table = DescriptorTablePointer {
        limit: 0x37,
        base: VirtAddr::new(0xFFFF_8000_1234_5678),
    };
    same(
        &rt,
        table.to_bytes(),
        [0x37, 0, 0x78, 0x56, 0x34, 0x12, 0, 0x80, 0xFF, 0xFF],
    );
}

/// Bit 6 of CR0, bit 15 of CR4, bit 1 of EFER and of RFLAGS, bit 10 of DR7 and bit 8 of XCR0 are no flags.
#[test]
fn writes_of_flags_keep_other_bits(rt: HostRuntime) {
    let mut cpu = Cpu::new();
    Cr0::write_raw(&mut cpu, 0x8001_0041);
    Cr4::write_raw(&mut cpu, 0x8020);
    Efer::write_raw(&mut cpu, 0xD02);
    Dr7::write_raw(&mut cpu, 0x400);
    XCr0::write_raw(&mut cpu, 0x101);
    let rows = [
        ("Cr0::read", Cr0::read(&cpu).bits(), 0x8001_0001),
        ("Cr0::read_raw", Cr0::read_raw(&cpu), 0x8001_0041),
        ("Cr4::read", Cr4::read(&cpu).bits(), 0x20),
        ("Cr4::read_raw", Cr4::read_raw(&cpu), 0x8020),
        ("Efer::read", Efer::read(&cpu).bits(), 0xD00),
        ("Efer::read_raw", Efer::read_raw(&cpu), 0xD02),
        ("rflags::read_raw", rflags::read_raw(&cpu), 2),
        ("Dr7::read", Dr7::read(&cpu).bits(), 0),
        ("Dr7::read_raw", Dr7::read_raw(&cpu), 0x400),
        ("XCr0::read", XCr0::read(&cpu).bits(), 1),
        ("XCr0::read_raw", XCr0::read_raw(&cpu), 0x101),
    ];
    for (name, bits, wanted) in rows {
        same_at(&rt, name, bits, wanted);
    }
    Cr0::write(&mut cpu, Cr0Flags::PAGING);
    Cr0::update(&mut cpu, |flags| flags | Cr0Flags::PROTECTED_MODE_ENABLE);
    Cr4::write(&mut cpu, Cr4Flags::PCID);
    Cr4::update(&mut cpu, |flags| flags | Cr4Flags::FSGSBASE);
    Efer::write(&mut cpu, EferFlags::LONG_MODE_ENABLE);
    Efer::update(&mut cpu, |flags| flags | EferFlags::SYSTEM_CALL_EXTENSIONS);
    rflags::write(&mut cpu, RFlags::INTERRUPT_FLAG);
    rflags::update(&mut cpu, |flags| flags | RFlags::ID);
    Dr7::write(&mut cpu, Dr7Value::from(Dr7Flags::GENERAL_DETECT_ENABLE));
    Dr7::update(&mut cpu, |value| {
        let mut next = value;
        next.insert_flags(Dr7Flags::LOCAL_BREAKPOINT_0_ENABLE);
        next
    });
    XCr0::write(&mut cpu, XCr0Flags::X87 | XCr0Flags::SSE);
    same(
        &rt,
        XCr0::update(&mut cpu, |flags| flags | XCr0Flags::AVX),
        Ok(()),
    );
    let rows = [
        ("cr0", cpu.cr0, 0x8000_0041),
        ("cr4", cpu.cr4, 0x3_8000),
        ("efer", cpu.efer, 0x103),
        ("rflags", cpu.rflags, 0x20_0202),
        ("dr7", cpu.dr7, 0x2401),
        ("xcr0", cpu.xcr0, 0x107),
    ];
    for (name, bits, wanted) in rows {
        same_at(&rt, name, bits, wanted);
    }
    rflags::write_raw(&mut cpu, 0x246);
    same(&rt, rflags::read(&cpu).bits(), 0x244);
    mxcsr::write(&mut cpu, MxCsr::FLUSH_TO_ZERO);
    mxcsr::update(&mut cpu, |flags| flags | MxCsr::default());
    same(&rt, cpu.mxcsr, 0x9F80);
}

#[test]
fn addresses_and_priorities(rt: HostRuntime) -> Result<(), Fail> {
    let mut cpu = Cpu::new();
    cpu.cr2 = 0x30_0000;
    same(&rt, Cr2::read(&cpu), Ok(VirtAddr::new(0x30_0000)));
    cpu.cr2 = 0x8000_0000_0000;
    same(
        &rt,
        Cr2::read(&cpu),
        Err(VirtAddrNotValid(0x8000_0000_0000)),
    );
    same(&rt, Cr2::read_raw(&cpu), 0x8000_0000_0000);
    Cr3::write(
        &mut cpu,
        frame(0x12_3000),
        Cr3Flags::PAGE_LEVEL_CACHE_DISABLE,
    );
    same(&rt, cpu.cr3, 0x12_3010);
    same(
        &rt,
        Cr3::read(&cpu),
        (frame(0x12_3000), Cr3Flags::PAGE_LEVEL_CACHE_DISABLE),
    );
    Cr3::update(&mut cpu, |(_, flags)| (frame(0x45_6000), flags));
    same(&rt, cpu.cr3, 0x45_6010);
    Cr3::write_pcid(&mut cpu, frame(0x12_3000), Pcid::new(5)?);
    same(&rt, cpu.cr3, 0x12_3005);
    same(&rt, Cr3::read_pcid(&cpu), (frame(0x12_3000), Pcid::new(5)?));
    Cr3::update_pcid(&mut cpu, |(_, pcid)| (frame(0x45_6000), pcid));
    same(&rt, cpu.cr3, 0x45_6005);
    Cr3::write_pcid_no_flush(&mut cpu, frame(0x12_3000), Pcid::new(0xFFF)?);
    same(&rt, cpu.cr3, 0x8000_0000_0012_3FFF);
    Cr3::update_pcid_no_flush(&mut cpu, |(_, pcid)| (frame(0x45_6000), pcid));
    same(&rt, cpu.cr3, 0x8000_0000_0045_6FFF);
    same(&rt, Cr3::read_raw(&cpu), (frame(0x45_6000), 0xFFF));
    Cr3::write_raw(&mut cpu, frame(0x1000), 0x18);
    same(&rt, cpu.cr3, 0x1018);
    Cr8::write(&mut cpu, Some(PriorityClass::PriorityClass15));
    same(&rt, Cr8::read_raw(&cpu), 15);
    Cr8::update(&mut cpu, |_| Some(PriorityClass::PriorityClass2));
    same(&rt, Cr8::read(&cpu), Some(PriorityClass::PriorityClass2));
    Cr8::write(&mut cpu, None);
    same(&rt, cpu.cr8, 0);
    Cr8::write_raw(&mut cpu, 0x110);
    same(&rt, Cr8::read(&cpu), None);
    Ok(())
}

#[test]
fn debug_registers(rt: HostRuntime) {
    let mut cpu = Cpu::new();
    Dr0::write(&mut cpu, 0x10);
    Dr1::write(&mut cpu, 0x11);
    Dr2::write(&mut cpu, 0x12);
    Dr3::write(&mut cpu, u64::MAX);
    let rows = [
        (Dr0::NUM, Dr0::read(&cpu), cpu.dr0, 0x10),
        (Dr1::NUM, Dr1::read(&cpu), cpu.dr1, 0x11),
        (Dr2::NUM, Dr2::read(&cpu), cpu.dr2, 0x12),
        (Dr3::NUM, Dr3::read(&cpu), cpu.dr3, u64::MAX),
    ];
    for (number, read, field, wanted) in rows {
        assert_eq!(rt; read, wanted, "{number:?}");
        assert_eq!(rt; field, wanted, "{number:?}");
    }
    same(&rt, Dr2::NUM, DebugAddressRegisterNumber::Dr2);
    cpu.dr6 = 0xFFFF_4FF1;
    same(&rt, Dr6::read(&cpu).bits(), 0x1_4001);
    same(&rt, Dr6::read_raw(&cpu), 0xFFFF_4FF1);
}

#[test]
fn registers_by_number(rt: HostRuntime) {
    let mut cpu = Cpu::new();
    let rows = [
        ("Efer", Efer::MSR, Msr::new(0xC000_0080)),
        ("Star", Star::MSR, Msr::new(0xC000_0081)),
        ("LStar", LStar::MSR, Msr::new(0xC000_0082)),
        ("SFMask", SFMask::MSR, Msr::new(0xC000_0084)),
        ("FsBase", FsBase::MSR, Msr::new(0xC000_0100)),
        ("GsBase", GsBase::MSR, Msr::new(0xC000_0101)),
        ("KernelGsBase", KernelGsBase::MSR, Msr::new(0xC000_0102)),
        ("UCet", UCet::MSR, Msr::new(0x6A0)),
        ("SCet", SCet::MSR, Msr::new(0x6A2)),
        ("ApicBase", ApicBase::MSR, Msr::new(0x1B)),
    ];
    for (name, register, number) in rows {
        same_at(&rt, name, register.read(&cpu), Some(0));
        assert!(rt; number.write(&mut cpu, 0x1234), "{name}");
        same_at(&rt, name, register.read(&cpu), Some(0x1234));
    }
    let unknown = Msr::new(0xC000_0083);
    assert!(rt; !unknown.write(&mut cpu, 1));
    same(&rt, unknown.read(&cpu), None);
    same(&rt, cpu.apic_base, 0x1234);
}

#[test]
fn model_specific_registers(rt: HostRuntime) {
    let mut cpu = Cpu::new();
    let high = VirtAddr::new(0xFFFF_8000_0000_0000);
    LStar::write(&mut cpu, high);
    same(&rt, LStar::read(&cpu), Some(high));
    KernelGsBase::write(&mut cpu, high);
    GS::write_base(&mut cpu, VirtAddr::new(0x1000));
    GS::swap(&mut cpu);
    same(&rt, GS::read_base(&cpu), Some(high));
    same(&rt, KernelGsBase::read(&cpu), Some(VirtAddr::new(0x1000)));
    same(&rt, GS::BASE.read(&cpu), Some(0xFFFF_8000_0000_0000));
    assert!(rt; FS::BASE.write(&mut cpu, 0x8000_0000_0000));
    same(&rt, FS::read_base(&cpu), None);
    same(&rt, FsBase::read(&cpu), None);
    SFMask::write(&mut cpu, RFlags::INTERRUPT_FLAG);
    assert!(rt; SFMask::update(&mut cpu, |flags| flags | RFlags::TRAP_FLAG));
    same(&rt, cpu.sfmask, 0x300);
    cpu.sfmask = 0x302;
    same(&rt, SFMask::read(&cpu), None);
    assert!(rt; !SFMask::update(&mut cpu, |flags| flags));
    UCet::write(&mut cpu, CetFlags::SS_ENABLE, page(0x7000));
    same(&rt, cpu.u_cet, 0x7001);
    assert!(rt;
        UCet::update(
            &mut cpu,
            |(flags, _)| (flags | CetFlags::IBT_ENABLE, page(0x8000))
        )
    );
    same(
        &rt,
        UCet::read(&cpu),
        Some((CetFlags::SS_ENABLE | CetFlags::IBT_ENABLE, page(0x8000))),
    );
    cpu.s_cet = 0x8000_0000_0001;
    same(&rt, SCet::read(&cpu), None);
    assert!(rt; !SCet::update(&mut cpu, |pair| pair));
    same(&rt, cpu.s_cet, 0x8000_0000_0001);
}

#[test]
fn the_base_of_the_interrupt_controller(rt: HostRuntime) {
    let mut cpu = Cpu::new();
    cpu.apic_base = 0xFEE0_0900;
    same(
        &rt,
        ApicBase::read(&cpu),
        (
            frame(0xFEE0_0000),
            ApicBaseFlags::BSP | ApicBaseFlags::LAPIC_ENABLE,
        ),
    );
    ApicBase::write(&mut cpu, frame(0xFED0_0000), ApicBaseFlags::LAPIC_ENABLE);
    same(&rt, cpu.apic_base, 0xFED0_0800);
    ApicBase::write_raw(&mut cpu, frame(0xFEE0_0000), 0x1);
    same(
        &rt,
        ApicBase::read_raw(&cpu),
        (frame(0xFEE0_0000), 0xFEE0_0001),
    );
}

#[test]
fn selectors_of_system_calls(rt: HostRuntime) {
    let mut cpu = Cpu::new();
    let [cs_sysret, ss_sysret, cs_syscall, ss_syscall] = [0x33, 0x2B, 0x08, 0x10].map(
        SegmentSelector,
    );
    let written = Star::write(&mut cpu, cs_sysret, ss_sysret, cs_syscall, ss_syscall);
    same(&rt, written, Ok(()));
    same(&rt, cpu.star, 0x0023_0008_0000_0000);
    same(&rt, Star::read_raw(&cpu), (0x23, 0x08));
    same(
        &rt,
        Star::read(&cpu),
        Some((cs_sysret, ss_sysret, cs_syscall, ss_syscall)),
    );
    let rows = [
        (
            [0x0B, 0x03, 0x08, 0x10],
            InvalidStarSegmentSelectors::SysretOffset,
        ),
        (
            [0x2B, 0x33, 0x08, 0x10],
            InvalidStarSegmentSelectors::SysretOffset,
        ),
        (
            [0x33, 0x2B, 0x08, 0x18],
            InvalidStarSegmentSelectors::SyscallOffset,
        ),
        (
            [0x30, 0x28, 0x08, 0x10],
            InvalidStarSegmentSelectors::SysretPrivilegeLevel,
        ),
        (
            [0x33, 0x2B, 0x0B, 0x13],
            InvalidStarSegmentSelectors::SyscallPrivilegeLevel,
        ),
        // Two rules or more are broken: the first one is the answer.
        (
            [0x30, 0x30, 0x0B, 0x1B],
            InvalidStarSegmentSelectors::SysretOffset,
        ),
        (
            [0x30, 0x28, 0x0B, 0x1B],
            InvalidStarSegmentSelectors::SyscallOffset,
        ),
        (
            [0x30, 0x28, 0x0B, 0x13],
            InvalidStarSegmentSelectors::SysretPrivilegeLevel,
        ),
        (
            [0xFFFF, 0xFFFF, 0xFFFF, 0x07],
            InvalidStarSegmentSelectors::SysretOffset,
        ),
    ];
    for (selectors, error) in rows {
        let [a, b, c, d] = selectors.map(SegmentSelector);
        same(&rt, Star::write(&mut cpu, a, b, c, d), Err(error));
        same(&rt, cpu.star, 0x0023_0008_0000_0000);
    }
    Star::write_raw(&mut cpu, 0xFFF0, 0x08);
    same(&rt, Star::read(&cpu), None);
}

#[test]
fn states_that_go_together(rt: HostRuntime) {
    let mut cpu = Cpu::new();
    let rows = [
        (0b110, Err(InvalidXCr0::X87)),
        (0b101, Err(InvalidXCr0::AvxWithoutSse)),
        (0b1011, Err(InvalidXCr0::MpxApart)),
        (0b1110_0011, Err(InvalidXCr0::Avx512WithoutAvx)),
        (0b0110_0111, Err(InvalidXCr0::Avx512Apart)),
        // Two rules or more are broken: the first one is the answer.
        (0b0010_1100, Err(InvalidXCr0::X87)),
        (0b0010_1101, Err(InvalidXCr0::AvxWithoutSse)),
        (0b0010_1011, Err(InvalidXCr0::MpxApart)),
        (0b0010_0011, Err(InvalidXCr0::Avx512WithoutAvx)),
        (0b1111_1111, Ok(())),
    ];
    for (bits, wanted) in rows {
        same(
            &rt,
            XCr0::try_write(&mut cpu, XCr0Flags::from_bits_retain(bits)),
            wanted,
        );
    }
    same(&rt, cpu.xcr0, 0xFF);
    same(
        &rt,
        XCr0::update(&mut cpu, |_| XCr0Flags::X87 | XCr0Flags::AVX),
        Err(InvalidXCr0::AvxWithoutSse),
    );
    same(&rt, cpu.xcr0, 0xFF);
}

#[test]
fn segment_registers(rt: HostRuntime) {
    let mut cpu = Cpu::new();
    CS::set_reg(&mut cpu, SegmentSelector(0x08));
    SS::set_reg(&mut cpu, SegmentSelector(0x10));
    DS::set_reg(&mut cpu, SegmentSelector(0x18));
    ES::set_reg(&mut cpu, SegmentSelector(0x20));
    FS::set_reg(&mut cpu, SegmentSelector(0x28));
    GS::set_reg(&mut cpu, SegmentSelector(0x30));
    let rows = [
        (CS::get_reg(&cpu), cpu.cs, 0x08),
        (SS::get_reg(&cpu), cpu.ss, 0x10),
        (DS::get_reg(&cpu), cpu.ds, 0x18),
        (ES::get_reg(&cpu), cpu.es, 0x20),
        (FS::get_reg(&cpu), cpu.fs, 0x28),
        (GS::get_reg(&cpu), cpu.gs, 0x30),
    ];
    for (read, field, wanted) in rows {
        same(&rt, read, SegmentSelector(wanted));
        same(&rt, field, wanted);
    }
}

#[test]
fn error_texts(rt: HostRuntime) -> Result<(), Fail> {
    let texts = [
        (
            format!(in rt.alloc(); "{}", InvalidStarSegmentSelectors::SysretOffset)?,
            "Sysret CS and SS are not offset by 8.",
        ),
        (
            format!(in rt.alloc(); "{}", InvalidStarSegmentSelectors::SyscallOffset)?,
            "Syscall CS and SS are not offset by 8.",
        ),
        (
            format!(in rt.alloc(); "{}", InvalidStarSegmentSelectors::SysretPrivilegeLevel)?,
            "Sysret's segment must be a Ring3 segment.",
        ),
        (
            format!(in rt.alloc(); "{}", InvalidStarSegmentSelectors::SyscallPrivilegeLevel)?,
            "Syscall's segment must be a Ring0 segment.",
        ),
        (format!(in rt.alloc(); "{}", InvalidXCr0::X87)?, "X87"),
        (
            format!(in rt.alloc(); "{}", InvalidXCr0::AvxWithoutSse)?,
            "AvxWithoutSse",
        ),
        (
            format!(in rt.alloc(); "{}", InvalidXCr0::MpxApart)?,
            "MpxApart",
        ),
        (
            format!(in rt.alloc(); "{}", InvalidXCr0::Avx512WithoutAvx)?,
            "Avx512WithoutAvx",
        ),
        (
            format!(in rt.alloc(); "{}", InvalidXCr0::Avx512Apart)?,
            "Avx512Apart",
        ),
    ];
    for (text, wanted) in &texts {
        same(&rt, text.as_str(), *wanted);
    }
    Ok(())
}
