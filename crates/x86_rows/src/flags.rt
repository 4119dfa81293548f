//! The bits of the manual's tables, and each call once.

use crate::checks::same;
use bitflags::Flags;
use std::test::Fail;
use x86_flags::{
    ApicBaseFlags, BreakpointCondition, BreakpointSize, CetFlags, Cr0Flags, Cr3Flags, Cr4Flags,
    DebugAddressRegisterNumber, Dr6Flags, Dr7Flags, Dr7Value, EferFlags, MxCsr, PageFaultErrorCode,
    Pcid, PcidTooBig, PriorityClass, PrivilegeLevel, RFlags, SegmentSelector, XCr0Flags,
};

#[test]
fn all_flags_of_each_register(rt: HostRuntime) {
    same(&rt, Cr0Flags::all().bits(), 0xE005_003F);
    same(&rt, Cr3Flags::all().bits(), 0x18);
    same(&rt, Cr4Flags::all().bits(), 0x1FF_7FFF);
    same(&rt, Dr6Flags::all().bits(), 0x1_E00F);
    same(&rt, Dr7Flags::all().bits(), 0x2BFF);
    same(&rt, EferFlags::all().bits(), 0xFD01);
    same(&rt, CetFlags::all().bits(), 0xC3F);
    same(&rt, ApicBaseFlags::all().bits(), 0xD00);
    same(&rt, u64::from(MxCsr::all().bits()), 0xFFFF);
    same(&rt, RFlags::all().bits(), 0x3F_7FD5);
    same(&rt, XCr0Flags::all().bits(), 0x4000_0000_0000_02FF);
    same(&rt, PageFaultErrorCode::all().bits(), 0x8000_80FF);
}

#[test]
fn some_named_flags(rt: HostRuntime) {
    same(&rt, Cr0Flags::PAGING.bits(), 0x8000_0000);
    same(&rt, Cr0Flags::WRITE_PROTECT.bits(), 0x1_0000);
    same(&rt, Cr3Flags::PAGE_LEVEL_CACHE_DISABLE.bits(), 0x10);
    same(&rt, Cr4Flags::PHYSICAL_ADDRESS_EXTENSION.bits(), 0x20);
    same(&rt, Cr4Flags::FSGSBASE.bits(), 0x1_0000);
    same(&rt, Dr6Flags::TRAP.bits(), 0xF);
    same(&rt, Dr6Flags::RTM.bits(), 0x1_0000);
    same(&rt, Dr7Flags::LOCAL_BREAKPOINT_3_ENABLE.bits(), 0x40);
    same(&rt, Dr7Flags::GENERAL_DETECT_ENABLE.bits(), 0x2000);
    same(&rt, EferFlags::NO_EXECUTE_ENABLE.bits(), 0x800);
    same(&rt, CetFlags::IBT_SUPPRESS_ENABLE.bits(), 0x400);
    same(&rt, ApicBaseFlags::LAPIC_ENABLE.bits(), 0x800);
    same(&rt, u64::from(MxCsr::ROUNDING_CONTROL_ZERO.bits()), 0x6000);
    same(&rt, u64::from(MxCsr::default().bits()), 0x1F80);
    same(&rt, RFlags::INTERRUPT_FLAG.bits(), 0x200);
    same(&rt, RFlags::ID.bits(), 0x20_0000);
    same(&rt, XCr0Flags::LWP.bits(), 0x4000_0000_0000_0000);
    same(&rt, PageFaultErrorCode::INSTRUCTION_FETCH.bits(), 0x10);
}

#[test]
fn flags_as_a_set(rt: HostRuntime) {
    let paging = Cr0Flags::PAGING | Cr0Flags::PROTECTED_MODE_ENABLE;
    same(&rt, paging.bits(), 0x8000_0001);
    same(&rt, Cr0Flags::from_bits(0x8000_0001), Some(paging));
    same(&rt, Cr0Flags::from_bits(0x8000_0041), None);
    same(&rt, Cr0Flags::from_bits_truncate(0x8000_0041), paging);
    same(
        &rt,
        Cr0Flags::from_bits_retain(0x8000_0041).bits(),
        0x8000_0041,
    );
    assert!(rt; Cr0Flags::empty().is_empty() && Cr0Flags::all().is_all());
    assert!(rt; paging.contains(Cr0Flags::PAGING) && !paging.contains(Cr0Flags::all()));
    assert!(rt; paging.intersects(Cr0Flags::all()) && !paging.intersects(Cr0Flags::TASK_SWITCHED));
    let mut flags = paging;
    flags.insert(Cr0Flags::TASK_SWITCHED);
    flags.remove(Cr0Flags::PAGING);
    flags.toggle(Cr0Flags::WRITE_PROTECT);
    flags.set(Cr0Flags::NUMERIC_ERROR, true);
    same(&rt, flags.bits(), 0x1_0029);
    same(&rt, flags.union(paging).bits(), 0x8001_0029);
    same(&rt, flags.intersection(paging).bits(), 0x1);
    same(&rt, flags.difference(paging).bits(), 0x1_0028);
    same(&rt, flags.symmetric_difference(paging).bits(), 0x8001_0028);
    same(&rt, flags.complement().bits(), 0xE004_0016);
}

#[test]
fn selectors_and_levels(rt: HostRuntime) {
    let mut selector = SegmentSelector::new(4, PrivilegeLevel::Ring3);
    same(&rt, selector.0, 0x23);
    same(&rt, selector.index(), 4);
    same(&rt, selector.rpl(), PrivilegeLevel::Ring3);
    selector.set_rpl(PrivilegeLevel::Ring0);
    same(&rt, selector, SegmentSelector(0x20));
    same(&rt, SegmentSelector::NULL, SegmentSelector(0));
    // The low 13 bits of an index count.
    same(
        &rt,
        SegmentSelector::new(8191, PrivilegeLevel::Ring0).0,
        0xFFF8,
    );
    same(&rt, SegmentSelector::new(8192, PrivilegeLevel::Ring3).0, 3);
    same(
        &rt,
        SegmentSelector::new(8197, PrivilegeLevel::Ring1).0,
        0x29,
    );
    same(
        &rt,
        SegmentSelector::new(0xFFFF, PrivilegeLevel::Ring2).0,
        0xFFFA,
    );
    same(
        &rt,
        PrivilegeLevel::try_from_u16(2),
        Some(PrivilegeLevel::Ring2),
    );
    same(&rt, PrivilegeLevel::try_from_u16(4), None);
    same(
        &rt,
        PriorityClass::new(15),
        Some(PriorityClass::PriorityClass15),
    );
    same(&rt, PriorityClass::new(0), None);
    same(&rt, PriorityClass::new(16), None);
}

#[test]
fn breakpoints(rt: HostRuntime) {
    same(&rt, DebugAddressRegisterNumber::new(4), None);
    same(&rt, BreakpointCondition::from_bits(4), None);
    same(&rt, BreakpointSize::new(3), None);
    same(&rt, BreakpointSize::new(8), BreakpointSize::from_bits(2));
    let last = DebugAddressRegisterNumber::Dr3;
    same(&rt, Dr6Flags::trap(last), Dr6Flags::TRAP3);
    let mut value = Dr7Value::from(Dr7Flags::local_breakpoint_enable(last));
    value.insert_flags(Dr7Flags::global_breakpoint_enable(last));
    same(&rt, value.bits(), 0xC0);
    value.set_condition(last, BreakpointCondition::IoReadsWrites);
    value.set_size(last, BreakpointSize::Length4B);
    same(&rt, value.bits(), 0xE000_00C0);
    same(
        &rt,
        value.condition(last),
        BreakpointCondition::IoReadsWrites,
    );
    same(&rt, value.size(last), BreakpointSize::Length4B);
    value.remove_flags(Dr7Flags::LOCAL_BREAKPOINT_3_ENABLE);
    value.toggle_flags(Dr7Flags::GENERAL_DETECT_ENABLE);
    value.set_flags(Dr7Flags::GLOBAL_BREAKPOINT_0_ENABLE, true);
    same(&rt, value.bits(), 0xE000_2082);
    same(&rt, value.flags().bits(), 0x2082);
    same(&rt, Dr7Value::from_bits(0xE000_2082), Some(value));
    same(&rt, Dr7Value::from_bits(0x400), None);
    same(
        &rt,
        Dr7Value::from_bits_truncate(u64::MAX).bits(),
        0xFFFF_2BFF,
    );
}

#[test]
fn identifiers_and_their_error(rt: HostRuntime) -> Result<(), Fail> {
    same(&rt, Pcid::new(4095)?.value(), 4095);
    same(&rt, Pcid::new(4096), Err(PcidTooBig(4096)));
    let text = format!(in rt.alloc(); "{}", PcidTooBig(4096))?;
    same(&rt, text.as_str(), "PCID should be < 4096, got 4096");
    let selector = SegmentSelector::new(4, PrivilegeLevel::Ring3);
    let shown = format!(in rt.alloc(); "{selector:?}")?;
    same(
        &rt,
        shown.as_str(),
        "SegmentSelector { index: 4, rpl: Ring3 }",
    );
    Ok(())
}
