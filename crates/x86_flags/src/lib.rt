//! The flags of the x86-64 registers and of the code of a page fault, and the small values that their fields hold.
#![tactic(auto)]

/// The rows of a table of flags: the name and the value of each constant that is named. It is called among
/// the constants' own type, in a crate that has `bitflags`.
#[macro_export]
macro_rules! flag_rows {
    ($($name:ident),* $(,)?) => {
        &[$(bitflags::Flag { name: stringify!($name), value: Self::$name },)*]
    };
}

mod apic_base_flags;
mod breakpoint_condition;
mod breakpoint_size;
mod cet_flags;
mod cr0_flags;
mod cr3_flags;
mod cr4_flags;
mod debug_address_register_number;
mod dr6_flags;
mod dr7_flags;
mod dr7_value;
mod efer_flags;
mod laws;
mod mxcsr;
mod page_fault_error_code;
mod pcid;
mod priority_class;
mod privilege_level;
mod rflags;
mod segment_selector;
mod xcr0_flags;

pub use crate::apic_base_flags::ApicBaseFlags;
pub use crate::breakpoint_condition::BreakpointCondition;
pub use crate::breakpoint_size::BreakpointSize;
pub use crate::cet_flags::CetFlags;
pub use crate::cr0_flags::Cr0Flags;
pub use crate::cr3_flags::Cr3Flags;
pub use crate::cr4_flags::Cr4Flags;
pub use crate::debug_address_register_number::DebugAddressRegisterNumber;
pub use crate::dr6_flags::Dr6Flags;
pub use crate::dr7_flags::Dr7Flags;
pub use crate::dr7_value::Dr7Value;
pub use crate::efer_flags::EferFlags;
pub use crate::laws::{
    null_selector, number_of_class, number_of_condition, number_of_level, number_of_register,
    number_of_size,
};
pub use crate::mxcsr::MxCsr;
pub use crate::page_fault_error_code::PageFaultErrorCode;
pub use crate::pcid::{Pcid, PcidTooBig};
pub use crate::priority_class::PriorityClass;
pub use crate::privilege_level::PrivilegeLevel;
pub use crate::rflags::RFlags;
pub use crate::segment_selector::SegmentSelector;
pub use crate::xcr0_flags::XCr0Flags;
