//! The numbers of constants and of variants. A variant's number is what `as` gives.

ghost use Rattle.std.specs.Prelude.{◌≡◌};
ghost use Rattle.x86_flags.specs.BreakpointCondition.{condition_bits};
ghost use Rattle.x86_flags.specs.BreakpointSize.{size_bits};
ghost use Rattle.x86_flags.specs.DebugAddressRegisterNumber.{register_number};
ghost use Rattle.x86_flags.specs.PriorityClass.{class_number};
ghost use Rattle.x86_flags.specs.PrivilegeLevel.{level_number};

use crate::{
    BreakpointCondition, BreakpointSize, DebugAddressRegisterNumber, PriorityClass, PrivilegeLevel,
    SegmentSelector,
};

/// The selector of no segment is 0.
pub fn null_selector()
    ensures { SegmentSelector.NULL.0 ≡ 0 }
{}

/// The number of a ring.
pub fn number_of_level(level: PrivilegeLevel) -> u8
    ensures { result ≡ level_number level }
{
    level as u8
}

/// The number of a class of interrupts.
pub fn number_of_class(class: PriorityClass) -> u8
    ensures { result ≡ class_number class }
{
    class as u8
}

/// The number of a debug address register.
pub fn number_of_register(register: DebugAddressRegisterNumber) -> u8
    ensures { result ≡ register_number register }
{
    register as u8
}

/// The two bits of a breakpoint's condition in DR7.
pub fn number_of_condition(condition: BreakpointCondition) -> u8
    ensures { result ≡ condition_bits condition }
{
    condition as u8
}

/// The two bits of a breakpoint's size in DR7.
pub fn number_of_size(size: BreakpointSize) -> u8
    ensures { result ≡ size_bits size }
{
    size as u8
}
