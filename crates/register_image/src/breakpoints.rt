// Values of DR7.
ghost use Rattle.std.specs.Prelude.{◌≡◌, ◌++◌, OnOk, string_bytes};
ghost use Rattle.x86_flags.specs.BreakpointCondition.{condition_bits};
ghost use Rattle.x86_flags.specs.BreakpointSize.{size_bits, size_bytes};
ghost use Rattle.x86_flags.specs.DebugAddressRegisterNumber.{register_number};
ghost use Rattle.register_image.specs.Breakpoints.{breakpoint_bits, condition_word, breakpoint_line, condition_lines, breakpoint_lines, values_line};

use std::alloc::AllocError;
use x86_flags::{
    BreakpointCondition, BreakpointSize, DebugAddressRegisterNumber, Dr7Flags, Dr7Value,
};

fn condition_word(condition: BreakpointCondition) -> &'static str
    ensures { result.now ≡ condition_word condition }
{
    match condition {
        BreakpointCondition::InstructionExecution => "fetch",
        BreakpointCondition::DataWrites => "write",
        BreakpointCondition::IoReadsWrites => "port",
        BreakpointCondition::DataReadsWrites => "access",
    }
}

fn bytes_of(size: BreakpointSize) -> u64
    ensures { result ≡ size_bytes size }
{
    match size {
        BreakpointSize::Length1B => 1,
        BreakpointSize::Length2B => 2,
        BreakpointSize::Length8B => 8,
        BreakpointSize::Length4B => 4,
    }
}

// What DR7 holds if it has one breakpoint, of the current task.
fn value_of(
    number: DebugAddressRegisterNumber,
    condition: BreakpointCondition,
    size: BreakpointSize,
) -> u64
    ensures { result ≡ breakpoint_bits (register_number number) (condition_bits condition) (size_bits size) }
{
    let mut value = Dr7Value::from(Dr7Flags::local_breakpoint_enable(number));
    value.set_condition(number, condition);
    value.set_size(number, size);
    value.bits()
}

fn push_values(out: &mut String, word: &str, bytes: u64, value: u64) -> Result<(), AllocError>
    ensures { OnOk result (string_bytes out.new ≡ string_bytes out.old ++ values_line word.now bytes value) }
{
    writeln!(out, "breakpoint {word} 0x{bytes:x} 0x{value:x}")
}

fn push_breakpoint(
    out: &mut String,
    number: DebugAddressRegisterNumber,
    condition: BreakpointCondition,
    size: BreakpointSize,
) -> Result<(), AllocError>
    ensures { OnOk result (string_bytes out.new ≡ string_bytes out.old ++ breakpoint_line number condition size) }
{
    let value = value_of(number, condition, size);
    push_values(out, condition_word(condition), bytes_of(size), value)
}

fn push_condition(
    out: &mut String,
    number: DebugAddressRegisterNumber,
    condition: BreakpointCondition,
) -> Result<(), AllocError>
    ensures { OnOk result (string_bytes out.new ≡ string_bytes out.old ++ condition_lines number condition) }
{
    push_breakpoint(out, number, condition, BreakpointSize::Length1B)?;
    push_breakpoint(out, number, condition, BreakpointSize::Length2B)?;
    push_breakpoint(out, number, condition, BreakpointSize::Length4B)?;
    push_breakpoint(out, number, condition, BreakpointSize::Length8B)
}

/// Puts at the end a line for each breakpoint that a debug address register can have: what it waits for, how many bytes
/// it watches, and what DR7 holds if there is no other.
pub fn push_breakpoints(
    out: &mut String,
    number: DebugAddressRegisterNumber,
) -> Result<(), AllocError>
    ensures { OnOk result (string_bytes out.new ≡ string_bytes out.old ++ breakpoint_lines number) }
{
    push_condition(out, number, BreakpointCondition::InstructionExecution)?;
    push_condition(out, number, BreakpointCondition::DataWrites)?;
    push_condition(out, number, BreakpointCondition::IoReadsWrites)?;
    push_condition(out, number, BreakpointCondition::DataReadsWrites)
}
