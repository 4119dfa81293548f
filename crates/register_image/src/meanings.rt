// What vectors and error codes of exceptions mean.
ghost use Rattle.std.specs.Prelude.{◌≡◌, ◌++◌, OnOk, string_bytes};
ghost use Rattle.x86_flags.specs.PageFaultErrorCode.{page_fault_bits};
ghost use Rattle.register_image.specs.Meanings.{exception_name, exception_text, exceptions, name_among, page_fault_text, selector_text, word_if};

use crate::numbers::push_number;
use bitflags::Flags;
use std::alloc::AllocError;
use x86_tables::idt::{DescriptorTable, ExceptionVector, PageFaultErrorCode, SelectorErrorCode};

fn exception_name(exception: ExceptionVector) -> &'static str
    ensures { result.now ≡ exception_name exception }
{
    match exception {
        ExceptionVector::Division => "Division",
        ExceptionVector::Debug => "Debug",
        ExceptionVector::NonMaskableInterrupt => "NonMaskableInterrupt",
        ExceptionVector::Breakpoint => "Breakpoint",
        ExceptionVector::Overflow => "Overflow",
        ExceptionVector::BoundRange => "BoundRange",
        ExceptionVector::InvalidOpcode => "InvalidOpcode",
        ExceptionVector::DeviceNotAvailable => "DeviceNotAvailable",
        ExceptionVector::Double => "Double",
        ExceptionVector::InvalidTss => "InvalidTss",
        ExceptionVector::SegmentNotPresent => "SegmentNotPresent",
        ExceptionVector::Stack => "Stack",
        ExceptionVector::GeneralProtection => "GeneralProtection",
        ExceptionVector::Page => "Page",
        ExceptionVector::X87FloatingPoint => "X87FloatingPoint",
        ExceptionVector::AlignmentCheck => "AlignmentCheck",
        ExceptionVector::MachineCheck => "MachineCheck",
        ExceptionVector::SimdFloatingPoint => "SimdFloatingPoint",
        ExceptionVector::Virtualization => "Virtualization",
        ExceptionVector::ControlProtection => "ControlProtection",
        ExceptionVector::HypervisorInjection => "HypervisorInjection",
        ExceptionVector::VmmCommunication => "VmmCommunication",
        ExceptionVector::Security => "Security",
    }
}

// The name of the exception of a number.
fn name_of(number: u8) -> &'static str
    ensures { result.now ≡ name_among exceptions number }
{
    match ExceptionVector::try_from(number) {
        Ok(exception) => exception_name(exception),
        Err(_) => "none",
    }
}

/// Puts at the end which exception has this number, or that none has it.
pub fn push_exception(out: &mut String, number: u8) -> Result<(), AllocError>
    ensures { OnOk result (string_bytes out.new ≡ string_bytes out.old ++ exception_text number) }
{
    let name = name_of(number);
    write!(out, " {name}")
}

/// Puts at the end what the error code of an exception that a selector raised means.
pub fn push_selector_code(out: &mut String, bits: u64) -> Result<(), AllocError>
    ensures { OnOk result (string_bytes out.new ≡ string_bytes out.old ++ selector_text bits) }
{
    let Some(code) = SelectorErrorCode::new(bits) else {
        return out.push_str(" none");
    };
    if code.is_null() {
        return out.push_str(" null");
    }
    match code.descriptor_table() {
        DescriptorTable::Gdt => out.push_str(" gdt")?,
        DescriptorTable::Idt => out.push_str(" idt")?,
        DescriptorTable::Ldt => out.push_str(" ldt")?,
    }
    push_number(out, code.index())?;
    out.push_str(if code.external() { " external" } else { "" })
}

// Puts a word at the end, if a flag is set in the code.
fn push_flag(
    out: &mut String,
    bits: u64,
    flag: PageFaultErrorCode,
    word: &str,
) -> Result<(), AllocError>
    ensures { OnOk result (string_bytes out.new ≡ string_bytes out.old ++ word_if bits (page_fault_bits flag) word.now) }
{
    if PageFaultErrorCode::from_bits_retain(bits).contains(flag) {
        out.push_str(word)
    } else {
        Ok(())
    }
}

/// Puts at the end what the error code of a page fault means.
pub fn push_page_fault_code(out: &mut String, bits: u64) -> Result<(), AllocError>
    ensures { OnOk result (string_bytes out.new ≡ string_bytes out.old ++ page_fault_text bits) }
{
    push_flag(
        out,
        bits,
        PageFaultErrorCode::PROTECTION_VIOLATION,
        " PROTECTION_VIOLATION",
    )?;
    push_flag(
        out,
        bits,
        PageFaultErrorCode::CAUSED_BY_WRITE,
        " CAUSED_BY_WRITE",
    )?;
    push_flag(out, bits, PageFaultErrorCode::USER_MODE, " USER_MODE")?;
    push_flag(
        out,
        bits,
        PageFaultErrorCode::MALFORMED_TABLE,
        " MALFORMED_TABLE",
    )?;
    push_flag(
        out,
        bits,
        PageFaultErrorCode::INSTRUCTION_FETCH,
        " INSTRUCTION_FETCH",
    )
}
