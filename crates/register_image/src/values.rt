// Values of registers and of descriptors, by the names of their flags.
ghost use Rattle.std.specs.Prelude.{◌≡◌, ◌++◌, OnOk, string_bytes, map};
ghost use Rattle.std.specs.Option.{option_map};
ghost use Rattle.bitflags.specs.Sets.{known_bits};
ghost use Rattle.x86_flags.specs.MxCsr.{mxcsr_flags};
ghost use Rattle.x86_flags.specs.XCr0Flags.{xcr0_flags};
ghost use Rattle.x86_registers.specs.Cpu.{new_cpu};
ghost use Rattle.x86_registers.specs.Keeping.{keeping};
ghost use Rattle.x86_tables.specs.DescriptorFlags.{descriptor_flags};
ghost use Rattle.register_image.specs.Numbers.{value_text};
ghost use Rattle.register_image.specs.Values.{named_bits, reason, states_text};

use crate::numbers::{push_number, push_value};
use bitflags::Flags;
use std::alloc::AllocError;
use x86_flags::{MxCsr, XCr0Flags};
use x86_registers::xcontrol::{InvalidXCr0, XCr0};
use x86_registers::{Cpu, FlagRegister, mxcsr};
use x86_tables::gdt::DescriptorFlags;

// The flags of these names; none if one of them is no flag's.
fn flags_named<F: Flags>(names: &[&str]) -> Option<F>
    ensures { F.exact → option_map F.set_of result ≡ named_bits F.table (map (λ name. name.now) names.now) }
{
    let mut flags = F::empty();
    for name in names {
        match F::from_name(name) {
            Some(flag) => flags.insert(flag),
            None => return None,
        }
    }
    Some(flags)
}

/// Puts at the end what a register holds after these flags were written to it, which was 0 before.
pub fn push_register<R: FlagRegister>(out: &mut String, names: &[&str]) -> Result<(), AllocError>
    ensures { OnOk result (string_bytes out.new ≡ string_bytes out.old
        ++ value_text (option_map (λ bits. R.bits (R.with_bits new_cpu (keeping (known_bits R.Flags.table) (R.bits new_cpu) bits))) (named_bits R.Flags.table (map (λ name. name.now) names.now)))) }
{
    let value = match flags_named::<R::Flags>(names) {
        Some(flags) => {
            let mut cpu = Cpu::new();
            R::write(&mut cpu, flags);
            Some(R::read_raw(&cpu))
        }
        None => None,
    };
    push_value(out, value)
}

/// Puts at the end what MXCSR holds after these flags were written to it.
pub fn push_mxcsr(out: &mut String, names: &[&str]) -> Result<(), AllocError>
    ensures { OnOk result (string_bytes out.new ≡ string_bytes out.old ++ value_text (named_bits mxcsr_flags (map (λ name. name.now) names.now))) }
{
    let value = match flags_named::<MxCsr>(names) {
        Some(flags) => {
            let mut cpu = Cpu::new();
            mxcsr::write(&mut cpu, flags);
            Some(u64::from(cpu.mxcsr))
        }
        None => None,
    };
    push_value(out, value)
}

/// Puts the word of a descriptor with these flags at the end.
pub fn push_descriptor(out: &mut String, names: &[&str]) -> Result<(), AllocError>
    ensures { OnOk result (string_bytes out.new ≡ string_bytes out.old ++ value_text (named_bits descriptor_flags (map (λ name. name.now) names.now))) }
{
    let value = match flags_named::<DescriptorFlags>(names) {
        Some(flags) => Some(flags.bits()),
        None => None,
    };
    push_value(out, value)
}

// Why XCR0 refuses flags.
fn reason(error: InvalidXCr0) -> &'static str
    ensures { result.now ≡ reason error }
{
    match error {
        InvalidXCr0::X87 => " X87",
        InvalidXCr0::AvxWithoutSse => " AvxWithoutSse",
        InvalidXCr0::MpxApart => " MpxApart",
        InvalidXCr0::Avx512WithoutAvx => " Avx512WithoutAvx",
        InvalidXCr0::Avx512Apart => " Avx512Apart",
    }
}

/// Puts at the end which bits these flags of XCR0 are, and why they cannot be written to it, if they cannot.
pub fn push_states(out: &mut String, names: &[&str]) -> Result<(), AllocError>
    ensures { OnOk result (string_bytes out.new ≡ string_bytes out.old ++ states_text (named_bits xcr0_flags (map (λ name. name.now) names.now))) }
{
    let Some(flags) = flags_named::<XCr0Flags>(names) else {
        return out.push_str(" none");
    };
    push_number(out, flags.bits())?;
    let mut cpu = Cpu::new();
    match XCr0::try_write(&mut cpu, flags) {
        Ok(()) => out.push_str(" written"),
        Err(error) => out.push_str(reason(error)),
    }
}
