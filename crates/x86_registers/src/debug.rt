//! The debug registers.

ghost use Rattle.std.specs.Prelude.{◌≡◌, ℕ};
ghost use Rattle.std.specs.Int.{bit_at};
ghost use Rattle.std.specs.Int.RustNames.{bit_and};
ghost use Rattle.bitflags.specs.Sets.{known_bits};
ghost use Rattle.x86_flags.specs.Dr6Flags.{dr6_bits, dr6_flags};
ghost use Rattle.x86_flags.specs.Dr7Value.{dr7_valid};
ghost use Rattle.x86_registers.specs.Debug.{breakpoint_address};
ghost use Rattle.x86_registers.specs.Keeping.{keeping, kept_bit};
ghost use Rattle.x86_registers.specs.Update.{CanUpdate, Updates};

use crate::cpu::Cpu;
use crate::flag_register::keep;
use crate::register::Register;
use bitflags::Flags;
pub use x86_flags::{
    BreakpointCondition, BreakpointSize, DebugAddressRegisterNumber, Dr6Flags, Dr7Flags, Dr7Value,
};

/// A register that holds a breakpoint's address.
///
/// Source: AMD64 manual, volume 2, section 13.1.1.
pub trait DebugAddressRegister: Register {
    ghost use Rattle.x86_registers.specs.declared.cpu.Cpu.{Cpu};
    ghost use Rattle.x86_flags.specs.declared.debug_address_register_number.DebugAddressRegisterNumber.{DebugAddressRegisterNumber};

    ghost NUM: { DebugAddressRegisterNumber };

    /// The register's number.
    const NUM: DebugAddressRegisterNumber;

    /// The breakpoint's address.
    final fn read(cpu: &Cpu) -> u64
        ensures { result ≡ Self.bits cpu.now }
    {
        Self::get(cpu)
    }

    /// Moves the breakpoint to this address.
    final fn write(cpu: &mut Cpu, addr: u64)
        ensures { cpu.new ≡ Self.with_bits cpu.old addr }
    {
        Self::set(cpu, addr);
    }

    // The number is that of the register's breakpoint.
    ghost is_numbered: { (cpu : Cpu) → Self.bits cpu ≡ breakpoint_address cpu NUM };
}

/// The address of breakpoint 0.
///
/// Source: AMD64 manual, volume 2, section 13.1.1.
#[derive(Debug, Drop)]
pub struct Dr0;

impl Register for Dr0 {
    ghost bits = { λ cpu. cpu.dr0 };

    ghost with_bits = { λ cpu value. record cpu { dr0 = value } };

    fn get(cpu: &Cpu) -> u64 {
        cpu.dr0
    }

    fn set(cpu: &mut Cpu, value: u64) {
        cpu.dr0 = value;
    }
}

impl DebugAddressRegister for Dr0 {
    ghost use Rattle.std.specs.Prelude.{refl};
    ghost use Rattle.x86_flags.specs.declared.debug_address_register_number.DebugAddressRegisterNumber.TheVariants.{Dr0};

    ghost NUM = { Dr0 };

    const NUM: DebugAddressRegisterNumber = DebugAddressRegisterNumber::Dr0;

    ghost is_numbered = { λ cpu. refl };
}

/// The address of breakpoint 1.
///
/// Source: AMD64 manual, volume 2, section 13.1.1.
#[derive(Debug, Drop)]
pub struct Dr1;

impl Register for Dr1 {
    ghost bits = { λ cpu. cpu.dr1 };

    ghost with_bits = { λ cpu value. record cpu { dr1 = value } };

    fn get(cpu: &Cpu) -> u64 {
        cpu.dr1
    }

    fn set(cpu: &mut Cpu, value: u64) {
        cpu.dr1 = value;
    }
}

impl DebugAddressRegister for Dr1 {
    ghost use Rattle.std.specs.Prelude.{refl};
    ghost use Rattle.x86_flags.specs.declared.debug_address_register_number.DebugAddressRegisterNumber.TheVariants.{Dr1};

    ghost NUM = { Dr1 };

    const NUM: DebugAddressRegisterNumber = DebugAddressRegisterNumber::Dr1;

    ghost is_numbered = { λ cpu. refl };
}

/// The address of breakpoint 2.
///
/// Source: AMD64 manual, volume 2, section 13.1.1.
#[derive(Debug, Drop)]
pub struct Dr2;

impl Register for Dr2 {
    ghost bits = { λ cpu. cpu.dr2 };

    ghost with_bits = { λ cpu value. record cpu { dr2 = value } };

    fn get(cpu: &Cpu) -> u64 {
        cpu.dr2
    }

    fn set(cpu: &mut Cpu, value: u64) {
        cpu.dr2 = value;
    }
}

impl DebugAddressRegister for Dr2 {
    ghost use Rattle.std.specs.Prelude.{refl};
    ghost use Rattle.x86_flags.specs.declared.debug_address_register_number.DebugAddressRegisterNumber.TheVariants.{Dr2};

    ghost NUM = { Dr2 };

    const NUM: DebugAddressRegisterNumber = DebugAddressRegisterNumber::Dr2;

    ghost is_numbered = { λ cpu. refl };
}

/// The address of breakpoint 3.
///
/// Source: AMD64 manual, volume 2, section 13.1.1.
#[derive(Debug, Drop)]
pub struct Dr3;

impl Register for Dr3 {
    ghost bits = { λ cpu. cpu.dr3 };

    ghost with_bits = { λ cpu value. record cpu { dr3 = value } };

    fn get(cpu: &Cpu) -> u64 {
        cpu.dr3
    }

    fn set(cpu: &mut Cpu, value: u64) {
        cpu.dr3 = value;
    }
}

impl DebugAddressRegister for Dr3 {
    ghost use Rattle.std.specs.Prelude.{refl};
    ghost use Rattle.x86_flags.specs.declared.debug_address_register_number.DebugAddressRegisterNumber.TheVariants.{Dr3};

    ghost NUM = { Dr3 };

    const NUM: DebugAddressRegisterNumber = DebugAddressRegisterNumber::Dr3;

    ghost is_numbered = { λ cpu. refl };
}

/// Which breakpoint was met, and what else raised a debug exception.
///
/// Source: AMD64 manual, volume 2, section 13.1.1.
#[derive(Debug, Drop)]
pub struct Dr6;

impl Dr6 {
    /// The flags that are set.
    pub fn read(cpu: &Cpu) -> Dr6Flags
        ensures { dr6_bits result ≡ bit_and cpu.now.dr6 (known_bits dr6_flags) }
    {
        Dr6Flags::from_bits_truncate(Self::read_raw(cpu))
    }

    /// The register's bits.
    pub fn read_raw(cpu: &Cpu) -> u64
        ensures { result ≡ cpu.now.dr6 }
    {
        cpu.dr6
    }
}

/// Which breakpoints are on, what each waits for and how much it watches.
///
/// Source: AMD64 manual, volume 2, section 13.1.1.
#[derive(Debug, Drop)]
pub struct Dr7;

impl Dr7 {
    /// The flags and fields.
    pub fn read(cpu: &Cpu) -> Dr7Value
        ensures { result ≡ bit_and cpu.now.dr7 dr7_valid }
    {
        Dr7Value::from_bits_truncate(Self::read_raw(cpu))
    }

    /// The register's bits.
    pub fn read_raw(cpu: &Cpu) -> u64
        ensures { result ≡ cpu.now.dr7 }
    {
        cpu.dr7
    }

    /// Writes the flags and fields. Every other bit stays.
    pub fn write(cpu: &mut Cpu, value: Dr7Value)
        ensures written { cpu.new ≡ record cpu.old { dr7 = keeping dr7_valid cpu.old.dr7 value } }
        ensures bits { (at : ℕ) → bit_at cpu.new.dr7 at ≡ kept_bit dr7_valid cpu.old.dr7 value at }
    {
        let bits = keep(Dr7Value::valid_bits(), Self::read_raw(cpu), value.bits());
        Self::write_raw(cpu, bits);
    }

    /// Replaces the register's bits.
    pub fn write_raw(cpu: &mut Cpu, value: u64)
        ensures { cpu.new ≡ record cpu.old { dr7 = value } }
    {
        cpu.dr7 = value;
    }

    /// Writes what `f` makes of the flags and fields. Every other bit stays.
    pub fn update<F: FnOnce(Dr7Value) -> Dr7Value>(cpu: &mut Cpu, f: F)
        requires { CanUpdate (λ value. value ≡ bit_and cpu.old.dr7 dr7_valid) (F.pre f) }
        ensures { Updates
            (λ value. value ≡ bit_and cpu.old.dr7 dr7_valid)
            (F.post f)
            (λ value. cpu.new ≡ record cpu.old { dr7 = keeping dr7_valid cpu.old.dr7 value }) }
    {
        let value = f(Self::read(cpu));
        Self::write(cpu, value);
    }
}
