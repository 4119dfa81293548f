//! The flags register RFLAGS.

ghost use Rattle.std.specs.Prelude.{◌≡◌, ℕ};
ghost use Rattle.std.specs.Int.{bit_at};
ghost use Rattle.std.specs.Int.RustNames.{bit_and};
ghost use Rattle.bitflags.specs.Sets.{known_bits};
ghost use Rattle.x86_flags.specs.RFlags.{rflags_bits, rflags_flags};
ghost use Rattle.x86_registers.specs.Keeping.{keeping, kept_bit};
ghost use Rattle.x86_registers.specs.Update.{CanUpdate, Updates};

use crate::cpu::Cpu;
use crate::flag_register::FlagRegister;
use crate::register::Register;
pub use x86_flags::RFlags;

// The register itself, by which the calls below are those of every register of flags.
struct RFlagsRegister;

impl Register for RFlagsRegister {
    ghost bits = { λ cpu. cpu.rflags };

    ghost with_bits = { λ cpu value. record cpu { rflags = value } };

    fn get(cpu: &Cpu) -> u64 {
        cpu.rflags
    }

    fn set(cpu: &mut Cpu, value: u64) {
        cpu.rflags = value;
    }
}

impl FlagRegister for RFlagsRegister {
    type Flags = RFlags;

    ghost is_exact = { tt };
}

/// The flags that are set.
pub fn read(cpu: &Cpu) -> RFlags
    ensures { rflags_bits result ≡ bit_and cpu.now.rflags (known_bits rflags_flags) }
{
    RFlagsRegister::read(cpu)
}

/// The register's bits.
pub fn read_raw(cpu: &Cpu) -> u64
    ensures { result ≡ cpu.now.rflags }
{
    RFlagsRegister::read_raw(cpu)
}

/// Writes the flags. Every bit that is no flag stays.
pub fn write(cpu: &mut Cpu, flags: RFlags)
    ensures written { cpu.new
        ≡ record cpu.old { rflags = keeping (known_bits rflags_flags) cpu.old.rflags (rflags_bits flags) } }
    ensures bits { (at : ℕ) → bit_at cpu.new.rflags at
        ≡ kept_bit (known_bits rflags_flags) cpu.old.rflags (rflags_bits flags) at }
{
    RFlagsRegister::write(cpu, flags);
}

/// Replaces the register's bits.
pub fn write_raw(cpu: &mut Cpu, value: u64)
    ensures { cpu.new ≡ record cpu.old { rflags = value } }
{
    RFlagsRegister::write_raw(cpu, value);
}

/// Writes what `f` makes of the flags that are set. Every bit that is no flag stays.
pub fn update<F: FnOnce(RFlags) -> RFlags>(cpu: &mut Cpu, f: F)
    requires { CanUpdate (λ flags. rflags_bits flags ≡ bit_and cpu.old.rflags (known_bits rflags_flags)) (F.pre f) }
    ensures { Updates
        (λ flags. rflags_bits flags ≡ bit_and cpu.old.rflags (known_bits rflags_flags))
        (F.post f)
        (λ flags. cpu.new
        ≡ record cpu.old { rflags = keeping (known_bits rflags_flags) cpu.old.rflags (rflags_bits flags) }) }
{
    RFlagsRegister::update(cpu, f);
}
