//! Registers whose bits are flags.

ghost use Rattle.std.specs.Prelude.{◌≡◌, ℕ};
ghost use Rattle.std.specs.Int.{bit_at};
ghost use Rattle.std.specs.Int.RustNames.{bit_and};
ghost use Rattle.bitflags.specs.Sets.{known_bits};
ghost use Rattle.x86_registers.specs.Keeping.{keeping, kept_bit};
ghost use Rattle.x86_registers.specs.Update.{CanUpdate, Updates};

use crate::cpu::Cpu;
use crate::register::Register;
use bitflags::Flags;

/// `old` with the bits of `mask` taken from `value`.
pub(crate) fn keep(mask: u64, old: u64, value: u64) -> u64
    ensures number { result ≡ keeping mask old value }
    ensures bits { (at : ℕ) → bit_at result at ≡ kept_bit mask old value at }
{
    old & !mask | value & mask
}

/// A register whose bits are flags. A write keeps the bits that are no flag.
pub trait FlagRegister: Register {
    /// The flags.
    type Flags: Flags<Bits = u64>;

    /// The flags that are set.
    final fn read(cpu: &Cpu) -> Self::Flags
        ensures { Self.Flags.set_of result ≡ bit_and (Self.bits cpu.now) (known_bits Self.Flags.table) }
    {
        Self::Flags::from_bits_truncate(Self::get(cpu))
    }

    /// The register's bits.
    final fn read_raw(cpu: &Cpu) -> u64
        ensures { result ≡ Self.bits cpu.now }
    {
        Self::get(cpu)
    }

    /// Writes the flags. Every bit that is no flag stays.
    final fn write(cpu: &mut Cpu, flags: Self::Flags)
        ensures written { cpu.new ≡ Self.with_bits cpu.old
            (keeping (known_bits Self.Flags.table) (Self.bits cpu.old) (Self.Flags.set_of flags)) }
        ensures bits { (at : ℕ) → bit_at (Self.bits cpu.new) at
            ≡ kept_bit (known_bits Self.Flags.table) (Self.bits cpu.old) (Self.Flags.set_of flags) at }
    {
        let value = keep(Self::Flags::all().bits(), Self::get(cpu), flags.bits());
        Self::set(cpu, value);
    }

    /// Replaces the register's bits.
    final fn write_raw(cpu: &mut Cpu, value: u64)
        ensures { cpu.new ≡ Self.with_bits cpu.old value }
    {
        Self::set(cpu, value);
    }

    /// Writes what `f` makes of the flags that are set. Every bit that is no flag stays.
    final fn update<F: FnOnce(Self::Flags) -> Self::Flags>(cpu: &mut Cpu, f: F)
        requires { CanUpdate
            (λ flags. Self.Flags.set_of flags ≡ bit_and (Self.bits cpu.old) (known_bits Self.Flags.table)) (F.pre f) }
        ensures { Updates
            (λ flags. Self.Flags.set_of flags ≡ bit_and (Self.bits cpu.old) (known_bits Self.Flags.table))
            (F.post f)
            (λ flags. cpu.new ≡ Self.with_bits cpu.old
            (keeping (known_bits Self.Flags.table) (Self.bits cpu.old) (Self.Flags.set_of flags))) }
    {
        let flags = f(Self::read(cpu));
        Self::write(cpu, flags);
    }

    // The flag type's calls are exact.
    ghost is_exact: { Self.Flags.exact };
}
