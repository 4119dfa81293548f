//! What every register of 64 bits has.

ghost use Rattle.std.specs.Prelude.{◌≡◌};

use crate::cpu::Cpu;

/// A register of 64 bits, by its place in the register file.
pub trait Register {
    ghost use Rattle.std.specs.Prelude.{ℕ};
    ghost use Rattle.x86_registers.specs.declared.cpu.Cpu.{Cpu};

    // The register's bits.
    ghost bits: { Cpu → ℕ };

    // The register file with other bits in this register, and all else as it is.
    ghost with_bits: { Cpu → ℕ → Cpu };

    /// The register's bits.
    fn get(cpu: &Cpu) -> u64
        ensures { result ≡ bits cpu.now };

    /// Replaces the register's bits.
    fn set(cpu: &mut Cpu, value: u64)
        ensures register { cpu.new ≡ with_bits cpu.old value }
        ensures value { bits cpu.new ≡ value };
}
