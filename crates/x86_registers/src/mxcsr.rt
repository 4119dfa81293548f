//! The SIMD control and status register MXCSR.

ghost use Rattle.std.specs.Prelude.{◌≡◌};
ghost use Rattle.std.specs.Int.RustNames.{bit_and};
ghost use Rattle.bitflags.specs.Sets.{known_bits};
ghost use Rattle.x86_flags.specs.MxCsr.{mxcsr_bits, mxcsr_flags};
ghost use Rattle.x86_registers.specs.Update.{CanUpdate, Updates};

use crate::cpu::Cpu;
use bitflags::Flags;
pub use x86_flags::MxCsr;

/// The flags that are set.
pub fn read(cpu: &Cpu) -> MxCsr
    ensures { mxcsr_bits result ≡ bit_and cpu.now.mxcsr (known_bits mxcsr_flags) }
{
    MxCsr::from_bits_truncate(cpu.mxcsr)
}

/// Replaces the register's bits by these flags.
pub fn write(cpu: &mut Cpu, mxcsr: MxCsr)
    ensures { cpu.new ≡ record cpu.old { mxcsr = mxcsr_bits mxcsr } }
{
    cpu.mxcsr = mxcsr.bits();
}

/// Replaces the register's bits by what `f` makes of the flags that are set.
pub fn update<F: FnOnce(MxCsr) -> MxCsr>(cpu: &mut Cpu, f: F)
    requires { CanUpdate (λ flags. mxcsr_bits flags ≡ bit_and cpu.old.mxcsr (known_bits mxcsr_flags)) (F.pre f) }
    ensures { Updates
        (λ flags. mxcsr_bits flags ≡ bit_and cpu.old.mxcsr (known_bits mxcsr_flags))
        (F.post f)
        (λ flags. cpu.new ≡ record cpu.old { mxcsr = mxcsr_bits flags }) }
{
    let mxcsr = f(read(cpu));
    write(cpu, mxcsr);
}
