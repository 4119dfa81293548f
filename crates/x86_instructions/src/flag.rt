//! One flag of RFLAGS.

ghost use Rattle.std.specs.Prelude.{◌≡◌, ◌<◌, ◌↔◌, IsTrue};
ghost use Rattle.std.specs.Fn.{FnOnceReturnsAt, FnOnceTakesAt};
ghost use Rattle.x86_instructions.specs.Flag.{flag_of, with_flag};

use paging_core::{get_bits, set_bits};
use x86_registers::Cpu;

/// Whether the flag at this place is set.
pub(crate) fn is_set(cpu: &Cpu, place: u32) -> bool
    requires { place < 64 }
    ensures { IsTrue result ↔ (flag_of place cpu.now ≡ 1) }
{
    get_bits(cpu.rflags, place, place + 1) == 1
}

/// Sets the flag at this place, or clears it.
pub(crate) fn set(cpu: &mut Cpu, place: u32, value: bool)
    requires { place < 64 }
    ensures { cpu.new ≡ with_flag place value cpu.old }
{
    let bit = if value { 1 } else { 0 };
    cpu.rflags = set_bits(cpu.rflags, place, place + 1, bit);
}

/// Calls `f` while the flag at this place is set, or clear. Afterwards the register file is as it was.
pub(crate) fn with<F: FnOnce(&Cpu) -> R, R>(cpu: &mut Cpu, place: u32, value: bool, f: F) -> R
    requires place { place < 64 }
    requires callable { FnOnceTakesAt F.FnOnce f (with_flag place value cpu.old) }
    ensures called { FnOnceReturnsAt F.FnOnce f (with_flag place value cpu.old) result }
    ensures restored { cpu.new ≡ cpu.old }
{
    let rflags = cpu.rflags;
    set(cpu, place, value);
    let result = f(cpu);
    cpu.rflags = rflags;
    result
}
