//! Whether maskable interrupts are taken.

ghost use Rattle.std.specs.Prelude.{◌≡◌, ◌↔◌, IsTrue, true, false};
ghost use Rattle.std.specs.Fn.{FnOnceReturnsAt, FnOnceTakesAt};
ghost use Rattle.x86_instructions.specs.Flag.{flag_of, interrupt_flag, with_flag};

use crate::flag;
use x86_registers::Cpu;

/// The place of `RFlags::INTERRUPT_FLAG`.
const INTERRUPT_FLAG: u32 = 9;

/// Whether maskable interrupts are taken.
pub fn are_enabled(cpu: &Cpu) -> bool
    ensures { IsTrue result ↔ (flag_of interrupt_flag cpu.now ≡ 1) }
{
    flag::is_set(cpu, INTERRUPT_FLAG)
}

/// From now on maskable interrupts are taken.
///
/// Source: AMD64 manual, volume 3, `STI`.
pub fn enable(cpu: &mut Cpu)
    ensures { cpu.new ≡ with_flag interrupt_flag true cpu.old }
{
    flag::set(cpu, INTERRUPT_FLAG, true);
}

/// From now on maskable interrupts wait.
///
/// Source: AMD64 manual, volume 3, `CLI`.
pub fn disable(cpu: &mut Cpu)
    ensures { cpu.new ≡ with_flag interrupt_flag false cpu.old }
{
    flag::set(cpu, INTERRUPT_FLAG, false);
}

/// Calls `f` while maskable interrupts wait, and answers what it answers. Afterwards the register file
/// is as it was.
pub fn without_interrupts<F: FnOnce(&Cpu) -> R, R>(cpu: &mut Cpu, f: F) -> R
    requires { FnOnceTakesAt F.FnOnce f (with_flag interrupt_flag false cpu.old) }
    ensures called { FnOnceReturnsAt F.FnOnce f (with_flag interrupt_flag false cpu.old) result }
    ensures restored { cpu.new ≡ cpu.old }
{
    flag::with(cpu, INTERRUPT_FLAG, false, f)
}
