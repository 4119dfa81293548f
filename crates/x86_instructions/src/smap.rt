//! Keeping supervisor code from user pages (supervisor mode access prevention).
//!
//! The processor does so only if `Cr4Flags::SUPERVISOR_MODE_ACCESS_PREVENTION` is set too, which the calls here do not
//! look at.

ghost use Rattle.std.specs.Prelude.{◌≡◌, ◌↔◌, IsTrue, IsSome, true, false};
ghost use Rattle.std.specs.Fn.{FnOnceReturnsAt, FnOnceTakesAt};
ghost use Rattle.x86_instructions.specs.Flag.{alignment_check, flag_of, with_flag};

use crate::flag;
use x86_registers::Cpu;

/// The place of `RFlags::ALIGNMENT_CHECK`.
const ALIGNMENT_CHECK: u32 = 18;

/// The sign that the processor can keep supervisor code from user pages.
///
/// Source: AMD64 manual, volume 2, section 5.6.6.
#[derive(Clone, Copy, Debug)]
pub struct Smap(());

impl Smap {
    /// The sign. None exactly if the processor lacks the feature.
    pub fn new(cpu: &Cpu) -> Option<Self>
        ensures { IsSome result ↔ IsTrue cpu.now.smap }
    {
        if cpu.smap { Some(Self(())) } else { None }
    }

    /// The sign, by the caller's word that the processor has the feature.
    pub fn new_unchecked() -> Self {
        Self(())
    }

    /// Whether supervisor code is kept from user pages: `RFlags::ALIGNMENT_CHECK` is clear.
    pub fn is_enabled(self, cpu: &Cpu) -> bool
        ensures { IsTrue result ↔ (flag_of alignment_check cpu.now ≡ 0) }
    {
        !flag::is_set(cpu, ALIGNMENT_CHECK)
    }

    /// From now on supervisor code may touch user pages.
    ///
    /// Source: AMD64 manual, volume 3, `STAC`.
    pub fn disable(self, cpu: &mut Cpu)
        ensures { cpu.new ≡ with_flag alignment_check true cpu.old }
    {
        flag::set(cpu, ALIGNMENT_CHECK, true);
    }

    /// From now on supervisor code is kept from user pages.
    ///
    /// Source: AMD64 manual, volume 3, `CLAC`.
    pub fn enable(self, cpu: &mut Cpu)
        ensures { cpu.new ≡ with_flag alignment_check false cpu.old }
    {
        flag::set(cpu, ALIGNMENT_CHECK, false);
    }

    /// Calls `f` while supervisor code may touch user pages, and answers what it answers. Afterwards the
    /// register file is as it was.
    pub fn without_smap<F: FnOnce(&Cpu) -> R, R>(self, cpu: &mut Cpu, f: F) -> R
        requires { FnOnceTakesAt F.FnOnce f (with_flag alignment_check true cpu.old) }
        ensures called { FnOnceReturnsAt F.FnOnce f (with_flag alignment_check true cpu.old) result }
        ensures restored { cpu.new ≡ cpu.old }
    {
        flag::with(cpu, ALIGNMENT_CHECK, true, f)
    }
}
