//! The segment selectors of system calls.

ghost use Rattle.std.specs.Prelude.{◌≡◌, ◌+◌, ◌-◌, ◌^◌, ◌<◌, ◌==◌, SomeIff, OnOk, OnErr};
ghost use Rattle.x86_registers.specs.Star.{selectors_of, star_verdict, star_word, syscall_of, sysret_of};

use crate::cpu::Cpu;
use crate::model_specific::{ModelSpecificRegister, Msr, STAR};
use crate::register::Register;
use paging_core::{get_bits, set_bits};
use thiserror::Error;
use x86_flags::{PrivilegeLevel, SegmentSelector};

/// The segment selectors of `SYSCALL` and `SYSRET`.
///
/// Source: AMD64 manual, volume 2, section 6.1.1.
#[derive(Debug, Drop)]
pub struct Star;

impl Register for Star {
    ghost bits = { λ cpu. cpu.star };

    ghost with_bits = { λ cpu value. record cpu { star = value } };

    fn get(cpu: &Cpu) -> u64 {
        cpu.star
    }

    fn set(cpu: &mut Cpu, value: u64) {
        cpu.star = value;
    }
}

impl ModelSpecificRegister for Star {
    ghost use Rattle.std.specs.Prelude.{refl};

    ghost MSR = { record { 0 = 0xC0000081 } };

    const MSR: Msr = Msr(STAR);

    ghost is_numbered = { λ cpu value. (refl, refl) };
}

/// The selectors of a system call do not lie as `SYSCALL` and `SYSRET` take them.
#[derive(Clone, Copy, PartialEq, Eq, Debug, Error)]
pub enum InvalidStarSegmentSelectors {
    /// The code selector of `SYSRET` is not 8 above its stack selector, or that is below 8.
    #[error("Sysret CS and SS are not offset by 8.")]
    SysretOffset,
    /// The stack selector of `SYSCALL` is not 8 above its code selector.
    #[error("Syscall CS and SS are not offset by 8.")]
    SyscallOffset,
    /// The stack selector of `SYSRET` does not ask for ring 3.
    #[error("Sysret's segment must be a Ring3 segment.")]
    SysretPrivilegeLevel,
    /// The stack selector of `SYSCALL` does not ask for ring 0.
    #[error("Syscall's segment must be a Ring0 segment.")]
    SyscallPrivilegeLevel,
}

impl Star {
    /// The fields of `SYSRET` and of `SYSCALL`: bits 48 to 63, and bits 32 to 47.
    pub fn read_raw(cpu: &Cpu) -> (u16, u16)
        ensures sysret { result.0 ≡ sysret_of cpu.now.star }
        ensures syscall { result.1 ≡ syscall_of cpu.now.star }
    {
        let sysret = get_bits(cpu.star, 48, 64) as u16;
        let syscall = get_bits(cpu.star, 32, 48) as u16;
        (sysret, syscall)
    }

    /// The selectors: the code and the stack of `SYSRET`, and the code and the stack of `SYSCALL`. None exactly if one
    /// of them would exceed 65535.
    pub fn read(
        cpu: &Cpu,
    ) -> Option<
        (
            SegmentSelector,
            SegmentSelector,
            SegmentSelector,
            SegmentSelector,
        ),
    >
        ensures { SomeIff result
            ((sysret_of cpu.now.star + 16 < 2 ^ 16) × (syscall_of cpu.now.star + 8 < 2 ^ 16))
            (selectors_of cpu.now.star) }
    {
        let (sysret, syscall) = Self::read_raw(cpu);
        let cs_sysret = sysret.checked_add(16)?;
        let ss_syscall = syscall.checked_add(8)?;
        Some((
            SegmentSelector(cs_sysret),
            SegmentSelector(sysret + 8),
            SegmentSelector(syscall),
            SegmentSelector(ss_syscall),
        ))
    }

    /// Replaces the fields of `SYSRET` and of `SYSCALL`. All other bits become 0.
    pub fn write_raw(cpu: &mut Cpu, sysret: u16, syscall: u16)
        ensures { cpu.new ≡ record cpu.old { star = star_word sysret syscall } }
    {
        let value = set_bits(0, 48, 64, u64::from(sysret));
        cpu.star = set_bits(value, 32, 48, u64::from(syscall));
    }

    /// Replaces the selectors: the code and the stack of `SYSRET` to 64-bit code, and the code and the
    /// stack of `SYSCALL`. All other bits become 0.
    ///
    /// # Errors
    ///
    /// The first rule of `InvalidStarSegmentSelectors`, in the order of its variants, that they break. The
    /// register file then is unchanged.
    pub fn write(
        cpu: &mut Cpu,
        cs_sysret: SegmentSelector,
        ss_sysret: SegmentSelector,
        cs_syscall: SegmentSelector,
        ss_syscall: SegmentSelector,
    ) -> Result<(), InvalidStarSegmentSelectors>
        ensures verdict { result ≡ star_verdict cs_sysret.0 ss_sysret.0 cs_syscall.0 ss_syscall.0 }
        ensures written { OnOk result
            (cpu.new ≡ record cpu.old { star = star_word (ss_sysret.0 - 8) cs_syscall.0 }) }
        ensures refused { OnErr result (cpu.new ≡ cpu.old) }
    {
        if ss_sysret.0 < 8 || !is_next(ss_sysret, cs_sysret) {
            return Err(InvalidStarSegmentSelectors::SysretOffset);
        }
        if !is_next(cs_syscall, ss_syscall) {
            return Err(InvalidStarSegmentSelectors::SyscallOffset);
        }
        if ss_sysret.rpl() != PrivilegeLevel::Ring3 {
            return Err(InvalidStarSegmentSelectors::SysretPrivilegeLevel);
        }
        if ss_syscall.rpl() != PrivilegeLevel::Ring0 {
            return Err(InvalidStarSegmentSelectors::SyscallPrivilegeLevel);
        }
        Self::write_raw(cpu, ss_sysret.0 - 8, cs_syscall.0);
        Ok(())
    }
}

/// Whether the second selector names the descriptor after the first one's, at the same level.
fn is_next(first: SegmentSelector, second: SegmentSelector) -> bool
    ensures { result ≡ (second.0 == first.0 + 8) }
{
    u32::from(second.0) == u32::from(first.0) + 8
}
