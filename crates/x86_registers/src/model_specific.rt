//! The model specific registers.

ghost use Rattle.std.specs.Prelude.{◌≡◌, ◌↔◌, IsTrue, IsSome, IfSome};
ghost use Rattle.std.specs.Bool.{OnFalse, OnTrue};
ghost use Rattle.std.specs.Int.RustNames.{bit_and};
ghost use Rattle.bitflags.specs.Sets.{known_bits};
ghost use Rattle.x86_flags.specs.RFlags.{rflags_bits, rflags_flags};
ghost use Rattle.x86_registers.specs.Msr.{msr_bits, msr_number, with_msr};
ghost use Rattle.x86_registers.specs.Update.{CanUpdate, Updates};

use crate::cpu::Cpu;
use crate::flag_register::FlagRegister;
use crate::register::Register;
use bitflags::Flags;

mod address;
mod apic_base;
mod cet;
mod star;

pub use crate::model_specific::address::{AddressRegister, FsBase, GsBase, KernelGsBase, LStar};
pub use crate::model_specific::apic_base::ApicBase;
pub use crate::model_specific::cet::{CetRegister, SCet, UCet};
pub use crate::model_specific::star::{InvalidStarSegmentSelectors, Star};
pub use x86_flags::{ApicBaseFlags, CetFlags, EferFlags, RFlags};

const EFER: u32 = 0xC000_0080;

const STAR: u32 = 0xC000_0081;

const LSTAR: u32 = 0xC000_0082;

const SFMASK: u32 = 0xC000_0084;

pub(crate) const FS_BASE: u32 = 0xC000_0100;

pub(crate) const GS_BASE: u32 = 0xC000_0101;

const KERNEL_GS_BASE: u32 = 0xC000_0102;

const U_CET: u32 = 0x6A0;

const S_CET: u32 = 0x6A2;

const APIC_BASE: u32 = 0x1B;

/// A model specific register, by its number. Only those of the register file can be read and written.
///
/// Source: AMD64 manual, volume 2, section 3.2 and appendix A.
#[derive(Debug, Drop)]
pub struct Msr(pub(crate) u32);

impl Msr {
    /// The register of this number.
    pub fn new(reg: u32) -> Msr
        ensures { msr_number result ≡ reg }
    {
        Msr(reg)
    }

    /// The register's bits, or none if the register file has no register of this number.
    pub fn read(&self, cpu: &Cpu) -> Option<u64>
        ensures { result ≡ msr_bits cpu.now (msr_number self.now) }
    {
        Some(match self.0 {
            EFER => Efer::get(cpu),
            STAR => Star::get(cpu),
            LSTAR => LStar::get(cpu),
            SFMASK => SFMask::get(cpu),
            FS_BASE => FsBase::get(cpu),
            GS_BASE => GsBase::get(cpu),
            KERNEL_GS_BASE => KernelGsBase::get(cpu),
            U_CET => UCet::get(cpu),
            S_CET => SCet::get(cpu),
            APIC_BASE => ApicBase::get(cpu),
            _ => return None,
        })
    }

    /// Replaces the register's bits. False, and nothing changes, if the register file has no register of this number.
    pub fn write(&self, cpu: &mut Cpu, value: u64) -> bool
        ensures known { IsTrue result ↔ IsSome (msr_bits cpu.old (msr_number self.now)) }
        ensures written { cpu.new ≡ with_msr cpu.old (msr_number self.now) value }
    {
        match self.0 {
            EFER => Efer::set(cpu, value),
            STAR => Star::set(cpu, value),
            LSTAR => LStar::set(cpu, value),
            SFMASK => SFMask::set(cpu, value),
            FS_BASE => FsBase::set(cpu, value),
            GS_BASE => GsBase::set(cpu, value),
            KERNEL_GS_BASE => KernelGsBase::set(cpu, value),
            U_CET => UCet::set(cpu, value),
            S_CET => SCet::set(cpu, value),
            APIC_BASE => ApicBase::set(cpu, value),
            _ => return false,
        }
        true
    }
}

/// A register that `RDMSR` and `WRMSR` reach by a number.
pub trait ModelSpecificRegister: Register {
    ghost use Rattle.std.specs.Prelude.{ℕ, Some};
    ghost use Rattle.x86_registers.specs.declared.cpu.Cpu.{Cpu};
    ghost use Rattle.x86_registers.specs.declared.model_specific.Msr.{Msr};

    ghost MSR: { Msr };

    /// The register by its number.
    const MSR: Msr;

    // The number is that of the register.
    ghost is_numbered: { (cpu : Cpu) (value : ℕ) → (msr_bits cpu (msr_number MSR) ≡ Some (Self.bits cpu))
        × (with_msr cpu (msr_number MSR) value ≡ Self.with_bits cpu value) };
}

/// Which extensions of the processor are on, long mode among them.
///
/// Source: AMD64 manual, volume 2, section 3.1.7.
#[derive(Debug, Drop)]
pub struct Efer;

impl Register for Efer {
    ghost bits = { λ cpu. cpu.efer };

    ghost with_bits = { λ cpu value. record cpu { efer = value } };

    fn get(cpu: &Cpu) -> u64 {
        cpu.efer
    }

    fn set(cpu: &mut Cpu, value: u64) {
        cpu.efer = value;
    }
}

impl ModelSpecificRegister for Efer {
    ghost use Rattle.std.specs.Prelude.{refl};

    ghost MSR = { record { 0 = 0xC0000080 } };

    const MSR: Msr = Msr(EFER);

    ghost is_numbered = { λ cpu value. (refl, refl) };
}

impl FlagRegister for Efer {
    type Flags = EferFlags;

    ghost is_exact = { tt };
}

/// The flags of RFLAGS that `SYSCALL` clears.
///
/// Source: AMD64 manual, volume 2, section 6.1.1.
#[derive(Debug, Drop)]
pub struct SFMask;

impl Register for SFMask {
    ghost bits = { λ cpu. cpu.sfmask };

    ghost with_bits = { λ cpu value. record cpu { sfmask = value } };

    fn get(cpu: &Cpu) -> u64 {
        cpu.sfmask
    }

    fn set(cpu: &mut Cpu, value: u64) {
        cpu.sfmask = value;
    }
}

impl ModelSpecificRegister for SFMask {
    ghost use Rattle.std.specs.Prelude.{refl};

    ghost MSR = { record { 0 = 0xC0000084 } };

    const MSR: Msr = Msr(SFMASK);

    ghost is_numbered = { λ cpu value. (refl, refl) };
}

impl SFMask {
    /// The flags that `SYSCALL` clears. None exactly if a bit is set that is no flag.
    pub fn read(cpu: &Cpu) -> Option<RFlags>
        ensures some { IsSome result ↔ (bit_and cpu.now.sfmask (known_bits rflags_flags) ≡ cpu.now.sfmask) }
        ensures value { IfSome result (λ flags. rflags_bits flags ≡ cpu.now.sfmask) }
    {
        RFlags::from_bits(cpu.sfmask)
    }

    /// Replaces the register's bits by these flags.
    pub fn write(cpu: &mut Cpu, value: RFlags)
        ensures { cpu.new ≡ record cpu.old { sfmask = rflags_bits value } }
    {
        cpu.sfmask = value.bits();
    }

    /// Writes what `f` makes of the flags. False, and nothing changes, exactly if `read` answers none.
    pub fn update<F: FnOnce(RFlags) -> RFlags>(cpu: &mut Cpu, f: F) -> bool
        requires { bit_and cpu.old.sfmask (known_bits rflags_flags) ≡ cpu.old.sfmask
            → CanUpdate (λ flags. rflags_bits flags ≡ cpu.old.sfmask) (F.pre f) }
        ensures known { IsTrue result ↔ (bit_and cpu.old.sfmask (known_bits rflags_flags) ≡ cpu.old.sfmask) }
        ensures written { OnTrue result (Updates
            (λ flags. rflags_bits flags ≡ cpu.old.sfmask)
            (F.post f)
            (λ flags. cpu.new ≡ record cpu.old { sfmask = rflags_bits flags })) }
        ensures refused { OnFalse result (cpu.new ≡ cpu.old) }
    {
        match Self::read(cpu) {
            Some(flags) => {
                let value = f(flags);
                Self::write(cpu, value);
                true
            }
            None => false,
        }
    }
}
