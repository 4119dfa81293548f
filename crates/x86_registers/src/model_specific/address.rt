//! The model specific registers that hold an address.

ghost use Rattle.std.specs.Prelude.{◌≡◌, ◌↔◌, IsTrue, IsSome, IfSome};
ghost use Rattle.paging_core.specs.Address.{is_canonical};

use crate::cpu::Cpu;
use crate::model_specific::{FS_BASE, GS_BASE, KERNEL_GS_BASE, LSTAR, ModelSpecificRegister, Msr};
use crate::register::Register;
use paging_core::VirtAddr;

/// A model specific register that holds an address.
pub trait AddressRegister: Register {
    /// The address. None exactly if the register's bits are no canonical address.
    final fn read(cpu: &Cpu) -> Option<VirtAddr>
        ensures some { IsSome result ↔ IsTrue (is_canonical (Self.bits cpu.now)) }
        ensures value { IfSome result (λ address. address ≡ Self.bits cpu.now) }
    {
        VirtAddr::try_new(Self::get(cpu)).ok()
    }

    /// Replaces the address.
    final fn write(cpu: &mut Cpu, address: VirtAddr)
        ensures { cpu.new ≡ Self.with_bits cpu.old address }
    {
        Self::set(cpu, address.as_u64());
    }
}

/// The base of the segment FS.
///
/// Source: AMD64 manual, volume 2, section 4.5.3.
#[derive(Debug, Drop)]
pub struct FsBase;

impl Register for FsBase {
    ghost bits = { λ cpu. cpu.fs_base };

    ghost with_bits = { λ cpu value. record cpu { fs_base = value } };

    fn get(cpu: &Cpu) -> u64 {
        cpu.fs_base
    }

    fn set(cpu: &mut Cpu, value: u64) {
        cpu.fs_base = value;
    }
}

impl ModelSpecificRegister for FsBase {
    ghost use Rattle.std.specs.Prelude.{refl};

    ghost MSR = { record { 0 = 0xC0000100 } };

    const MSR: Msr = Msr(FS_BASE);

    ghost is_numbered = { λ cpu value. (refl, refl) };
}

impl AddressRegister for FsBase {}

/// The base of the segment GS. `GS::swap` exchanges it with `KernelGsBase`.
///
/// Source: AMD64 manual, volume 2, section 4.5.3.
#[derive(Debug, Drop)]
pub struct GsBase;

impl Register for GsBase {
    ghost bits = { λ cpu. cpu.gs_base };

    ghost with_bits = { λ cpu value. record cpu { gs_base = value } };

    fn get(cpu: &Cpu) -> u64 {
        cpu.gs_base
    }

    fn set(cpu: &mut Cpu, value: u64) {
        cpu.gs_base = value;
    }
}

impl ModelSpecificRegister for GsBase {
    ghost use Rattle.std.specs.Prelude.{refl};

    ghost MSR = { record { 0 = 0xC0000101 } };

    const MSR: Msr = Msr(GS_BASE);

    ghost is_numbered = { λ cpu value. (refl, refl) };
}

impl AddressRegister for GsBase {}

/// The base of GS that `GS::swap` brings in.
///
/// Source: AMD64 manual, volume 2, section 6.1.3.
#[derive(Debug, Drop)]
pub struct KernelGsBase;

impl Register for KernelGsBase {
    ghost bits = { λ cpu. cpu.kernel_gs_base };

    ghost with_bits = { λ cpu value. record cpu { kernel_gs_base = value } };

    fn get(cpu: &Cpu) -> u64 {
        cpu.kernel_gs_base
    }

    fn set(cpu: &mut Cpu, value: u64) {
        cpu.kernel_gs_base = value;
    }
}

impl ModelSpecificRegister for KernelGsBase {
    ghost use Rattle.std.specs.Prelude.{refl};

    ghost MSR = { record { 0 = 0xC0000102 } };

    const MSR: Msr = Msr(KERNEL_GS_BASE);

    ghost is_numbered = { λ cpu value. (refl, refl) };
}

impl AddressRegister for KernelGsBase {}

/// The address that `SYSCALL` jumps to.
///
/// Source: AMD64 manual, volume 2, section 6.1.1.
#[derive(Debug, Drop)]
pub struct LStar;

impl Register for LStar {
    ghost bits = { λ cpu. cpu.lstar };

    ghost with_bits = { λ cpu value. record cpu { lstar = value } };

    fn get(cpu: &Cpu) -> u64 {
        cpu.lstar
    }

    fn set(cpu: &mut Cpu, value: u64) {
        cpu.lstar = value;
    }
}

impl ModelSpecificRegister for LStar {
    ghost use Rattle.std.specs.Prelude.{refl};

    ghost MSR = { record { 0 = 0xC0000082 } };

    const MSR: Msr = Msr(LSTAR);

    ghost is_numbered = { λ cpu value. (refl, refl) };
}

impl AddressRegister for LStar {}
