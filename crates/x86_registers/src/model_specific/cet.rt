//! The registers of control-flow enforcement.

ghost use Rattle.std.specs.Prelude.{◌≡◌, ◌*◌, ◌/◌, ◌↔◌, IsTrue, IsSome, IfSome};
ghost use Rattle.std.specs.Bool.{OnFalse, OnTrue};
ghost use Rattle.std.specs.Int.RustNames.{bit_or};
ghost use Rattle.paging_core.specs.Address.{is_canonical};
ghost use Rattle.x86_flags.specs.CetFlags.{cet_bits};
ghost use Rattle.x86_registers.specs.Cet.{IsCet};
ghost use Rattle.x86_registers.specs.Update.{CanUpdate, Updates};

use crate::cpu::Cpu;
use crate::model_specific::{ModelSpecificRegister, Msr, S_CET, U_CET};
use crate::register::Register;
use bitflags::Flags;
use paging_core::{Page, VirtAddr};
use x86_flags::CetFlags;

/// A model specific register of control-flow enforcement: its flags, and the page where the bitmap of
/// legacy code begins.
///
/// Source: AMD64 manual, volume 2, chapter 18, for the shadow stack; the rest is Intel's alone.
pub trait CetRegister: Register {
    /// The flags that are set, and the page of the bitmap. None exactly if the register's bits from 12 on are no
    /// canonical address.
    final fn read(cpu: &Cpu) -> Option<(CetFlags, Page)>
        ensures some { IsSome result ↔ IsTrue (is_canonical (Self.bits cpu.now / 4096 * 4096)) }
        ensures value { IfSome result (IsCet (Self.bits cpu.now)) }
    {
        let value = Self::get(cpu);
        let address = VirtAddr::try_new(value & !0xFFF).ok()?;
        Some((
            CetFlags::from_bits_truncate(value),
            Page::containing_address(address),
        ))
    }

    /// Replaces the register's bits by these flags and the address of this page, joined bit by bit.
    final fn write(cpu: &mut Cpu, flags: CetFlags, legacy_bitmap: Page)
        ensures { cpu.new ≡ Self.with_bits cpu.old (bit_or (cet_bits flags) (legacy_bitmap * 4096)) }
    {
        Self::set(cpu, flags.bits() | legacy_bitmap.start_address().as_u64());
    }

    /// Writes what `f` makes of the flags and the page. False, and nothing changes, exactly if `read` answers none.
    final fn update<F: FnOnce((CetFlags, Page)) -> (CetFlags, Page)>(cpu: &mut Cpu, f: F) -> bool
        requires { IsTrue (is_canonical (Self.bits cpu.old / 4096 * 4096))
            → CanUpdate (IsCet (Self.bits cpu.old)) (F.pre f) }
        ensures known { IsTrue result ↔ IsTrue (is_canonical (Self.bits cpu.old / 4096 * 4096)) }
        ensures written { OnTrue result (Updates
            (IsCet (Self.bits cpu.old))
            (F.post f)
            (λ pair. cpu.new ≡ Self.with_bits cpu.old (bit_or (cet_bits pair.0) (pair.1 * 4096)))) }
        ensures refused { OnFalse result (cpu.new ≡ cpu.old) }
    {
        match Self::read(cpu) {
            Some(pair) => {
                let (flags, legacy_bitmap) = f(pair);
                Self::write(cpu, flags, legacy_bitmap);
                true
            }
            None => false,
        }
    }
}

/// The control-flow enforcement of user code.
///
/// Source: AMD64 manual, volume 2, chapter 18, for the shadow stack; the rest is Intel's alone.
#[derive(Debug, Drop)]
pub struct UCet;

impl Register for UCet {
    ghost bits = { λ cpu. cpu.u_cet };

    ghost with_bits = { λ cpu value. record cpu { u_cet = value } };

    fn get(cpu: &Cpu) -> u64 {
        cpu.u_cet
    }

    fn set(cpu: &mut Cpu, value: u64) {
        cpu.u_cet = value;
    }
}

impl ModelSpecificRegister for UCet {
    ghost use Rattle.std.specs.Prelude.{refl};

    ghost MSR = { record { 0 = 0x6A0 } };

    const MSR: Msr = Msr(U_CET);

    ghost is_numbered = { λ cpu value. (refl, refl) };
}

impl CetRegister for UCet {}

/// The control-flow enforcement of supervisor code.
///
/// Source: AMD64 manual, volume 2, chapter 18, for the shadow stack; the rest is Intel's alone.
#[derive(Debug, Drop)]
pub struct SCet;

impl Register for SCet {
    ghost bits = { λ cpu. cpu.s_cet };

    ghost with_bits = { λ cpu value. record cpu { s_cet = value } };

    fn get(cpu: &Cpu) -> u64 {
        cpu.s_cet
    }

    fn set(cpu: &mut Cpu, value: u64) {
        cpu.s_cet = value;
    }
}

impl ModelSpecificRegister for SCet {
    ghost use Rattle.std.specs.Prelude.{refl};

    ghost MSR = { record { 0 = 0x6A2 } };

    const MSR: Msr = Msr(S_CET);

    ghost is_numbered = { λ cpu value. (refl, refl) };
}

impl CetRegister for SCet {}
