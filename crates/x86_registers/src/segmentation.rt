//! The segment registers.

ghost use Rattle.std.specs.Prelude.{◌≡◌, ◌↔◌, IsTrue, IsSome, IfSome};
ghost use Rattle.paging_core.specs.Address.{is_canonical};

use crate::cpu::Cpu;
use crate::model_specific::{
    AddressRegister, FS_BASE, FsBase, GS_BASE, GsBase, ModelSpecificRegister, Msr,
};
use paging_core::VirtAddr;
use std::mem;
pub use x86_flags::SegmentSelector;

/// A segment register.
///
/// Source: AMD64 manual, volume 2, section 4.5.
pub trait Segment {
    ghost use Rattle.std.specs.Prelude.{ℕ};
    ghost use Rattle.x86_registers.specs.declared.cpu.Cpu.{Cpu};

    // The selector in the register.
    ghost selector: { Cpu → ℕ };

    // The register file with another selector in this register, and all else as it is.
    ghost with_selector: { Cpu → ℕ → Cpu };

    /// The selector in the register.
    fn get_reg(cpu: &Cpu) -> SegmentSelector
        ensures { result.0 ≡ selector cpu.now };

    /// Replaces the selector in the register.
    fn set_reg(cpu: &mut Cpu, sel: SegmentSelector)
        ensures register { cpu.new ≡ with_selector cpu.old sel.0 }
        ensures value { selector cpu.new ≡ sel.0 };
}

/// A segment register whose base counts in 64-bit mode.
///
/// Source: AMD64 manual, volume 2, section 4.5.3.
pub trait Segment64: Segment {
    ghost use Rattle.x86_registers.specs.declared.model_specific.Msr.{Msr};

    /// The register of the base.
    type Base: AddressRegister + ModelSpecificRegister;

    ghost BASE: { Msr };

    /// The register of the base, by its number.
    const BASE: Msr;

    /// The base. None exactly if its bits are no canonical address.
    final fn read_base(cpu: &Cpu) -> Option<VirtAddr>
        ensures some { IsSome result ↔ IsTrue (is_canonical (Self.Base.bits cpu.now)) }
        ensures value { IfSome result (λ base. base ≡ Self.Base.bits cpu.now) }
    {
        Self::Base::read(cpu)
    }

    /// Replaces the base.
    final fn write_base(cpu: &mut Cpu, base: VirtAddr)
        ensures { cpu.new ≡ Self.Base.with_bits cpu.old base }
    {
        Self::Base::write(cpu, base);
    }

    // The number is that of the base.
    ghost is_numbered: { BASE ≡ Self.Base.MSR };
}

/// The code segment.
#[derive(Debug, Drop)]
pub struct CS;

impl Segment for CS {
    ghost selector = { λ cpu. cpu.cs };

    ghost with_selector = { λ cpu value. record cpu { cs = value } };

    fn get_reg(cpu: &Cpu) -> SegmentSelector {
        SegmentSelector(cpu.cs)
    }

    fn set_reg(cpu: &mut Cpu, sel: SegmentSelector) {
        cpu.cs = sel.0;
    }
}

/// The stack segment.
#[derive(Debug, Drop)]
pub struct SS;

impl Segment for SS {
    ghost selector = { λ cpu. cpu.ss };

    ghost with_selector = { λ cpu value. record cpu { ss = value } };

    fn get_reg(cpu: &Cpu) -> SegmentSelector {
        SegmentSelector(cpu.ss)
    }

    fn set_reg(cpu: &mut Cpu, sel: SegmentSelector) {
        cpu.ss = sel.0;
    }
}

/// The data segment.
#[derive(Debug, Drop)]
pub struct DS;

impl Segment for DS {
    ghost selector = { λ cpu. cpu.ds };

    ghost with_selector = { λ cpu value. record cpu { ds = value } };

    fn get_reg(cpu: &Cpu) -> SegmentSelector {
        SegmentSelector(cpu.ds)
    }

    fn set_reg(cpu: &mut Cpu, sel: SegmentSelector) {
        cpu.ds = sel.0;
    }
}

/// The extra segment.
#[derive(Debug, Drop)]
pub struct ES;

impl Segment for ES {
    ghost selector = { λ cpu. cpu.es };

    ghost with_selector = { λ cpu value. record cpu { es = value } };

    fn get_reg(cpu: &Cpu) -> SegmentSelector {
        SegmentSelector(cpu.es)
    }

    fn set_reg(cpu: &mut Cpu, sel: SegmentSelector) {
        cpu.es = sel.0;
    }
}

/// The first of the two extra segments that have a base in 64-bit mode.
#[derive(Debug, Drop)]
pub struct FS;

impl Segment for FS {
    ghost selector = { λ cpu. cpu.fs };

    ghost with_selector = { λ cpu value. record cpu { fs = value } };

    fn get_reg(cpu: &Cpu) -> SegmentSelector {
        SegmentSelector(cpu.fs)
    }

    fn set_reg(cpu: &mut Cpu, sel: SegmentSelector) {
        cpu.fs = sel.0;
    }
}

impl Segment64 for FS {
    ghost use Rattle.std.specs.Prelude.{refl};

    type Base = FsBase;

    ghost BASE = { record { 0 = 0xC0000100 } };

    const BASE: Msr = Msr(FS_BASE);

    ghost is_numbered = { refl };
}

/// The second of the two extra segments that have a base in 64-bit mode.
#[derive(Debug, Drop)]
pub struct GS;

impl Segment for GS {
    ghost selector = { λ cpu. cpu.gs };

    ghost with_selector = { λ cpu value. record cpu { gs = value } };

    fn get_reg(cpu: &Cpu) -> SegmentSelector {
        SegmentSelector(cpu.gs)
    }

    fn set_reg(cpu: &mut Cpu, sel: SegmentSelector) {
        cpu.gs = sel.0;
    }
}

impl Segment64 for GS {
    ghost use Rattle.std.specs.Prelude.{refl};

    type Base = GsBase;

    ghost BASE = { record { 0 = 0xC0000101 } };

    const BASE: Msr = Msr(GS_BASE);

    ghost is_numbered = { refl };
}

impl GS {
    /// Exchanges the base of GS with the one that waits in `KernelGsBase`.
    ///
    /// Source: AMD64 manual, volume 2, section 6.1.3.
    pub fn swap(cpu: &mut Cpu)
        ensures { cpu.new
            ≡ record cpu.old { gs_base = cpu.old.kernel_gs_base; kernel_gs_base = cpu.old.gs_base } }
    {
        mem::swap(&mut cpu.gs_base, &mut cpu.kernel_gs_base);
    }
}
