//! The extended control register XCR0.

ghost use Rattle.std.specs.Prelude.{◌≡◌, ℕ, Ok, OnOk, OnErr};
ghost use Rattle.std.specs.Int.{bit_at};
ghost use Rattle.std.specs.Int.RustNames.{bit_and};
ghost use Rattle.bitflags.specs.Sets.{known_bits};
ghost use Rattle.x86_flags.specs.XCr0Flags.{xcr0_bits, xcr0_flags};
ghost use Rattle.x86_registers.specs.Keeping.{keeping, kept_bit};
ghost use Rattle.x86_registers.specs.Update.{CanUpdate, Updates};
ghost use Rattle.x86_registers.specs.XCr0.{is_lacking, xcr0_verdict};

use crate::cpu::Cpu;
use crate::flag_register::keep;
use bitflags::Flags;
use thiserror::Error;
pub use x86_flags::XCr0Flags;

/// Which processor states are on, such as those of the floating-point units.
///
/// Source: AMD64 manual, volume 2, section 11.5.2.
#[derive(Debug, Drop)]
pub struct XCr0;

/// The states cannot be on together.
///
/// Source: AMD64 manual, volume 2, section 11.5.2; the type is our own.
#[derive(Clone, Copy, PartialEq, Eq, Debug, Error)]
pub enum InvalidXCr0 {
    /// The x87 state is off.
    #[error("X87")]
    X87,
    /// AVX is on without SSE.
    #[error("AvxWithoutSse")]
    AvxWithoutSse,
    /// One of BNDREG and BNDCSR is on without the other.
    #[error("MpxApart")]
    MpxApart,
    /// A part of AVX-512 is on without AVX.
    #[error("Avx512WithoutAvx")]
    Avx512WithoutAvx,
    /// Some parts of AVX-512 are on, and not all three.
    #[error("Avx512Apart")]
    Avx512Apart,
}

impl XCr0 {
    /// The flags that are set.
    pub fn read(cpu: &Cpu) -> XCr0Flags
        ensures { xcr0_bits result ≡ bit_and cpu.now.xcr0 (known_bits xcr0_flags) }
    {
        XCr0Flags::from_bits_truncate(Self::read_raw(cpu))
    }

    /// The register's bits.
    pub fn read_raw(cpu: &Cpu) -> u64
        ensures { result ≡ cpu.now.xcr0 }
    {
        cpu.xcr0
    }

    /// Writes flags that may be set together. Every bit that is no flag stays.
    pub fn write(cpu: &mut Cpu, flags: XCr0Flags)
        requires { xcr0_verdict (xcr0_bits flags) ≡ Ok tt }
        ensures written { cpu.new
            ≡ record cpu.old { xcr0 = keeping (known_bits xcr0_flags) cpu.old.xcr0 (xcr0_bits flags) } }
        ensures bits { (at : ℕ) → bit_at cpu.new.xcr0 at
            ≡ kept_bit (known_bits xcr0_flags) cpu.old.xcr0 (xcr0_bits flags) at }
    {
        let value = keep(XCr0Flags::all().bits(), Self::read_raw(cpu), flags.bits());
        Self::write_raw(cpu, value);
    }

    /// Writes the flags, if they may be set together. Every bit that is no flag stays.
    ///
    /// # Errors
    ///
    /// The first rule of `InvalidXCr0`, in the order of its variants, that the flags break. The register
    /// file then is unchanged.
    pub fn try_write(cpu: &mut Cpu, flags: XCr0Flags) -> Result<(), InvalidXCr0>
        ensures verdict { result ≡ xcr0_verdict (xcr0_bits flags) }
        ensures written { OnOk result (cpu.new
            ≡ record cpu.old { xcr0 = keeping (known_bits xcr0_flags) cpu.old.xcr0 (xcr0_bits flags) }) }
        ensures refused { OnErr result (cpu.new ≡ cpu.old) }
    {
        check(flags)?;
        Self::write(cpu, flags);
        Ok(())
    }

    /// Replaces the register's bits.
    pub fn write_raw(cpu: &mut Cpu, value: u64)
        ensures { cpu.new ≡ record cpu.old { xcr0 = value } }
    {
        cpu.xcr0 = value;
    }

    /// Writes what `f` makes of the flags that are set, if these may be set together. Every bit that is no
    /// flag stays.
    ///
    /// # Errors
    ///
    /// As `try_write`, for the flags that `f` answers. The register file then is unchanged.
    pub fn update<F: FnOnce(XCr0Flags) -> XCr0Flags>(cpu: &mut Cpu, f: F) -> Result<(), InvalidXCr0>
        requires { CanUpdate (λ flags. xcr0_bits flags ≡ bit_and cpu.old.xcr0 (known_bits xcr0_flags)) (F.pre f) }
        ensures verdict { Updates
            (λ flags. xcr0_bits flags ≡ bit_and cpu.old.xcr0 (known_bits xcr0_flags))
            (F.post f)
            (λ flags. (result ≡ xcr0_verdict (xcr0_bits flags))
            × OnOk result (cpu.new
            ≡ record cpu.old { xcr0 = keeping (known_bits xcr0_flags) cpu.old.xcr0 (xcr0_bits flags) })) }
        ensures refused { OnErr result (cpu.new ≡ cpu.old) }
    {
        let flags = f(Self::read(cpu));
        Self::try_write(cpu, flags)
    }
}

/// Whether the flags may be set together.
fn check(flags: XCr0Flags) -> Result<(), InvalidXCr0>
    ensures { result ≡ xcr0_verdict (xcr0_bits flags) }
{
    let mpx = XCr0Flags::BNDREG | XCr0Flags::BNDCSR;
    let avx512 = XCr0Flags::OPMASK | XCr0Flags::ZMM_HI256 | XCr0Flags::HI16_ZMM;
    if !flags.contains(XCr0Flags::X87) {
        return Err(InvalidXCr0::X87);
    }
    if lacks(flags, XCr0Flags::AVX, XCr0Flags::SSE) {
        return Err(InvalidXCr0::AvxWithoutSse);
    }
    if lacks(flags, mpx, mpx) {
        return Err(InvalidXCr0::MpxApart);
    }
    if lacks(flags, avx512, XCr0Flags::AVX) {
        return Err(InvalidXCr0::Avx512WithoutAvx);
    }
    if lacks(flags, avx512, avx512) {
        return Err(InvalidXCr0::Avx512Apart);
    }
    Ok(())
}

/// Whether one of `some` is set and one of `needed` is not.
fn lacks(flags: XCr0Flags, some: XCr0Flags, needed: XCr0Flags) -> bool
    ensures { result ≡ is_lacking (xcr0_bits flags) (xcr0_bits some) (xcr0_bits needed) }
{
    flags.intersects(some) && !flags.contains(needed)
}
