//! The base of the local interrupt controller.

ghost use Rattle.std.specs.Prelude.{◌≡◌, ℕ, ◌*◌, ◌<◌, ◌≤◌};
ghost use Rattle.std.specs.Int.{bit_at};
ghost use Rattle.std.specs.Int.RustNames.{bit_and, bit_or};
ghost use Rattle.bitflags.specs.Sets.{known_bits};
ghost use Rattle.paging_core.specs.Field.{field_of, with_bit_field};
ghost use Rattle.x86_flags.specs.ApicBaseFlags.{apic_base_bits, apic_base_flags};
ghost use Rattle.x86_registers.specs.Keeping.{keeping, kept_bit};

use crate::cpu::Cpu;
use crate::flag_register::keep;
use crate::model_specific::{APIC_BASE, ModelSpecificRegister, Msr};
use crate::register::Register;
use bitflags::Flags;
use paging_core::{PhysAddr, PhysFrame, set_bits};
use x86_flags::ApicBaseFlags;

/// Where the local interrupt controller lies, and its state.
///
/// Source: AMD64 manual, volume 2, section 16.3.1.
#[derive(Debug, Drop)]
pub struct ApicBase;

impl Register for ApicBase {
    ghost bits = { λ cpu. cpu.apic_base };

    ghost with_bits = { λ cpu value. record cpu { apic_base = value } };

    fn get(cpu: &Cpu) -> u64 {
        cpu.apic_base
    }

    fn set(cpu: &mut Cpu, value: u64) {
        cpu.apic_base = value;
    }
}

impl ModelSpecificRegister for ApicBase {
    ghost use Rattle.std.specs.Prelude.{refl};

    ghost MSR = { record { 0 = 0x1B } };

    const MSR: Msr = Msr(APIC_BASE);

    ghost is_numbered = { λ cpu value. (refl, refl) };
}

impl ApicBase {
    /// The frame of the controller's registers, bits 12 to 51, and the flags that are set.
    pub fn read(cpu: &Cpu) -> (PhysFrame, ApicBaseFlags)
        ensures frame { result.0 ≡ field_of cpu.now.apic_base 12 52 }
        ensures flags { apic_base_bits result.1 ≡ bit_and cpu.now.apic_base (known_bits apic_base_flags) }
    {
        let (frame, flags) = Self::read_raw(cpu);
        (frame, ApicBaseFlags::from_bits_truncate(flags))
    }

    /// The frame of the controller's registers, bits 12 to 51, and all of the register's bits.
    pub fn read_raw(cpu: &Cpu) -> (PhysFrame, u64)
        ensures frame { result.0 ≡ field_of cpu.now.apic_base 12 52 }
        ensures bits { result.1 ≡ cpu.now.apic_base }
    {
        let address = PhysAddr::new_truncate(cpu.apic_base);
        (PhysFrame::containing_address(address), cpu.apic_base)
    }

    /// Writes the frame and the flags. Every bit that is neither stays.
    pub fn write(cpu: &mut Cpu, frame: PhysFrame, flags: ApicBaseFlags)
        ensures written { cpu.new ≡ record cpu.old {
          apic_base = with_bit_field
              (keeping (known_bits apic_base_flags) cpu.old.apic_base (apic_base_bits flags)) 12 52 frame;
        } }
        ensures frame { field_of cpu.new.apic_base 12 52 ≡ frame }
        ensures below { (at : ℕ) → at < 12 → bit_at cpu.new.apic_base at
            ≡ kept_bit (known_bits apic_base_flags) cpu.old.apic_base (apic_base_bits flags) at }
        ensures above { (at : ℕ) → 52 ≤ at → bit_at cpu.new.apic_base at
            ≡ kept_bit (known_bits apic_base_flags) cpu.old.apic_base (apic_base_bits flags) at }
    {
        let bits = keep(ApicBaseFlags::all().bits(), cpu.apic_base, flags.bits());
        cpu.apic_base = set_bits(bits, 12, 52, frame.number());
    }

    /// Replaces the register's bits by these flags and the address of this frame, joined bit by bit.
    pub fn write_raw(cpu: &mut Cpu, frame: PhysFrame, flags: u64)
        ensures { cpu.new ≡ record cpu.old { apic_base = bit_or flags (frame * 4096) } }
    {
        cpu.apic_base = flags | frame.start_address().as_u64();
    }
}
