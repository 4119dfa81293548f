//! The control registers.

ghost use Rattle.std.specs.Prelude.{◌≡◌, ◌*◌, ◌%◌, ◌^◌, ◌<◌, ◌↔◌, IsTrue, IsOk, IfOk, IfErr};
ghost use Rattle.std.specs.Int.RustNames.{bit_or};
ghost use Rattle.paging_core.specs.Address.{is_canonical};
ghost use Rattle.x86_flags.specs.Cr3Flags.{cr3_bits};
ghost use Rattle.x86_registers.specs.Cr3.{HasFlags, HasPcid, cr3_word, root_of};
ghost use Rattle.x86_registers.specs.Priority.{priority_in, priority_number};
ghost use Rattle.x86_registers.specs.Update.{CanUpdate, Updates};

use crate::cpu::Cpu;
use crate::flag_register::FlagRegister;
pub use crate::model_specific::{Efer, EferFlags};
use crate::register::Register;
use bitflags::Flags;
use paging_core::{PhysAddr, PhysFrame, VirtAddr, VirtAddrNotValid};
use x86_flags::Pcid;
pub use x86_flags::{Cr0Flags, Cr3Flags, Cr4Flags, PriorityClass};

/// The bit of a write to CR3 by which cached translations stay.
const NO_FLUSH: u64 = 1 << 63;

/// How the processor runs: protection, paging, caches and the floating-point unit.
///
/// Source: AMD64 manual, volume 2, section 3.1.1.
#[derive(Debug, Drop)]
pub struct Cr0;

impl Register for Cr0 {
    ghost bits = { λ cpu. cpu.cr0 };

    ghost with_bits = { λ cpu value. record cpu { cr0 = value } };

    fn get(cpu: &Cpu) -> u64 {
        cpu.cr0
    }

    fn set(cpu: &mut Cpu, value: u64) {
        cpu.cr0 = value;
    }
}

impl FlagRegister for Cr0 {
    type Flags = Cr0Flags;

    ghost is_exact = { tt };
}

/// The address that the last page fault was about.
///
/// Source: AMD64 manual, volume 2, section 3.1.2.
#[derive(Debug, Drop)]
pub struct Cr2;

impl Cr2 {
    /// The address.
    ///
    /// # Errors
    ///
    /// `VirtAddrNotValid`, with the register's bits, exactly if they are no canonical address.
    pub fn read(cpu: &Cpu) -> Result<VirtAddr, VirtAddrNotValid>
        ensures canonical { IsOk result ↔ IsTrue (is_canonical cpu.now.cr2) }
        ensures ok { IfOk result (λ address. address ≡ cpu.now.cr2) }
        ensures err { IfErr result (λ error. error.0 ≡ cpu.now.cr2) }
    {
        VirtAddr::try_new(Self::read_raw(cpu))
    }

    /// The register's bits.
    pub fn read_raw(cpu: &Cpu) -> u64
        ensures { result ≡ cpu.now.cr2 }
    {
        cpu.cr2
    }
}

/// Where the top page table lies, and how it is cached or which address space it belongs to.
///
/// Source: AMD64 manual, volume 2, sections 3.1.2 and 5.5.1.
#[derive(Debug, Drop)]
pub struct Cr3;

impl Cr3 {
    /// The frame of the top page table, and the flags that are set.
    pub fn read(cpu: &Cpu) -> (PhysFrame, Cr3Flags)
        ensures { HasFlags cpu.now.cr3 result }
    {
        let (frame, _) = Self::read_raw(cpu);
        (frame, Cr3Flags::from_bits_truncate(cpu.cr3))
    }

    /// The frame of the top page table, and the register's low 12 bits.
    pub fn read_raw(cpu: &Cpu) -> (PhysFrame, u16)
        ensures frame { result.0 ≡ root_of cpu.now.cr3 }
        ensures low { result.1 ≡ cpu.now.cr3 % 2 ^ 12 }
    {
        let address = PhysAddr::new_truncate(cpu.cr3);
        let low = (cpu.cr3 & 0xFFF) as u16;
        (PhysFrame::containing_address(address), low)
    }

    /// The frame of the top page table, and the identifier of the address space, which the low 12 bits
    /// are while `Cr4Flags::PCID` is set.
    pub fn read_pcid(cpu: &Cpu) -> (PhysFrame, Pcid)
        ensures { HasPcid cpu.now.cr3 result }
    {
        let (frame, low) = Self::read_raw(cpu);
        (frame, Pcid::new(low).unwrap())
    }

    /// Replaces the register's bits by the frame's address and the low 16 bits of the flags, joined bit by
    /// bit.
    pub fn write(cpu: &mut Cpu, frame: PhysFrame, flags: Cr3Flags)
        ensures { cpu.new ≡ record cpu.old { cr3 = cr3_word frame (cr3_bits flags % 2 ^ 16) } }
    {
        Self::write_raw(cpu, frame, (flags.bits() & 0xFFFF) as u16);
    }

    /// Replaces the register's bits by the frame's address and the identifier.
    pub fn write_pcid(cpu: &mut Cpu, frame: PhysFrame, pcid: Pcid)
        ensures written { cpu.new ≡ record cpu.old { cr3 = cr3_word frame pcid } }
        ensures read_back { HasPcid cpu.new.cr3 (frame, pcid) }
    {
        cpu.cr3 = word(frame, pcid.value());
    }

    /// As `write_pcid`, with bit 63 set: the processor then keeps the translations that it cached for this
    /// identifier.
    pub fn write_pcid_no_flush(cpu: &mut Cpu, frame: PhysFrame, pcid: Pcid)
        ensures written { cpu.new ≡ record cpu.old { cr3 = bit_or (2 ^ 63) (cr3_word frame pcid) } }
        ensures read_back { HasPcid cpu.new.cr3 (frame, pcid) }
    {
        cpu.cr3 = NO_FLUSH | word(frame, pcid.value());
    }

    /// Replaces the register's bits by the frame's address and these low bits, joined bit by bit.
    pub fn write_raw(cpu: &mut Cpu, frame: PhysFrame, val: u16)
        ensures { cpu.new ≡ record cpu.old { cr3 = cr3_word frame val } }
    {
        cpu.cr3 = word(frame, val);
    }

    /// Writes what `f` makes of the frame and the flags.
    pub fn update<F: FnOnce((PhysFrame, Cr3Flags)) -> (PhysFrame, Cr3Flags)>(cpu: &mut Cpu, f: F)
        requires { CanUpdate (HasFlags cpu.old.cr3) (F.pre f) }
        ensures { Updates
            (HasFlags cpu.old.cr3)
            (F.post f)
            (λ pair. cpu.new ≡ record cpu.old { cr3 = cr3_word pair.0 (cr3_bits pair.1 % 2 ^ 16) }) }
    {
        let (frame, flags) = f(Self::read(cpu));
        Self::write(cpu, frame, flags);
    }

    /// Writes what `f` makes of the frame and the identifier.
    pub fn update_pcid<F: FnOnce((PhysFrame, Pcid)) -> (PhysFrame, Pcid)>(cpu: &mut Cpu, f: F)
        requires { CanUpdate (HasPcid cpu.old.cr3) (F.pre f) }
        ensures { Updates
            (HasPcid cpu.old.cr3)
            (F.post f)
            (λ pair. cpu.new ≡ record cpu.old { cr3 = cr3_word pair.0 pair.1 }) }
    {
        let (frame, pcid) = f(Self::read_pcid(cpu));
        Self::write_pcid(cpu, frame, pcid);
    }

    /// As `update_pcid`, with bit 63 set.
    pub fn update_pcid_no_flush<F: FnOnce((PhysFrame, Pcid)) -> (PhysFrame, Pcid)>(
        cpu: &mut Cpu,
        f: F,
    )
        requires { CanUpdate (HasPcid cpu.old.cr3) (F.pre f) }
        ensures { Updates
            (HasPcid cpu.old.cr3)
            (F.post f)
            (λ pair. cpu.new ≡ record cpu.old { cr3 = bit_or (2 ^ 63) (cr3_word pair.0 pair.1) }) }
    {
        let (frame, pcid) = f(Self::read_pcid(cpu));
        Self::write_pcid_no_flush(cpu, frame, pcid);
    }
}

/// The frame's address, joined bit by bit with the low bits.
fn word(frame: PhysFrame, low: u16) -> u64
    ensures value { result ≡ cr3_word frame low }
    ensures frame { frame * 4096 < 2 ^ 52 }
{
    frame.start_address().as_u64() | u64::from(low)
}

/// Which extensions are on.
///
/// Source: AMD64 manual, volume 2, section 3.1.3.
#[derive(Debug, Drop)]
pub struct Cr4;

impl Register for Cr4 {
    ghost bits = { λ cpu. cpu.cr4 };

    ghost with_bits = { λ cpu value. record cpu { cr4 = value } };

    fn get(cpu: &Cpu) -> u64 {
        cpu.cr4
    }

    fn set(cpu: &mut Cpu, value: u64) {
        cpu.cr4 = value;
    }
}

impl FlagRegister for Cr4 {
    type Flags = Cr4Flags;

    ghost is_exact = { tt };
}

/// The task's priority: interrupts of the class that it names, and of lower ones, wait.
///
/// Source: AMD64 manual, volume 2, section 3.1.5.
#[derive(Debug, Drop)]
pub struct Cr8;

impl Cr8 {
    /// The class in the low 8 bits. None if these are 0, or 16 or more.
    pub fn read(cpu: &Cpu) -> Option<PriorityClass>
        ensures { priority_number result ≡ priority_in cpu.now.cr8 }
    {
        PriorityClass::new((Self::read_raw(cpu) & 0xFF) as u8)
    }

    /// The register's bits.
    pub fn read_raw(cpu: &Cpu) -> u64
        ensures { result ≡ cpu.now.cr8 }
    {
        cpu.cr8
    }

    /// Makes interrupts of this class and of lower ones wait, or no interrupt if there is none.
    pub fn write(cpu: &mut Cpu, priority_class: Option<PriorityClass>)
        ensures { cpu.new ≡ record cpu.old { cr8 = priority_number priority_class } }
    {
        let value = match priority_class {
            Some(class) => class as u64,
            None => 0,
        };
        Self::write_raw(cpu, value);
    }

    /// Replaces the register's bits.
    pub fn write_raw(cpu: &mut Cpu, value: u64)
        ensures { cpu.new ≡ record cpu.old { cr8 = value } }
    {
        cpu.cr8 = value;
    }

    /// Writes what `f` makes of the class.
    pub fn update<F: FnOnce(Option<PriorityClass>) -> Option<PriorityClass>>(cpu: &mut Cpu, f: F)
        requires { CanUpdate (λ class. priority_number class ≡ priority_in cpu.old.cr8) (F.pre f) }
        ensures { Updates
            (λ class. priority_number class ≡ priority_in cpu.old.cr8)
            (F.post f)
            (λ class. cpu.new ≡ record cpu.old { cr8 = priority_number class }) }
    {
        let class = f(Self::read(cpu));
        Self::write(cpu, class);
    }
}
