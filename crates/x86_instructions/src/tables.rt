//! Loading and storing where the descriptor tables lie.

ghost use Rattle.std.specs.Prelude.{◌≡◌};

pub use x86_flags::SegmentSelector;
use x86_registers::Cpu;
pub use x86_registers::DescriptorTablePointer;

/// Makes this the global descriptor table.
///
/// Source: AMD64 manual, volume 3, `LGDT`.
pub fn lgdt(cpu: &mut Cpu, gdt: &DescriptorTablePointer)
    ensures { cpu.new ≡ record cpu.old { gdtr = gdt.now } }
{
    cpu.gdtr = *gdt;
}

/// Makes this the interrupt descriptor table.
///
/// Source: AMD64 manual, volume 3, `LIDT`.
pub fn lidt(cpu: &mut Cpu, idt: &DescriptorTablePointer)
    ensures { cpu.new ≡ record cpu.old { idtr = idt.now } }
{
    cpu.idtr = *idt;
}

/// Where the global descriptor table lies.
///
/// Source: AMD64 manual, volume 3, `SGDT`.
pub fn sgdt(cpu: &Cpu) -> DescriptorTablePointer
    ensures { result ≡ cpu.now.gdtr }
{
    cpu.gdtr
}

/// Where the interrupt descriptor table lies.
///
/// Source: AMD64 manual, volume 3, `SIDT`.
pub fn sidt(cpu: &Cpu) -> DescriptorTablePointer
    ensures { result ≡ cpu.now.idtr }
{
    cpu.idtr
}

/// Makes the selected descriptor that of the task state segment. Its busy bit is not set, since the
/// descriptor lies in memory, and only the register file is at hand.
///
/// Source: AMD64 manual, volume 3, `LTR`.
pub fn load_tss(cpu: &mut Cpu, sel: SegmentSelector)
    ensures { cpu.new ≡ record cpu.old { tr = sel.0 } }
{
    cpu.tr = sel.0;
}
