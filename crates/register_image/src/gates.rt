// Interrupt descriptor tables.
ghost use Rattle.std.specs.Prelude.{◌≡◌, ◌<◌, ◌++◌, OnOk, string_bytes};
ghost use Rattle.register_image.specs.Gates.{gate_entry, gate_line, gates_text, options_bits, table_text, with_gate, with_gates};

use crate::numbers::push_line;
use paging_core::VirtAddr;
use std::alloc::AllocError;
use x86_flags::PrivilegeLevel;
use x86_registers::Cpu;
use x86_tables::idt::{Entry, EntryOptions, InterruptDescriptorTable};

/// A gate that a table is to have.
#[derive(Clone, Copy, Drop)]
pub struct Gate {
    /// The number of its interrupt or exception.
    pub vector: u8,
    /// Its handler.
    pub handler: VirtAddr,
    /// The least privileged ring that may raise it by an instruction.
    pub ring: PrivilegeLevel,
    /// Which of the seven stacks of the task state segment its handler has, from 1 on; with any other number none.
    pub stack: u16,
    /// Whether its handler begins with interrupts off.
    pub off: bool,
    /// Whether it is present.
    pub present: bool,
}

// Sets what a gate says besides its handler and its code segment, in one that says nothing else but that it is present.
fn set_options(options: &mut EntryOptions, gate: &Gate)
    requires { options.old.bits ≡ 0x8e00 }
    ensures { options.new ≡ record options.old { bits = options_bits gate.now } }
{
    options.set_privilege_level(gate.ring);
    options.disable_interrupts(gate.off);
    options.set_present(gate.present);
    if 1 <= gate.stack && gate.stack <= 7 {
        options.set_stack_index(gate.stack - 1);
    }
}

fn set_entry<F>(entry: &mut Entry<F>, cpu: &Cpu, gate: &Gate)
    ensures { entry.new ≡ gate_entry cpu.now.cs gate.now }
{
    set_options(entry.set_handler_addr(cpu, gate.handler), gate);
}

// Puts a gate into the table. The reserved vectors have none.
fn set_gate(table: &mut InterruptDescriptorTable, cpu: &Cpu, gate: &Gate)
    ensures { table.new ≡ with_gate cpu.now.cs table.old gate.now }
{
    match gate.vector {
        8 => set_entry(&mut table.double_fault, cpu, gate),
        10 => set_entry(&mut table.invalid_tss, cpu, gate),
        11 => set_entry(&mut table.segment_not_present, cpu, gate),
        12 => set_entry(&mut table.stack_segment_fault, cpu, gate),
        13 => set_entry(&mut table.general_protection_fault, cpu, gate),
        14 => set_entry(&mut table.page_fault, cpu, gate),
        17 => set_entry(&mut table.alignment_check, cpu, gate),
        18 => set_entry(&mut table.machine_check, cpu, gate),
        21 => set_entry(&mut table.cp_protection_exception, cpu, gate),
        29 => set_entry(&mut table.vmm_communication_exception, cpu, gate),
        30 => set_entry(&mut table.security_exception, cpu, gate),
        vector => {
            if let Some(entry) = table.entry_mut(vector) {
                set_entry(entry, cpu, gate);
            }
        }
    }
}

fn set_gates(table: &mut InterruptDescriptorTable, cpu: &Cpu, gates: &[Gate])
    ensures { table.new ≡ with_gates cpu.now.cs table.old gates.now }
{
    for gate in gates {
        set_gate(table, cpu, gate);
    }
}

fn push_gate(
    out: &mut String,
    table: &InterruptDescriptorTable,
    vector: u8,
) -> Result<(), AllocError>
    ensures { OnOk result (string_bytes out.new ≡ string_bytes out.old ++ gate_line table.now vector) }
{
    push_line(out, "gate", table.gate(vector).as_slice())
}

fn push_gates(out: &mut String, table: &InterruptDescriptorTable) -> Result<(), AllocError>
    ensures { OnOk result (string_bytes out.new ≡ string_bytes out.old ++ gates_text table.now 0 256) }
{
    for vector in 0..256u16 {
        push_gate(out, table, vector as u8)?;
    }
    Ok(())
}

/// Puts at the end the table of these gates, whose handlers run in the code segment of the selector, and the pointer to
/// it if it lies at `at`.
pub fn push_table(
    out: &mut String,
    at: VirtAddr,
    selector: u16,
    gates: &[Gate],
) -> Result<(), AllocError>
    ensures { OnOk result (string_bytes out.new ≡ string_bytes out.old ++ table_text at selector gates.now) }
{
    let mut cpu = Cpu::new();
    cpu.cs = selector;
    let mut table = InterruptDescriptorTable::new();
    set_gates(&mut table, &cpu, gates);
    table.load(&mut cpu, at);
    push_line(out, "idtr", cpu.idtr.to_bytes().as_slice())?;
    push_gates(out, &table)
}
