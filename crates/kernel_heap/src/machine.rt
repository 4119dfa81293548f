// The machine: a numbered heap over a paged system, which is always sound, and the registers of the processor.
ghost use Rattle.std.specs.Prelude.{◌≡◌, ℕ, ◌^◌, ◌<◌, IsTrue, IfOk, IfErr, IsOk, OnOk, OnErr};
ghost use Rattle.paging_core.specs.Memory.{frame_count};
ghost use Rattle.mapped_regions.specs.Regions.{AreLaid};
ghost use Rattle.mapped_regions.specs.FrameUse.{HasOneUse};
ghost use Rattle.x86_registers.specs.Cr3.{root_of};
ghost use Rattle.kernel_heap.specs.Config.{IsGoodConfig, IsConfigRefused};
ghost use Rattle.kernel_heap.specs.Registers.{machine_cpu, cpu_after};

use crate::configuration::check;
use crate::numbered_blocks::NumberedBlocks;
use crate::numbered_heap::NumberedHeap;
use crate::run_error::RunError;
use machine_model::{Answer, Call, Config, Reply};
use paged_systems::PagedSystem;
use paging_core::PhysFrame;
use sound_heap::Heap;
use std::alloc::{AllocError, Global};
use std::marker::Model;
use x86_registers::control::{Cr0, Cr0Flags, Cr4, Cr4Flags, Efer, EferFlags};
use x86_registers::{Cpu, FlagRegister};

/// The registers of a machine over a root table with this frame.
fn registers(root: PhysFrame) -> Cpu
    ensures registers { result ≡ machine_cpu root }
    ensures top { root ≡ root_of result.cr3 }
{
    let mut cpu = Cpu::new();
    Cr0::write(
        &mut cpu,
        Cr0Flags::PROTECTED_MODE_ENABLE | Cr0Flags::WRITE_PROTECT | Cr0Flags::PAGING,
    );
    cpu.cr3 = root.start_address().as_u64();
    Cr4::write(&mut cpu, Cr4Flags::PHYSICAL_ADDRESS_EXTENSION);
    Efer::write(
        &mut cpu,
        EferFlags::LONG_MODE_ENABLE | EferFlags::LONG_MODE_ACTIVE | EferFlags::NO_EXECUTE_ENABLE,
    );
    cpu
}

/// Puts the address into CR2 where the reply to a probe is a fault.
fn note_fault(cpu: &mut Cpu, call: &Call, reply: &Reply)
    ensures after { cpu.new ≡ cpu_after cpu.old call.now reply.now }
    ensures root { cpu.new.cr3 ≡ cpu.old.cr3 }
{
    match call {
        Call::Probe { at, .. } => match reply {
            Reply::Fault(_) => cpu.cr2 = *at,
            _ => {}
        },
        _ => {}
    }
}

/// A machine that serves calls of a heap over page tables: the root table is the one that its CR3 names.
#[derive(Drop)]
pub struct Machine {
    heap: NumberedHeap,
    cpu: Cpu,
}

// Each machine is sound: the extents in use of its heap, which is a sound one, are its live blocks.
impl Model for Machine {
    ghost use Rattle.kernel_heap.specs.Parts.{Parts, coded_parts};
    ghost use Rattle.kernel_heap.specs.contracts.numbered_heap.NumberedHeap as numbered_heap;
    ghost use Rattle.x86_registers.specs.contracts.cpu.Cpu as registers;

    ghost Value = { Parts };

    ghost coded = { coded_parts numbered_heap.the_row.coded registers.the_row.coded };

    ghost use Rattle.kernel_heap.specs.LaidOut.{IsNumberedSound};

    ghost view = { λ machine. record { heap = machine.heap; cpu = machine.cpu } };

    ghost invariant = { λ machine. IsNumberedSound machine.heap };
}

impl Machine {
    ghost use Rattle.sound_heap.specs.Heap.{IsIntact};
    ghost use Rattle.kernel_heap.specs.Heap.{regions, word};
    ghost use Rattle.kernel_heap.specs.Machine.{system_of, seen};
    ghost use Rattle.std.specs.Prelude.{List};
    ghost use Rattle.dlmalloc_chunks.specs.declared.extent.Extent.{Extent};
    ghost use Rattle.dlmalloc.specs.Listed.{IsListed};
    ghost use Rattle.machine_model.specs.State.{State};
    ghost use Rattle.machine_model.specs.Run.{IsGood};
    ghost use Rattle.machine_model.specs.Machine.{Stands};
    ghost use Rattle.machine_model.specs.Extents.{IsTiling};
    ghost use Rattle.kernel_heap.specs.Kept.{is_always_answered};
    ghost use Rattle.kernel_heap.specs.Steps.{IsNewMachine, HasStepped, HasNotStepped};

    /// A machine with the configuration's window, granularity and frames. A configuration from which none can be
    /// made is refused before any memory is taken.
    pub fn new(alloc: Global, config: &Config) -> Result<Self, RunError>
        ensures new { IfOk result (λ machine. IsNewMachine config.now machine) }
        ensures accepted { OnOk result (IsGoodConfig config.now) }
        ensures refused { IfErr result (λ error. IsConfigRefused config.now error) }
    {
        check(config)?;
        let system = PagedSystem::new(alloc, config.base, config.pages, config.frames)?;
        let cpu = registers(system.root());
        let heap = Heap::with_settings(system, config.granularity, config.rate);
        heap.law_intact();
        Ok(Machine {
            heap: NumberedHeap {
                alloc,
                heap,
                blocks: NumberedBlocks::new(alloc),
                list: Vec::new(alloc),
            },
            cpu,
        })
    }

    /// The system that the machine runs over.
    pub fn system(&self) -> &PagedSystem
        ensures { result.now ≡ system_of self.now.heap }
    {
        self.heap.heap.system()
    }

    /// The registers of the processor. CR3 has the root table's frame, and CR2 the address of the last fault.
    pub fn cpu(&self) -> &Cpu
        ensures { result.now ≡ self.now.cpu }
    {
        &self.cpu
    }

    /// The heap is sound, and its bins hold its free extents. What [`Machine::step`] says of the order of free chunks
    /// begins with that.
    pub fn law_intact(&self)
        ensures { IsIntact regions word self.now.heap.heap }
    {
        self.heap.heap.law_intact();
    }

    /// In each good state for which the machine stands the extents of its heap tile the heap's regions, and those in use are those
    /// of the live blocks, one to one.
    pub fn law_extents_tile(&self)
        ensures { (s : State) (list : List Extent) → IsGood s → Stands (seen self.now) s → IsListed word self.now.heap.heap list → IsTiling s list }
    {
        self.heap.heap.law_intact();
    }

    /// Each frame of the physical memory serves for exactly one thing: it is free, or it holds one table that walks from
    /// the root meet, or one page of one region, of the heap or of the user. A large page is 512 pages, each at a frame of
    /// its own. No two regions have an address in common.
    pub fn law_frames_have_one_use(&self)
        ensures frames { (frame : ℕ) → frame < frame_count (seen self.now).paged.words → HasOneUse (seen self.now).paged frame }
        ensures regions { AreLaid 0 (seen self.now).paged.regions (2 ^ 64) }
    {
        self.heap.heap.system().law_frames_have_one_use();
    }

    /// Serves a call. The answer is allowed in each good state for which the machine stands, the machine then stands for
    /// the state that the answer leaves, and its heap, slots and registers moved as the answer tells. An `Err` leaves the
    /// machine as it was. A write, an unmap, a probe and a setting take no memory, and are always answered.
    #[inline(always)]
    pub fn step(&mut self, call: &Call) -> Result<Answer, AllocError>
        ensures ok { IfOk result (λ answer. HasStepped self.old call.now answer self.new) }
        ensures err { OnErr result (HasNotStepped self.old self.new) }
        ensures answered { IsTrue (is_always_answered call.now) → IsOk result }
    {
        let served = self.heap.serve(call);
        self.heap.heap.law_intact();
        if let Ok(answer) = &served {
            note_fault(&mut self.cpu, call, &answer.reply);
        }
        served
    }
}
