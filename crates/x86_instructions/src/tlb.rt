//! Commands that make processors forget cached translations.
//!
//! A flush is no instruction here: it is appended to a list, in which its reader finds what the processor
//! was told, in order.

ghost use Rattle.std.specs.Prelude.{◌≡◌, ◌++◌, ◌∷◌, [], length, slice_get, option_copied, OnOk, OnErr, IsTrue, ◌↔◌};
ghost use Rattle.x86_instructions.specs.FlushCommand.{invpcid_of, reloaded};

mod invlpgb;

pub use crate::tlb::invlpgb::{AsidOutOfRangeError, Invlpgb, InvlpgbFlushBuilder};
use paging_core::VirtAddr;
use std::alloc::{AllocError, Global};
use std::marker::Model;
pub use x86_flags::{Pcid, PcidTooBig};
use x86_registers::Cpu;
use x86_registers::control::Cr3;

/// A command by which a processor forgets translations.
#[derive(Clone, Copy, PartialEq, Eq, Debug)]
pub enum FlushCommand {
    /// `INVLPG`: those of the page that holds the address.
    Invlpg(VirtAddr),
    /// A write of CR3 with what it holds: all but global ones.
    ReloadCr3,
    /// `INVPCID`: those that its type and its descriptor name.
    Invpcid {
        /// The type: 0 for an address of one address space, 1 for an address space, 2 for all, and 3 for
        /// all but global ones.
        kind: u64,
        /// The identifier of the address space, 0 if the type names none.
        pcid: u64,
        /// The address, 0 if the type names none.
        address: u64,
    },
    /// `INVLPGB`: those that its registers name, on all processors.
    Invlpgb {
        /// What is given and what is flushed, and the page's address.
        rax: u64,
        /// The count of pages and their size.
        ecx: u32,
        /// The identifiers.
        edx: u32,
    },
}

/// Flush commands in the order in which they were given. It grows at its end, and keeps its allocator.
#[derive(Drop)]
pub struct FlushList {
    commands: Vec<FlushCommand>,
}

impl Model for FlushList {
    ghost use Rattle.std.specs.Prelude.{List};
    ghost use Rattle.x86_instructions.specs.declared.tlb.FlushCommand.{FlushCommand};

    ghost Value = { List FlushCommand };

    ghost view = { λ list. list.commands.items };
}

impl FlushList {
    /// An empty list, which takes no memory.
    pub fn new(alloc: Global) -> Self
        ensures { result ≡ [] }
    {
        FlushList {
            commands: Vec::new(alloc),
        }
    }

    /// Adds a command at the end. An `Err` leaves the list unchanged.
    pub fn push(&mut self, item: FlushCommand) -> Result<(), AllocError>
        ensures ok { OnOk result (self.new ≡ self.old ++ item ∷ []) }
        ensures err { OnErr result (self.new ≡ self.old) }
    {
        self.commands.push(item)?;
        Ok(())
    }

    /// The number of commands.
    pub fn len(&self) -> u64
        ensures { result ≡ length self.now }
    {
        self.commands.len() as u64
    }

    /// Whether there are no commands.
    pub fn is_empty(&self) -> bool
        ensures { IsTrue result ↔ (self.now ≡ []) }
    {
        self.commands.is_empty()
    }

    /// The command at an index, counted from 0. None exactly if the index is at least `len`.
    pub fn get(&self, index: u64) -> Option<&FlushCommand>
        ensures { option_copied result ≡ slice_get self.now index }
    {
        self.commands.get(index as usize)
    }

    /// The commands as a slice.
    pub fn as_slice(&self) -> &[FlushCommand]
        ensures { result.now ≡ self.now }
    {
        self.commands.as_slice()
    }
}

/// Which translations `INVPCID` makes the processor forget.
///
/// Source: AMD64 manual, volume 3, `INVPCID`.
#[derive(Clone, Copy, PartialEq, Eq, Debug)]
pub enum InvPcidCommand {
    /// Those of one address in one address space, but for global ones.
    Address(VirtAddr, Pcid),
    /// Those of one address space, but for global ones.
    Single(Pcid),
    /// All, global ones too.
    All,
    /// All but global ones.
    AllExceptGlobal,
}

/// The name that `InvPcidCommand` once had.
pub type InvPicdCommand = InvPcidCommand;

/// Forgets the translation of the page that holds the address.
///
/// Source: AMD64 manual, volume 3, `INVLPG`.
///
/// # Errors
///
/// `AllocError` if there is no memory. The list is then as it was.
pub fn flush(list: &mut FlushList, addr: VirtAddr) -> Result<(), AllocError>
    ensures ok { OnOk result (list.new ≡ list.old ++ FlushCommand.Invlpg addr ∷ []) }
    ensures err { OnErr result (list.new ≡ list.old) }
{
    list.push(FlushCommand::Invlpg(addr))
}

/// Forgets all translations but global ones, by a write of CR3 with the frame and the flags that it holds.
///
/// Source: AMD64 manual, volume 2, section 5.5.2.
///
/// # Errors
///
/// `AllocError` if there is no memory. The list and the register file are then as they were.
pub fn flush_all(list: &mut FlushList, cpu: &mut Cpu) -> Result<(), AllocError>
    ensures ok { OnOk result (list.new ≡ list.old ++ FlushCommand.ReloadCr3 ∷ []) }
    ensures reloaded { OnOk result (cpu.new ≡ record cpu.old { cr3 = reloaded cpu.old.cr3 }) }
    ensures err { OnErr result (list.new ≡ list.old) }
    ensures kept { OnErr result (cpu.new ≡ cpu.old) }
{
    list.push(FlushCommand::ReloadCr3)?;
    let (frame, flags) = Cr3::read(cpu);
    Cr3::write(cpu, frame, flags);
    Ok(())
}

/// Forgets the translations that the command names.
///
/// Source: AMD64 manual, volume 3, `INVPCID`.
///
/// # Errors
///
/// `AllocError` if there is no memory. The list is then as it was.
pub fn flush_pcid(list: &mut FlushList, command: InvPcidCommand) -> Result<(), AllocError>
    ensures ok { OnOk result (list.new ≡ list.old ++ invpcid_of command ∷ []) }
    ensures err { OnErr result (list.new ≡ list.old) }
{
    let (kind, pcid, address) = match command {
        InvPcidCommand::Address(address, pcid) => (0, pcid.value(), address.as_u64()),
        InvPcidCommand::Single(pcid) => (1, pcid.value(), 0),
        InvPcidCommand::All => (2, 0, 0),
        InvPcidCommand::AllExceptGlobal => (3, 0, 0),
    };
    list.push(FlushCommand::Invpcid {
        kind,
        pcid: u64::from(pcid),
        address,
    })
}
