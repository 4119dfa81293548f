//! An entry of the interrupt descriptor table.

ghost use Rattle.std.specs.Prelude.{◌≡◌};
ghost use Rattle.std.specs.Borrow.{sem};
ghost use Rattle.x86_tables.specs.EntryOptions.{handler_options};
ghost use Rattle.x86_tables.specs.Entry.{gate_bytes, lends_options, absent_gate};

use crate::idt::entry_options::EntryOptions;
use paging_core::VirtAddr;
use std::marker::PhantomData;
use x86_registers::Cpu;
use x86_registers::segmentation::{CS, Segment};

/// A gate to the handler of an interrupt or an exception. `F` is the form of the handler.
///
/// Source: AMD64 manual, volume 2, section 4.8.4.
#[derive_where(Clone, Copy, PartialEq, Debug)]
pub struct Entry<F> {
    address: VirtAddr,
    options: EntryOptions,
    handler: PhantomData<F>,
}

impl<F> Entry<F> {
    /// A gate that is not present, to the address 0.
    pub fn missing() -> Self
        ensures { result ≡ absent_gate }
    {
        Self {
            address: VirtAddr::zero(),
            options: EntryOptions::minimal(),
            handler: PhantomData,
        }
    }

    /// Makes this a present interrupt gate to the handler at `addr`, which runs in the code segment that the
    /// processor is in, at ring 0, and on no stack of its own. The answer can change these options.
    pub fn set_handler_addr(&mut self, cpu: &Cpu, addr: VirtAddr) -> &mut EntryOptions
        ensures* lends { sem 𝓛 (lends_options F.row self.entry addr result) }
        ensures value { result.now ≡ handler_options cpu.now.cs }
    {
        self.address = addr;
        self.options = EntryOptions::minimal();
        self.options.set_code_selector(CS::get_reg(cpu));
        self.options.set_present(true);
        &mut self.options
    }

    /// The handler's address.
    pub fn handler_addr(&self) -> VirtAddr
        ensures { result ≡ self.now.address }
    {
        self.address
    }

    /// What the gate says besides the handler's address.
    pub fn options(&self) -> &EntryOptions
        ensures { result.now ≡ self.now.options }
    {
        &self.options
    }

    /// The bytes that the processor reads.
    pub fn to_bytes(&self) -> [u8; 16]
        ensures { result ≡ gate_bytes self.now.address self.now.options }
    {
        let [a0, a1, a2, a3, a4, a5, a6, a7] = self.address.as_u64().to_le_bytes();
        let [s0, s1] = self.options.code_selector().0.to_le_bytes();
        let [o0, o1] = self.options.bits().to_le_bytes();
        [a0, a1, s0, s1, o0, o1, a2, a3, a4, a5, a6, a7, 0, 0, 0, 0]
    }
}
