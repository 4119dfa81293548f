//! The table of gates.

ghost use Rattle.std.specs.Prelude.{◌≡◌, ◌-◌, ◌↔◌, IsTrue, IsSome, IfSome};
ghost use Rattle.std.specs.Borrow.{sem};
ghost use Rattle.std.specs.Option.{option_map};
ghost use Rattle.x86_tables.specs.InterruptDescriptorTable.{new_table, gate_of, entry_of, has_slice, slice_of, lends_entry, lends_slice, lends_slice_if};

use crate::idt::entry::Entry;
use crate::idt::gates::Gates;
use crate::idt::handler::{
    DivergingHandlerFunc, DivergingHandlerFuncWithErrCode, HandlerFunc, HandlerFuncWithErrCode,
    PageFaultHandlerFunc,
};
use paging_core::VirtAddr;
use x86_instructions::tables::lidt;
use x86_registers::{Cpu, DescriptorTablePointer};

/// The offset of the last byte of the 256 gates of 16 bytes.
const LIMIT: u16 = 4095;

/// The gates of the exceptions, vectors 0 to 31, and of the interrupts, vectors 32 to 255.
///
/// Source: AMD64 manual, volume 2, sections 4.6.5 and 8.2.
#[derive(Clone, Debug, Drop)]
pub struct InterruptDescriptorTable {
    /// Vector 0. A division by zero, or a quotient that is too large.
    pub divide_error: Entry<HandlerFunc>,
    /// Vector 1. A debug trap or a breakpoint of the debug registers.
    pub debug: Entry<HandlerFunc>,
    /// Vector 2. An interrupt that cannot be masked.
    pub non_maskable_interrupt: Entry<HandlerFunc>,
    /// Vector 3. The instruction `INT3`.
    pub breakpoint: Entry<HandlerFunc>,
    /// Vector 4. The instruction `INTO`, with the overflow flag set.
    pub overflow: Entry<HandlerFunc>,
    /// Vector 5. The instruction `BOUND`, with an index out of its bounds.
    pub bound_range_exceeded: Entry<HandlerFunc>,
    /// Vector 6. An instruction that does not exist, or may not be used.
    pub invalid_opcode: Entry<HandlerFunc>,
    /// Vector 7. A floating-point instruction while the unit is off.
    pub device_not_available: Entry<HandlerFunc>,
    /// Vector 8. A second exception while a first one is handled. The error code is 0.
    pub double_fault: Entry<DivergingHandlerFuncWithErrCode>,
    coprocessor_segment_overrun: Entry<HandlerFunc>,
    /// Vector 10. A task state segment that cannot be used. The error code is a `SelectorErrorCode`.
    pub invalid_tss: Entry<HandlerFuncWithErrCode>,
    /// Vector 11. A segment or a gate that is not present. The error code is a `SelectorErrorCode`.
    pub segment_not_present: Entry<HandlerFuncWithErrCode>,
    /// Vector 12. A stack segment that cannot be used, or a stack address that is not canonical. The error code is a
    /// `SelectorErrorCode`, or 0.
    pub stack_segment_fault: Entry<HandlerFuncWithErrCode>,
    /// Vector 13. A break of a protection rule that has no exception of its own. The error code is a
    /// `SelectorErrorCode`, or 0.
    pub general_protection_fault: Entry<HandlerFuncWithErrCode>,
    /// Vector 14. An access that the page tables do not grant.
    pub page_fault: Entry<PageFaultHandlerFunc>,
    reserved_1: Entry<HandlerFunc>,
    /// Vector 16. A pending error of the x87 unit.
    pub x87_floating_point: Entry<HandlerFunc>,
    /// Vector 17. An unaligned access while alignment is checked. The error code is 0.
    pub alignment_check: Entry<HandlerFuncWithErrCode>,
    /// Vector 18. A failure of the machine.
    pub machine_check: Entry<DivergingHandlerFunc>,
    /// Vector 19. An error of an SIMD floating-point instruction.
    pub simd_floating_point: Entry<HandlerFunc>,
    /// Vector 20. A break of the second level of paging (Intel).
    pub virtualization: Entry<HandlerFunc>,
    /// Vector 21. A break of a rule of control-flow enforcement. The error code says which rule.
    pub cp_protection_exception: Entry<HandlerFuncWithErrCode>,
    reserved_2: Gates<Entry<HandlerFunc>, 6>,
    /// Vector 28. A signal that a hypervisor injects.
    pub hv_injection_exception: Entry<HandlerFunc>,
    /// Vector 29. An event of a guest that its hypervisor has to know. The error code says which event.
    pub vmm_communication_exception: Entry<HandlerFuncWithErrCode>,
    /// Vector 30. An event that bears on security, such as a redirected reset. The error code says which event.
    pub security_exception: Entry<HandlerFuncWithErrCode>,
    reserved_3: Entry<HandlerFunc>,
    // Vectors 32 to 255: the interrupts of devices and of software.
    interrupts: Gates<Entry<HandlerFunc>, 224>,
}

impl InterruptDescriptorTable {
    /// A table whose gates are not present.
    pub fn new() -> Self
        ensures { result ≡ new_table }
    {
        Self {
            divide_error: Entry::missing(),
            debug: Entry::missing(),
            non_maskable_interrupt: Entry::missing(),
            breakpoint: Entry::missing(),
            overflow: Entry::missing(),
            bound_range_exceeded: Entry::missing(),
            invalid_opcode: Entry::missing(),
            device_not_available: Entry::missing(),
            double_fault: Entry::missing(),
            coprocessor_segment_overrun: Entry::missing(),
            invalid_tss: Entry::missing(),
            segment_not_present: Entry::missing(),
            stack_segment_fault: Entry::missing(),
            general_protection_fault: Entry::missing(),
            page_fault: Entry::missing(),
            reserved_1: Entry::missing(),
            x87_floating_point: Entry::missing(),
            alignment_check: Entry::missing(),
            machine_check: Entry::missing(),
            simd_floating_point: Entry::missing(),
            virtualization: Entry::missing(),
            cp_protection_exception: Entry::missing(),
            reserved_2: Gates::new([Entry::missing(); 6]),
            hv_injection_exception: Entry::missing(),
            vmm_communication_exception: Entry::missing(),
            security_exception: Entry::missing(),
            reserved_3: Entry::missing(),
            interrupts: Gates::new([Entry::missing(); 224]),
        }
    }

    /// Makes every gate one that is not present.
    pub fn reset(&mut self)
        ensures { self.new ≡ new_table }
    {
        *self = Self::new();
    }

    /// Makes this the interrupt descriptor table of the processor. It lies at `at`.
    pub fn load(&self, cpu: &mut Cpu, at: VirtAddr)
        ensures { cpu.new ≡ record cpu.old { idtr = record { limit = 4095; base = at } } }
    {
        let pointer = DescriptorTablePointer {
            limit: LIMIT,
            base: at,
        };
        lidt(cpu, &pointer);
    }

    /// The same as `load`.
    pub fn load_unsafe(&self, cpu: &mut Cpu, at: VirtAddr)
        ensures { cpu.new ≡ record cpu.old { idtr = record { limit = 4095; base = at } } }
    {
        self.load(cpu, at);
    }

    /// The bytes of the gate of a vector, which the processor reads.
    pub fn gate(&self, vector: u8) -> [u8; 16]
        ensures { result ≡ gate_of self.now vector }
    {
        match vector {
            0 => self.divide_error.to_bytes(),
            1 => self.debug.to_bytes(),
            2 => self.non_maskable_interrupt.to_bytes(),
            3 => self.breakpoint.to_bytes(),
            4 => self.overflow.to_bytes(),
            5 => self.bound_range_exceeded.to_bytes(),
            6 => self.invalid_opcode.to_bytes(),
            7 => self.device_not_available.to_bytes(),
            8 => self.double_fault.to_bytes(),
            9 => self.coprocessor_segment_overrun.to_bytes(),
            10 => self.invalid_tss.to_bytes(),
            11 => self.segment_not_present.to_bytes(),
            12 => self.stack_segment_fault.to_bytes(),
            13 => self.general_protection_fault.to_bytes(),
            14 => self.page_fault.to_bytes(),
            15 => self.reserved_1.to_bytes(),
            16 => self.x87_floating_point.to_bytes(),
            17 => self.alignment_check.to_bytes(),
            18 => self.machine_check.to_bytes(),
            19 => self.simd_floating_point.to_bytes(),
            20 => self.virtualization.to_bytes(),
            21 => self.cp_protection_exception.to_bytes(),
            22..=27 => self.reserved_2.at(usize::from(vector) - 22).to_bytes(),
            28 => self.hv_injection_exception.to_bytes(),
            29 => self.vmm_communication_exception.to_bytes(),
            30 => self.security_exception.to_bytes(),
            31 => self.reserved_3.to_bytes(),
            32..=255 => self.interrupts.at(usize::from(vector) - 32).to_bytes(),
        }
    }

    /// The gate of a vector. None exactly if the vector is reserved, or its handler takes an error code or does not
    /// return: 8, 10 to 15, 17, 18, 21 to 27 and 29 to 31. Of these, the fields hold the gates.
    pub fn entry(&self, index: u8) -> Option<&Entry<HandlerFunc>>
        ensures { option_map (λ entry. entry.now) result ≡ entry_of self.now index }
    {
        match index {
            0 => Some(&self.divide_error),
            1 => Some(&self.debug),
            2 => Some(&self.non_maskable_interrupt),
            3 => Some(&self.breakpoint),
            4 => Some(&self.overflow),
            5 => Some(&self.bound_range_exceeded),
            6 => Some(&self.invalid_opcode),
            7 => Some(&self.device_not_available),
            9 => Some(&self.coprocessor_segment_overrun),
            16 => Some(&self.x87_floating_point),
            19 => Some(&self.simd_floating_point),
            20 => Some(&self.virtualization),
            28 => Some(&self.hv_injection_exception),
            32..=255 => Some(self.interrupts.at(usize::from(index) - 32)),
            _ => None,
        }
    }

    /// The gate of a vector, to be changed. None exactly if `entry` answers none.
    pub fn entry_mut(&mut self, index: u8) -> Option<&mut Entry<HandlerFunc>>
        ensures* lends { sem 𝓛 (lends_entry self.entry index result) }
        ensures value { option_map (λ entry. entry.now) result ≡ entry_of self.old index }
    {
        match index {
            0 => Some(&mut self.divide_error),
            1 => Some(&mut self.debug),
            2 => Some(&mut self.non_maskable_interrupt),
            3 => Some(&mut self.breakpoint),
            4 => Some(&mut self.overflow),
            5 => Some(&mut self.bound_range_exceeded),
            6 => Some(&mut self.invalid_opcode),
            7 => Some(&mut self.device_not_available),
            9 => Some(&mut self.coprocessor_segment_overrun),
            16 => Some(&mut self.x87_floating_point),
            19 => Some(&mut self.simd_floating_point),
            20 => Some(&mut self.virtualization),
            28 => Some(&mut self.hv_injection_exception),
            32..=255 => Some(self.interrupts.at_mut(usize::from(index) - 32)),
            _ => None,
        }
    }

    /// The gates of the vectors from `lower` up to `upper`, `upper` excluded. None exactly if `lower` is below 32,
    /// `upper` is above 256, or `lower` is above `upper`.
    pub fn slice(&self, lower: u16, upper: u16) -> Option<&[Entry<HandlerFunc>]>
        ensures some { IsSome result ↔ has_slice lower upper }
        ensures value { IfSome result (λ entries. entries.now ≡ slice_of self.now lower upper) }
    {
        if !is_slice(lower, upper) {
            return None;
        }
        Some(
            self.interrupts
                .part(usize::from(lower) - 32, usize::from(upper) - 32),
        )
    }

    /// The gates of the vectors from `lower` up to `upper`, `upper` excluded, to be changed. None exactly if `slice`
    /// answers none; then every gate stays. Otherwise what is written changes only these gates.
    ///
    /// A caller of this function does not get the clause on the loan from the prover, so one that has to prove what the
    /// table ends as takes `interrupts_mut`.
    pub fn slice_mut(&mut self, lower: u16, upper: u16) -> Option<&mut [Entry<HandlerFunc>]>
        ensures* lends { sem 𝓛 (lends_slice_if self.entry lower upper result) }
        ensures some { IsSome result ↔ has_slice lower upper }
        ensures value { IfSome result (λ entries. entries.now ≡ slice_of self.old lower upper) }
    {
        if !is_slice(lower, upper) {
            return None;
        }
        Some(self.interrupts_mut(lower, upper))
    }

    /// The gates of the vectors from `lower` up to `upper`, `upper` excluded, to be changed. `lower` is at
    /// least 32, `upper` at most 256, and `lower` at most `upper`.
    pub fn interrupts_mut(&mut self, lower: u16, upper: u16) -> &mut [Entry<HandlerFunc>]
        requires { has_slice lower upper }
        ensures* lends { sem 𝓛 (lends_slice self.entry lower upper result) }
        ensures value { result.now ≡ slice_of self.old lower upper }
    {
        self.interrupts
            .part_mut(usize::from(lower) - 32, usize::from(upper) - 32)
    }
}

/// Whether the vectors from `lower` up to `upper` are vectors of interrupts.
fn is_slice(lower: u16, upper: u16) -> bool
    ensures { IsTrue result ↔ has_slice lower upper }
{
    32 <= lower && lower <= upper && upper <= 256
}

impl Default for InterruptDescriptorTable {
    ghost is_default = { λ table. table ≡ new_table };

    fn default() -> Self {
        Self::new()
    }
}
