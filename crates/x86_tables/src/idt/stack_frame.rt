//! What the processor pushes as it calls an interrupt handler.

ghost use Rattle.std.specs.Prelude.{◌≡◌};
ghost use Rattle.std.specs.Borrow.{sem};

use paging_core::VirtAddr;
use x86_flags::{RFlags, SegmentSelector};

/// The state to which an interrupt handler returns, in the order of its addresses: 8 bytes each.
///
/// Source: AMD64 manual, volume 2, section 8.9.3.
#[derive(Clone, Copy, Debug)]
pub struct InterruptStackFrameValue {
    /// Where the interrupted code goes on.
    pub instruction_pointer: VirtAddr,
    /// The code segment of the interrupted code.
    pub code_segment: SegmentSelector,
    /// The flags register before the interrupt.
    pub cpu_flags: RFlags,
    /// The stack pointer before the interrupt.
    pub stack_pointer: VirtAddr,
    /// The stack segment before the interrupt.
    pub stack_segment: SegmentSelector,
}

impl InterruptStackFrameValue {
    ghost use Rattle.x86_tables.specs.StackFrame.{frame_value};

    /// A frame of these values.
    pub fn new(
        instruction_pointer: VirtAddr,
        code_segment: SegmentSelector,
        cpu_flags: RFlags,
        stack_pointer: VirtAddr,
        stack_segment: SegmentSelector,
    ) -> Self
        ensures { result ≡ frame_value instruction_pointer code_segment cpu_flags stack_pointer stack_segment }
    {
        Self {
            instruction_pointer,
            code_segment,
            cpu_flags,
            stack_pointer,
            stack_segment,
        }
    }
}

/// A frame on an interrupt handler's stack. It is read by `value`, and changed only by `as_mut`, since a change moves
/// the address to which the handler returns.
///
/// Source: AMD64 manual, volume 2, section 8.9.3.
#[derive(Debug, Drop)]
pub struct InterruptStackFrame(InterruptStackFrameValue);

impl InterruptStackFrame {
    ghost use Rattle.x86_tables.specs.StackFrame.{frame_value, lends_value};

    /// A frame of these values.
    pub fn new(
        instruction_pointer: VirtAddr,
        code_segment: SegmentSelector,
        cpu_flags: RFlags,
        stack_pointer: VirtAddr,
        stack_segment: SegmentSelector,
    ) -> Self
        ensures { result.0 ≡ frame_value instruction_pointer code_segment cpu_flags stack_pointer stack_segment }
    {
        Self(InterruptStackFrameValue::new(
            instruction_pointer,
            code_segment,
            cpu_flags,
            stack_pointer,
            stack_segment,
        ))
    }

    /// The values.
    pub fn value(&self) -> &InterruptStackFrameValue
        ensures { result.now ≡ self.now.0 }
    {
        &self.0
    }

    /// The values, to be changed.
    pub fn as_mut(&mut self) -> &mut InterruptStackFrameValue
        ensures* lends { sem 𝓛 (lends_value self.entry result) }
        ensures value { result.now ≡ self.old.0 }
    {
        &mut self.0
    }
}
