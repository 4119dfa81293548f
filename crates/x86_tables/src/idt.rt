//! The interrupt descriptor table, and what the processor hands to the handlers in it.

mod entry;
mod entry_options;
mod exception_vector;
mod gates;
mod handler;
mod interrupt_descriptor_table;
mod selector_error_code;
mod stack_frame;

pub use entry::Entry;
pub use entry_options::EntryOptions;
pub use exception_vector::{ExceptionVector, InvalidExceptionVectorNumber};
pub use handler::{
    DivergingHandlerFunc, DivergingHandlerFuncWithErrCode, HandlerFunc, HandlerFuncWithErrCode,
    PageFaultHandlerFunc,
};
pub use interrupt_descriptor_table::InterruptDescriptorTable;
pub use selector_error_code::{DescriptorTable, SelectorErrorCode};
pub use stack_frame::{InterruptStackFrame, InterruptStackFrameValue};
pub use x86_flags::PageFaultErrorCode;
