//! The registers of an x86-64 processor, as values over a register file.
//!
//! Each call reads or writes a `Cpu` that is handed in. A contract says the register's exact bits, and
//! that every other field of the register file stays.
#![tactic(auto)]

pub mod control;
mod cpu;
pub mod debug;
mod flag_register;
pub mod model_specific;
pub mod mxcsr;
mod register;
pub mod rflags;
pub mod segmentation;
pub mod xcontrol;

pub use crate::cpu::{Cpu, DescriptorTablePointer};
pub use crate::flag_register::FlagRegister;
pub use crate::register::Register;
