//! Instructions of an x86-64 processor, as values over a register file.
//!
//! Each call reads or writes a `Cpu` that is handed in, and a contract says what becomes of the whole of it.
#![tactic(auto)]

mod flag;
pub mod interrupts;
pub mod port;
pub mod smap;
pub mod tables;
pub mod tlb;
