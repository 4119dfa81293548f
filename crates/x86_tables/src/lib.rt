//! The descriptor tables of an x86-64 processor, and the codes and numbers that its exceptions give.
//!
//! A contract says the exact bits and bytes of each structure, in the words of the manual's layouts.
#![tactic(auto)]

pub mod gdt;
pub mod idt;
mod laws;
pub mod mem_encrypt;
pub mod tss;

pub use crate::laws::{default_segments, number_of_vector, selector_gives_back};
