//! The processor's walk of a guest's page tables, for emulators, virtual machine monitors and debuggers in C.
//!
//! `limzhur_translate` is an access over memory that lies in a row, and `limzhur_walk_begin` begins a walk whose entries C reads.
//! `bindings/c/limzhur_guest.h` says in C's words what C has to keep.
#![tactic(auto)]

mod access;
mod steps;
mod words;
