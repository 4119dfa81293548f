//! The heap and the page tables for programs and kernels in C, and in any language that calls C functions.
//!
//! `limzhur_init` makes a heap in memory that C gives, and `limzhur_tables_init` page tables. Each other function takes a
//! handle, which leads to that heap or to these tables, and makes one call of it, whose clauses it states again. Blocks are
//! addresses, and pages are numbers. `bindings/c/limzhur.h` and `limzhur_tables.h` say in C's words what C has to keep between
//! two calls.
#![tactic(auto)]

mod exports;
mod handle;
mod init;
mod tables_calls;
mod tables_exports;
mod tables_flags;
mod tables_handle;
mod tables_init;
mod tables_ranges;
