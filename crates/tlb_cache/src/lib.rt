//! A cache of translations, as a processor keeps of its walks, which forgets by command.
//!
//! `Tlb` is the cache alone, over any page tables. An entry stays what the walk found until a command covers its page, as
//! in a processor, so whoever changes a table has to flush. `CachedSystem` does: it is a paged system whose probes go by
//! the cache, and whose unmaps flush. Its probes answer as they would without a cache.
//!
//!     let mut cached = CachedSystem::new(alloc, 0x40_0000, 16, 64, 64, 7)?;
//!     cached.map(0x1_0000, 3, rights)?;
//!     cached.probe(0x1_1000, Access::Read, false);  // by a walk, and from now on by its entry
//!     let commands = cached.unmap(0x1_0000, 3)?;    // what other processors have to be told
#![tactic(auto)]

mod access;
mod cached_fault;
mod cached_system;
mod covered;
mod entry;
mod page_index;
mod page_run;
mod probed;
mod tlb;

pub use cached_fault::CachedFault;
pub use cached_system::CachedSystem;
pub use entry::{TlbEntry, Translated};
pub use probed::Probed;
pub use tlb::Tlb;
