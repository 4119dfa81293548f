//! A pool of objects of one size, behind keys that never name another object.
//!
//! # What it is for
//!
//! A program that makes and drops many objects of one size, as an emulator, a game or a server does, keeps keys in place of
//! addresses. A key is a slot and a generation: how many objects were removed from that slot before. A key of an object that is
//! gone is told from every other, since its slot is used again only with the next generation. So a key that is kept too long
//! finds nothing, in place of another object.
//!
//! The objects lie in slabs of 64, each of which is a block of a heap. So they are in the memory of that heap and not in the
//! host's, and its other blocks stand beside them and keep their bytes. Slabs stay until `finish`.
//!
//! Use it if objects have one size of 1 to 4096 bytes. If sizes differ, ask the heap for blocks.
//!
//! # An example
//!
//!     let heap = Heap::new(system);
//!     let mut pool = Pool::new(alloc, heap, 24);
//!     let key = pool.insert(&[1; 24])?;     // Key { index: 0, generation: 0 }
//!     let other = pool.insert(&[2; 24])?;   // Key { index: 1, generation: 0 }
//!     pool.set(key, &[3; 24]);              // true
//!     pool.get(key)?;                       // Some: the bytes [3; 24]
//!     pool.read(key, &mut buffer);          // true, and the buffer has them
//!     pool.at(key);                         // Some: the address at which they lie
//!     pool.remove(key);                     // true
//!     pool.get(key)?;                       // None, from now on
//!     pool.set(key, &[4; 24]);              // false, and nothing changes
//!     pool.insert(&[5; 24])?;               // Key { index: 0, generation: 1 }
//!     for key in pool.keys() {}             // both keys, by index
//!     let heap = pool.finish();             // without the slabs, and with all its other blocks
//!
//! # What calls cost, and when they fail
//!
//! `get`, `read`, `set`, `remove` and an `insert` that finds a free slot cost what the size of an object costs, however many objects
//! there are; bytes move by words if these are whole. An `insert` without a free slot takes a slab first. A step of `keys`
//! looks at the slots that it passes. Only `insert`, for a slab, and `get`, for the bytes that it answers, take memory.
//!
//! An `insert` fails only if no slot is free, with a `PoolFault` that says why, and leaves all as it was. It asks the heap's
//! system for a region only if the heap has no room for a slab.
//!
//! # What is proved
//!
//! What the calls do is told by two lists: what was inserted, in order, and the slots that are free again. `specs/Lists.antt`
//! has them, and `specs/Pool.antt` says when a pool stands for them, what is left of the heap, and why an insert is refused.
#![tactic(auto)]

mod bytes;
mod key;
mod keys;
mod pool;
mod pool_fault;
mod slabs;
mod slots;

pub use heap_memory::GrantFault;
pub use key::Key;
pub use keys::Keys;
pub use pool::Pool;
pub use pool_fault::PoolFault;
pub use public_list::PublicList;
pub use sound_heap::Heap;

/// Bytes, as a list.
pub type Bytes = PublicList<u8>;
