//! The bins of free chunks (dlmalloc: `smallbins`, `treebins`), inside the memory that the chunks are.
//!
//! The bins answer as an ordered map does from sizes to lists of chunks, the oldest first. Nothing of the map is kept
//! outside the memory but the ends of the rings and the roots of the tries.
//!
//! A chunk is named by its address. Its head word (8 bytes on) has its size. After it are the words that the bins
//! write: `prev` (16 bytes on) and `next` (24), and in a chunk of at least 256 bytes `child0` (32), `child1` (40),
//! `parent` (48) and `index` (56), the number of its tree bin. A link out of the memory is a tag: 64 and the number of
//! a small bin, or 128 and the number of a tree bin.
//!
//! Chunks of one size below 256 form the ring of a small bin. From 256 on there are 32 tree bins; each is a trie whose
//! nodes are the oldest chunks of the sizes, and chunks of one size form the ring of their node.
#![tactic(auto)]

mod bins;
mod fit;
mod large;
pub mod laws;
mod leaf;
mod leave;
mod map;
mod search;
mod small;
mod trie;
mod words;

pub use bins::Bins;
