//! Where things stand in the heap's memory. All numbers are bytes.

/// The place of the head in a chunk.
pub(crate) const HEAD: u64 = 8;

/// The place of a block in its chunk.
pub(crate) const BLOCK: u64 = 16;

/// The size of the least chunk.
pub(crate) const LEAST_CHUNK: u64 = 32;

/// The sizes from here on are large.
pub(crate) const LEAST_LARGE: u64 = 256;

/// The size of the foot after the top.
pub(crate) const FOOT: u64 = 80;

/// The size in the head of a record, and the place in a record where its fences begin.
pub(crate) const RECORD_CHUNK: u64 = 48;

pub(crate) const FENCES: u64 = 56;

/// A word of a fence: the head of a chunk of 8 bytes in use, after another.
pub(crate) const FENCE: u64 = 11;

/// What a grant has besides the chunk that it is asked for: the foot, and a least rest of the top.
pub(crate) const OVERHEAD: u64 = 96;

/// The bytes of the top above which a free is to give some of it back, once a region was granted.
pub(crate) const TRIM_THRESHOLD: u64 = 2 * 1024 * 1024;

/// The bit of a head that says that the chunk before is in use.
pub(crate) const PINUSE: u64 = 1;

/// The bit of a head that says that this chunk is in use.
pub(crate) const CINUSE: u64 = 2;

/// The alignment that every block has.
pub(crate) const LEAST_ALIGN: u64 = 16;
