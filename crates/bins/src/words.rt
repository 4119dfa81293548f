// Where the words that the bins write stand in a chunk, and the tags of links out of the memory.

/// The place of the prev word in a chunk.
pub(crate) const PREV: u64 = 16;

/// The place of the next word in a chunk.
pub(crate) const NEXT: u64 = 24;

/// The place of the word of the child that has the lower half of the sizes.
pub(crate) const CHILD0: u64 = 32;

/// The place of the word of the child that has the upper half of the sizes.
pub(crate) const CHILD1: u64 = 40;

/// The place of the parent word in a chunk.
pub(crate) const PARENT: u64 = 48;

/// The place of the word that has the number of the tree bin.
pub(crate) const INDEX: u64 = 56;

/// The tag of the first small bin.
pub(crate) const SMALL_TAG: u64 = 64;

/// The tag of the first tree bin.
pub(crate) const TREE_TAG: u64 = 128;

/// The sizes from here on are in tree bins.
pub(crate) const LEAST_LARGE: u64 = 256;

/// No chunk is below this address, and each tag is.
pub(crate) const LEAST_ADDRESS: u64 = 4096;
