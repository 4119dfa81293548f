// The live blocks of a heap, by their addresses.
ghost use Rattle.std.specs.Prelude.{◌≡◌};
ghost use Rattle.heap_map.specs.Blocks.{named_at, block_in};

use crate::classes::{Class, is_in};
use dlmalloc_chunks::Extent;
use std::collections::BTreeMap;

/// What a map calls a live block.
#[derive(Clone, Copy, PartialEq, Eq, Debug)]
pub struct NamedBlock {
    /// The block's number.
    pub number: u64,
    /// The bytes that were asked for.
    pub size: u64,
}

/// The block that an extent holds, if it is in use: that at the address 16 bytes after the extent's own.
pub fn block_in(blocks: &BTreeMap<u128, NamedBlock>, extent: Extent) -> Option<NamedBlock>
    ensures { result ≡ block_in (named_at blocks.now) extent }
{
    if is_in(Class::Block, extent.kind) {
        let address = u128::from(extent.at) + 16;
        blocks.get(&address).copied()
    } else {
        None
    }
}
