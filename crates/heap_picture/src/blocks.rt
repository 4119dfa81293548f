// The live blocks that a run leaves, by their addresses.
ghost use Rattle.std.specs.Prelude.{◌≡◌, ◌++◌, ℕ, Some, IfOk, OnOk, if◌then◌else◌, string_bytes};
ghost use Rattle.dlmalloc_chunks.specs.Tiling.{AreInSegments};
ghost use Rattle.heap_map.specs.Blocks.{named_at};
ghost use Rattle.heap_map.specs.Map.{map_text};
ghost use Rattle.heap_picture.specs.Blocks.{remains, remains_at, name_of, block_at_end, blocks_at_end};

use heap_history::{History, Stay};
use heap_map::{NamedBlock, push_map};
use kernel_heap::Extent;
use std::alloc::{AllocError, Global};
use std::collections::BTreeMap;

// Whether a stay is there after the last of `calls` calls.
fn remains(calls: u64, stay: Stay) -> bool
    ensures { result ≡ remains calls stay }
{
    stay.born < calls && calls <= stay.end
}

// What the block of a stay is called.
fn name_of(stay: Stay) -> NamedBlock
    ensures { result ≡ name_of stay }
{
    NamedBlock {
        number: stay.block,
        size: stay.size,
    }
}

// Notes the block of a stay at its address, if it is there after the last of `calls` calls.
fn note_block(
    blocks: &mut BTreeMap<u128, NamedBlock>,
    calls: u64,
    stay: Stay,
) -> Result<(), AllocError>
    ensures { OnOk result ((address : ℕ) → named_at blocks.new address ≡ (if remains_at calls address stay then Some (name_of stay) else named_at blocks.old address)) }
{
    if !remains(calls, stay) {
        return Ok(());
    }
    blocks.insert(u128::from(stay.address), name_of(stay))?;
    Ok(())
}

// The blocks that remain after the last of `calls` calls, by their addresses. Of two at one address it is the first.
#[tactic(auto, using(crate::proofs::Names::block_step))]
fn end_blocks(
    alloc: Global,
    calls: u64,
    stays: &[Stay],
) -> Result<BTreeMap<u128, NamedBlock>, AllocError>
    ensures { IfOk result (λ blocks. (address : ℕ) → named_at blocks address ≡ block_at_end calls stays.now address) }
{
    let mut blocks = BTreeMap::new(alloc);
    for place in 0..stays.len() {
        note_block(&mut blocks, calls, stays[stays.len() - 1 - place])?;
    }
    Ok(blocks)
}

/// Puts the map of a heap at the end that a run leaves, with its live blocks.
pub fn push_named_map(
    alloc: Global,
    out: &mut String,
    history: &History,
    live: u128,
    peak: u128,
    extents: &[Extent],
) -> Result<(), AllocError>
    requires { AreInSegments extents.now }
    ensures { OnOk result (string_bytes out.new ≡ string_bytes out.old ++ map_text (blocks_at_end history.now) live peak extents.now) }
{
    let blocks = end_blocks(alloc, history.moments.len(), history.stays.as_slice())?;
    push_map(alloc, out, &blocks, live, peak, extents)
}
