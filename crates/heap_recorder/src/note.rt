// What an answer changes of the sizes of blocks.
ghost use Rattle.std.specs.Prelude.{◌≡◌, OnOk};
ghost use Rattle.heap_recorder.specs.Sizes.{sizes_after};

use machine_model::{Call, Reply};
use run_figures::BlockSizes;
use std::alloc::AllocError;

/// Notes the answer to a call: a block that began, has another size or ended.
pub fn note_answer(sizes: &mut BlockSizes, call: &Call, reply: &Reply) -> Result<(), AllocError>
    ensures { OnOk result (sizes.new ≡ sizes_after sizes.old call.now reply.now) }
{
    match (call, reply) {
        (Call::Malloc { size, .. } | Call::Calloc { size, .. }, Reply::Block { .. }) => {
            return sizes.push(*size);
        }
        (Call::Realloc { block, size } | Call::CRealloc { block, size }, Reply::Block { .. }) =>
            sizes.set(*block, *size),
        (Call::Free { block }, Reply::Done) => sizes.set(*block, 0),
        (Call::Reset, Reply::Released(_)) => sizes.clear(),
        _ => {}
    }
    Ok(())
}
