// The end of a replay, with the extents.
ghost use Rattle.std.specs.Prelude.{◌≡◌, List, IfOk};
ghost use Rattle.dlmalloc_chunks.specs.declared.extent.Extent.{Extent};
ghost use Rattle.machine_model.specs.declared.answer.Reply.TheVariants.{Extents};
ghost use Rattle.heap_report.specs.Listed.{IsListedByReplay};

use crate::replay::Replay;
use kernel_heap::{Answer, Call, ExtentList, Machine, Reply};
use std::alloc::{AllocError, Global};

/// A run whose last call asked for the extents.
#[derive(Drop)]
pub struct Listed {
    /// The machine after that call.
    pub machine: Machine,
    /// The extents of its heap.
    pub extents: ExtentList,
    /// The bytes that are live.
    pub(crate) live: u128,
    /// The most bytes that were live at a time.
    pub(crate) peak: u128,
}

// A copy of the extents that an answer lists.
fn extents_of(alloc: Global, answer: &Answer) -> Result<ExtentList, AllocError>
    ensures { (extents : List Extent) → answer.now.reply ≡ Extents extents → IfOk result (λ list. list ≡ extents) }
{
    match &answer.reply {
        Reply::Extents(extents) => { Ok(ExtentList::from_vec(extents.as_slice().to_vec(alloc)?)) }
        _ => Ok(ExtentList::new(alloc)),
    }
}

/// Ends a replay by the call for the extents.
pub fn list_extents(alloc: Global, mut replay: Replay) -> Result<Listed, AllocError>
    ensures { IfOk result (λ listed. IsListedByReplay replay listed) }
{
    let answer = replay.answer(&Call::Extents)?;
    let extents = extents_of(alloc, &answer)?;
    let live = replay.sizes.sum();
    let Replay { machine, peak, .. } = replay;
    Ok(Listed {
        machine,
        extents,
        live,
        peak,
    })
}
