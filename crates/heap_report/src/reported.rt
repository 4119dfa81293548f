// How a command ends that tells of a run.
ghost use Rattle.std.specs.Prelude.{◌≡◌, None};

use kernel_heap::{ExtentList, Machine};

/// How a command ended that tells of a run.
#[derive(Drop)]
pub struct Reported {
    /// 0 if the input was read to its end and all was written and flushed; else see [`heap_program::status_text`].
    pub status: u8,
    /// The machine as it was at the end, if the status is 0.
    pub machine: Option<Machine>,
    /// The extents of its heap, each with the use that the heap has for it, if the status is 0.
    pub extents: Option<ExtentList>,
}

/// The end at a status other than 0.
pub fn ended_early(status: u8) -> Reported
    ensures status { result.status ≡ status }
    ensures machine { result.machine ≡ None }
    ensures extents { result.extents ≡ None }
{
    Reported {
        status,
        machine: None,
        extents: None,
    }
}
