// How the command ends.
ghost use Rattle.std.specs.Prelude.{◌≡◌, None};

use kernel_heap::Machine;

/// How the command ended.
#[derive(Drop)]
pub struct Imaged {
    /// 0 if the input was read to its end and all was written and flushed; else see [`heap_program::status_text`].
    pub status: u8,
    /// The machine as it was at the end, if the status is 0.
    pub machine: Option<Machine>,
}

/// The end at a status other than 0.
pub fn ended_early(status: u8) -> Imaged
    ensures status { result.status ≡ status }
    ensures machine { result.machine ≡ None }
{
    Imaged {
        status,
        machine: None,
    }
}
