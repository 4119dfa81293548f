// How a command ends.
ghost use Rattle.std.specs.Prelude.{◌≡◌, ◌≤◌, None};
ghost use Rattle.heap_program.specs.Status.{refusal_status, status_text_of};
ghost use Rattle.heap_program.specs.Stop.{status_of};

use crate::run::Stop;
use kernel_heap::{Machine, RunError};

/// The status if no machine was made.
pub fn refusal_status(error: RunError) -> u8
    ensures { result ≡ refusal_status error }
{
    match error {
        RunError::BadWindow => 2,
        RunError::BadGranularity => 3,
        RunError::TooFewFrames => 4,
        RunError::OutOfMemory => 5,
    }
}

/// The status if a run stopped.
pub fn status_of(stop: Stop) -> u8
    ensures { result ≡ status_of stop }
{
    match stop {
        Stop::Memory => 5,
        Stop::ReadFault => 6,
        Stop::WriteFault => 7,
        Stop::TooLong => 8,
    }
}

/// What a status means, in a few words.
pub fn status_text(status: u8) -> &'static str
    requires { status ≤ 8 }
    ensures { result.now ≡ status_text_of status }
{
    match status {
        0 => "ok",
        1 => "usage",
        2 => "bad window",
        3 => "bad granularity",
        4 => "too few frames",
        5 => "out of memory",
        6 => "read fault",
        7 => "write fault",
        _ => "input too long",
    }
}

/// How a command ended.
#[derive(Drop)]
pub struct Ended {
    /// 0 if the input was read to its end and all was written and flushed; else see [`status_text`].
    pub status: u8,
    /// The machine as it was at the end, if the status is 0.
    pub machine: Option<Machine>,
}

/// The end at a status other than 0.
pub fn ended_early(status: u8) -> Ended
    ensures status { result.status ≡ status }
    ensures machine { result.machine ≡ None }
{
    Ended {
        status,
        machine: None,
    }
}
