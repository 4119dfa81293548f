// The heap over a run.
ghost use Rattle.std.specs.Prelude.{◌≡◌, ◌++◌, OnOk, string_bytes};
ghost use Rattle.heap_recorder.specs.Run.{IsRecordOf};
ghost use Rattle.heap_picture.specs.Style.{style};
ghost use Rattle.heap_picture.specs.Timing.{timing_of, run_of};

use crate::picture::push_head;
use heap_history::History;
use heap_recorder::Recorder;
use heap_report::Tell;
use heap_time::{bands_of, push_time, time_height};
use kernel_heap::{Answer, Call, Extent, Machine};
use std::alloc::{AllocError, Global};

// Puts the drawing of a run at the end.
fn push_timing(alloc: Global, out: &mut String, history: &History) -> Result<(), AllocError>
    ensures { OnOk result (string_bytes out.new ≡ string_bytes out.old ++ timing_of style history.now) }
{
    let bands = bands_of(alloc, history.stays.as_slice(), history.heap.as_slice())?;
    push_head(out, time_height(&bands, history))?;
    push_time(alloc, out, &bands, history)?;
    out.push_str("</svg>\n")
}

/// The heap over a run as its text. The run is recorded as it is replayed.
#[derive(Drop)]
pub struct Timing {
    recorder: Recorder,
}

impl Tell for Timing {
    ghost keeps = { λ timing calls answers. IsRecordOf timing.recorder calls answers };

    ghost text = { run_of style };

    fn new(alloc: Global) -> Timing {
        Timing {
            recorder: Recorder::new(alloc),
        }
    }

    fn note(&mut self, call: &Call, answer: &Answer) -> Result<(), AllocError> {
        self.recorder.note(call, answer)
    }

    fn push(
        self,
        alloc: Global,
        output: &mut String,
        _machine: &Machine,
        _live: u128,
        _peak: u128,
        _extents: &[Extent],
    ) -> Result<(), AllocError> {
        let Timing { recorder } = self;
        let history = recorder.history()?;
        push_timing(alloc, output, &history)
    }
}
