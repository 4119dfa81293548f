// The lines of a run's calls.
ghost use Rattle.std.specs.Prelude.{◌≡◌, OnOk};
ghost use Rattle.heap_recorder.specs.Lines.{lines_after};

use call_lines::line_of;
use heap_history::LineList;
use machine_model::Call;
use std::alloc::{AllocError, Global};

/// Notes the line of the call with this number, counted from 0. From the 65th call on no line is kept.
pub fn note_line(
    alloc: Global,
    lines: &mut LineList,
    number: u64,
    call: &Call,
) -> Result<(), AllocError>
    ensures { OnOk result (lines.new ≡ lines_after number call.now lines.old) }
{
    if number < 64 {
        let line = line_of(alloc, call)?;
        return lines.push(line);
    }
    if !lines.is_empty() {
        *lines = LineList::new(alloc);
    }
    Ok(())
}
