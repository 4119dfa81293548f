// What the moments of a history come to.
ghost use Rattle.heap_report.specs.Moments.{EachMomentIsOfItsState};

/// Each moment is that of its state: its bytes are those that are live, and those of the heap, after each call of a run.
pub fn each_moment_is_of_its_state()
    ensures { EachMomentIsOfItsState }
{}
