// What the definitions of a history come to.
ghost use Rattle.heap_recorder.specs.Run.{LinesAreTheCalls};
ghost use Rattle.heap_recorder.specs.Shown.{EachBlockIsDrawnOnce, EachRegionIsDrawnOnce};

/// Each block is drawn once, from its birth to its end, at its place: after each call of a run, a block that is live is one
/// stay's that shows then, and each stay that shows is a live block's.
pub fn each_block_is_drawn_once()
    ensures { EachBlockIsDrawnOnce }
{}

/// Each region of the heap is drawn once, while the heap has it: after each call of a run, the regions that show then are those
/// of the heap, with their first addresses and their pages.
pub fn each_region_is_drawn_once()
    ensures { EachRegionIsDrawnOnce }
{}

/// The lines of a history are those that ask for the calls of its run, in their order, if there are at most 64 calls, and
/// else there are none.
pub fn lines_are_the_calls()
    ensures { LinesAreTheCalls }
{}
