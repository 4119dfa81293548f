// What the definitions of the lines come to.
ghost use Rattle.heap_tables.specs.Uses.{EachFrameIsCountedOnce};
ghost use Rattle.heap_tables.specs.Walked.{EachPageIsInItsLine};

/// Each page is in its line: what a line says of its pages is what walks find, and a page in no line is not mapped. The
/// owner that a line says is that of each of its pages by the regions, if the pages of each large page have one owner. The
/// lines are as great as can be.
pub fn each_page_is_in_its_line()
    ensures { EachPageIsInItsLine }
{}

/// Each frame is counted for one use: the counts of tables, of large pages, of pages of the heap and of the user, and of free
/// frames add up to the number of frames.
pub fn each_frame_is_counted_once()
    ensures { EachFrameIsCountedOnce }
{}
