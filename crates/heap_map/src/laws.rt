// What the definitions of a map come to.
ghost use Rattle.heap_map.specs.Pieces.{LinesAreTheHeap};
ghost use Rattle.heap_map.specs.Pixels.{CellsAreTheirBytes};

/// The lines are the heap: joined, they are the pieces of the extents in order, and these have the bytes of the extents.
pub fn lines_are_the_heap()
    ensures { LinesAreTheHeap }
{}

/// A cell whose bytes are all of one class has its colour alone, from the ground to the top.
pub fn cells_are_their_bytes()
    ensures { CellsAreTheirBytes }
{}
