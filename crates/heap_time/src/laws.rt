// What the definitions of the axis come to.
ghost use Rattle.heap_time.specs.Tiling.{BandsTileTheAxis};

/// The bands of a run tile the axis, from its greatest edge to its least: each ends at the address at which the one above it
/// begins. In a fold no edge lies, so nothing begins or ends there in the whole run.
pub fn bands_tile_the_axis()
    ensures { BandsTileTheAxis }
{}
