// What the definitions of cells come to.
ghost use Rattle.heap_cells.specs.Shades.{ShadesAreShares};
ghost use Rattle.heap_cells.specs.Bars.{BarsAreCells};
ghost use Rattle.heap_cells.specs.Rows.{RowsAreTheBand};

/// A shade is the share of a cell's bytes that is used, rounded up.
pub fn shades_are_shares()
    ensures { ShadesAreShares }
{}

/// The bars of a row give each cell its shade.
pub fn bars_are_cells()
    ensures { BarsAreCells }
{}

/// The rows of a band have each of its addresses once, if it has as many addresses as rows.
pub fn rows_are_the_band()
    ensures { RowsAreTheBand }
{}
