// How a run is cut into cells.
ghost use Rattle.std.specs.Prelude.{◌≡◌, ◌≤◌};
ghost use Rattle.heap_cells.specs.Shades.{cell_columns};

/// How a run is cut into cells.
#[derive(Clone, Copy, PartialEq, Eq, Debug)]
pub struct Scale {
    /// The number of calls.
    pub calls: u64,
    /// The pixels of a cell's side.
    pub side: u64,
}

/// A row of cells.
#[derive(Clone, Copy, PartialEq, Eq, Debug)]
pub struct Row {
    /// Its first address.
    pub low: u128,
    /// The address after its last.
    pub high: u128,
    /// Where its middle is, in pixels.
    pub y: u128,
}

/// The number of columns.
pub fn columns_of(scale: Scale) -> u64
    requires { (2 ≤ scale.side) × (scale.side ≤ 8) }
    ensures value { result ≡ cell_columns scale }
    ensures some { (1 ≤ result) × (result ≤ 512) }
{
    1024 / scale.side
}
