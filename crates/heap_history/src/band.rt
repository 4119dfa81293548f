// A band of addresses in a drawing.

/// Addresses that are drawn to one scale: from `low` on to the last before `high`, upwards. A folded band is not to
/// scale: nothing begins or ends in it.
#[derive(Clone, Copy, PartialEq, Eq, Debug)]
pub struct Band {
    pub low: u128,
    pub high: u128,
    pub folded: bool,
    /// Where it begins at its top, in pixels.
    pub y: u128,
    /// Its height, in pixels.
    pub height: u128,
}
