//! Gates side by side.

ghost use Rattle.std.specs.Prelude.{◌≡◌, ◌<◌, ◌≤◌, Some, slice_get, slice_range};
ghost use Rattle.std.specs.Borrow.{sem};

/// Gates of one form, side by side, in a struct of their own, so that a contract can say what a loan of one or
/// of several of them leaves.
#[derive(Clone, Copy, Drop, Debug)]
pub(crate) struct Gates<T, const N: usize> {
    gates: [T; N],
}

impl<T, const N: usize> Gates<T, N> {
    ghost use Rattle.x86_tables.specs.Gates.{lends_gate, lends_part};

    /// These gates.
    pub(crate) fn new(gates: [T; N]) -> Self
        ensures { result.gates ≡ gates }
    {
        Self { gates }
    }

    /// The gate at a place.
    pub(crate) fn at(&self, place: usize) -> &T
        requires { place < N }
        ensures { Some result.now ≡ slice_get self.now.gates place }
    {
        &self.gates[place]
    }

    /// The gate at a place, to be changed.
    pub(crate) fn at_mut(&mut self, place: usize) -> &mut T
        requires { place < N }
        ensures* lends { sem 𝓛 (lends_gate T.row N.row self.entry place result) }
        ensures value { Some result.now ≡ slice_get self.old.gates place }
    {
        &mut self.gates[place]
    }

    /// The gates from one place up to another, `to` excluded.
    pub(crate) fn part(&self, from: usize, to: usize) -> &[T]
        requires order { from ≤ to }
        requires within { to ≤ N }
        ensures { result.now ≡ slice_range self.now.gates from to }
    {
        let all = &self.gates[..];
        &all[from..to]
    }

    /// The gates from one place up to another, `to` excluded, to be changed.
    pub(crate) fn part_mut(&mut self, from: usize, to: usize) -> &mut [T]
        requires order { from ≤ to }
        requires within { to ≤ N }
        ensures* lends { sem 𝓛 (lends_part T.row N.row self.entry from to result) }
        ensures value { result.now ≡ slice_range self.old.gates from to }
    {
        &mut self.gates[from..to]
    }
}
