// The columns of the curves: one for each call, and 1024 at most.
ghost use Rattle.std.specs.Prelude.{◌≡◌, ◌≤◌, ◌+◌, IfOk};
ghost use Rattle.heap_curves.specs.Columns.{bytes_counted, greatest, columns_number, column_start, columns_of};

use heap_history::Moment;
use std::alloc::{AllocError, Global};

/// What a moment is looked at for.
#[derive(Clone, Copy, PartialEq, Eq, Debug)]
pub enum Counted {
    /// The bytes of live blocks.
    Live,
    /// The bytes of the heap's regions.
    Heap,
}

/// What is drawn in a column, in bytes.
#[derive(Clone, Copy, PartialEq, Eq, Debug)]
pub struct Column {
    /// The most that were live after a call of the column.
    pub live: u128,
    /// The most that the heap had after a call of the column.
    pub heap: u128,
    /// The most that were live after any call up to the last of the column.
    pub peak: u128,
}

/// The bytes of a moment that are live, or the heap's.
pub fn bytes_of(counted: Counted, moment: Moment) -> u128
    ensures { result ≡ bytes_counted counted moment }
{
    match counted {
        Counted::Live => moment.live,
        Counted::Heap => moment.heap,
    }
}

/// The greatest bytes of moments; 0 if there are none.
#[tactic(auto, using(crate::proofs::Loops::greatest_step, crate::proofs::Loops::greatest_last, std::proofs::lemmas::Grind::common_steps))]
pub fn greatest(counted: Counted, moments: &[Moment]) -> u128
    ensures { result ≡ greatest counted moments.now }
{
    let mut most = 0;
    for moment in moments {
        most = bytes_of(counted, *moment).max(most);
    }
    most
}

// The number of columns for a number of calls.
fn columns_number(calls: usize) -> usize
    ensures value { result ≡ columns_number calls }
    ensures few { result ≤ 1024 }
{
    calls.min(1024)
}

// The first call of a column.
#[tactic(auto, using(crate::proofs::Starts::start_within))]
fn column_start(calls: usize, column: usize) -> usize
    requires { column ≤ columns_number calls }
    ensures value { result ≡ column_start calls column }
    ensures within { result ≤ calls }
{
    let columns = columns_number(calls).max(1);
    (column as u128 * calls as u128 / columns as u128) as usize
}

/// What is drawn in each column.
#[tactic(auto, using(crate::proofs::Loops::columns_step, crate::proofs::Greatest::greatest_split, crate::proofs::Starts::start_grows, std::proofs::lemmas::Grind::common_steps))]
pub fn columns_of(alloc: Global, moments: &[Moment]) -> Result<Vec<Column>, AllocError>
    ensures { IfOk result (λ columns. columns.items ≡ columns_of moments.now) }
{
    let calls = moments.len();
    let mut columns = Vec::new(alloc);
    let mut peak = 0;
    for column in 0..columns_number(calls) {
        let part = &moments[column_start(calls, column)..column_start(calls, column + 1)];
        let live = greatest(Counted::Live, part);
        peak = live.max(peak);
        columns.push(Column {
            live,
            heap: greatest(Counted::Heap, part),
            peak,
        })?;
    }
    Ok(columns)
}
