//! Laws above the definitions of order. Each function does nothing: its contract is the law.

ghost use Rattle.dlmalloc.specs.Order.{OneOrder};

/// The order that a call keeps says all: a list that is in order after another is determined by its chunks.
pub fn one_order()
    ensures { OneOrder }
{}
