//! Worked rows of a tree of intervals, and a tree beside a plain list of pairs.
#![tactic(auto)]

#[cfg(test)]
mod checks;
#[cfg(test)]
mod tree;
