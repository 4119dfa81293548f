//! Worked rows of a pool: keys that are refused, faults of its heap, and a pool beside a plain list.
#![tactic(auto)]

#[cfg(test)]
mod checks;
#[cfg(test)]
mod pool;
