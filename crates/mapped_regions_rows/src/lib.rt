//! Worked rows of regions by address: places among them, and ranges that are mapped, cut and unmapped.
#![tactic(auto)]

#[cfg(test)]
mod checks;
#[cfg(test)]
mod fault_words;
#[cfg(test)]
mod random_ranges;
#[cfg(test)]
mod regions;
#[cfg(test)]
mod tree;
