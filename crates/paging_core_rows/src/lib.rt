//! Worked rows of the page tables: sets of numbers, addresses and pages, frames of a pool, walks, a processor's walks over
//! odd entries, large pages, words of pages, and ranges.
#![tactic(auto)]

#[cfg(test)]
mod checks;
#[cfg(test)]
mod keys;
#[cfg(test)]
mod large_pages;
#[cfg(test)]
mod numbers;
#[cfg(test)]
mod pages;
#[cfg(test)]
mod processor;
#[cfg(test)]
mod ranges;
#[cfg(test)]
mod words;
