//! Worked rows of the cache of translations, and a system with one beside a system with none.
#![tactic(auto)]

#[cfg(test)]
mod cache;
#[cfg(test)]
mod checks;
#[cfg(test)]
mod fault_words;
#[cfg(test)]
mod random_calls;
