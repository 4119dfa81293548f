//! Worked rows of address spaces: pages, bytes and copies, and a space beside a plain map of pages.
#![tactic(auto)]

#[cfg(test)]
mod bytes;
#[cfg(test)]
mod checks;
#[cfg(test)]
mod copies;
#[cfg(test)]
mod fault_words;
#[cfg(test)]
mod halves;
#[cfg(test)]
mod pages;
#[cfg(test)]
mod plain_map;
#[cfg(test)]
mod want_of_memory;
