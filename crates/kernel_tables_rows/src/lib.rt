//! Worked rows of a kernel's page tables: ranges of pages, and tables beside a plain map of pages.
#![tactic(auto)]

#[cfg(test)]
mod checks;
#[cfg(test)]
mod fault_words;
#[cfg(test)]
mod plain;
#[cfg(test)]
mod plain_map;
#[cfg(test)]
mod ranges;
