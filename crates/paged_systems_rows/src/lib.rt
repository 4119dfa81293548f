//! Worked rows of a paged system, of a twin of it, and of a heap over each: without the machine.
#![tactic(auto)]

#[cfg(test)]
mod beside;
#[cfg(test)]
mod checks;
#[cfg(test)]
mod releases;
#[cfg(test)]
mod twin_rows;
#[cfg(test)]
mod twins;
