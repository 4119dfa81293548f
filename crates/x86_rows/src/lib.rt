//! Worked rows of the x86 crates: the bits of the manual's tables, the texts of the errors, and each call once.
#![tactic(auto)]

#[cfg(test)]
mod checks;
#[cfg(test)]
mod flags;
#[cfg(test)]
mod instructions;
#[cfg(test)]
mod registers;
#[cfg(test)]
mod tables;
