//! Worked runs of the reports and the pictures: what they write for an input, and how they end.
#![tactic(auto)]

#[cfg(test)]
mod checks;
#[cfg(test)]
mod pictures;
#[cfg(test)]
mod programs;
#[cfg(test)]
mod reports;
