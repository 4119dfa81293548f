//! Worked runs of the whole program: what it prints for an input, by configuration and by kind of call, how it ends, and what
//! its parts answer alone.
#![tactic(auto)]

#[cfg(test)]
mod bytes;
#[cfg(test)]
mod checks;
#[cfg(test)]
mod commands;
#[cfg(test)]
mod error_words;
#[cfg(test)]
mod large_pages;
#[cfg(test)]
mod probes;
#[cfg(test)]
mod registers;
#[cfg(test)]
mod requests;
#[cfg(test)]
mod room;
#[cfg(test)]
mod runs;
#[cfg(test)]
mod settings;
#[cfg(test)]
mod streams;
#[cfg(test)]
mod tests;
#[cfg(test)]
mod users;
#[cfg(test)]
mod wants;
