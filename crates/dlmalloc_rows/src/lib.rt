//! Worked rows of a heap and of what it stands on: its calls, the chunks and their words, bins beside a plain list, and a
//! system that grants by a script.
#![tactic(auto)]

#[cfg(test)]
mod call_rows;
#[cfg(test)]
mod calls;
#[cfg(test)]
mod checks;
#[cfg(test)]
mod chunks;
#[cfg(test)]
mod denials;
#[cfg(test)]
mod flags;
#[cfg(test)]
mod grants;
#[cfg(test)]
mod keeping;
#[cfg(test)]
mod order;
#[cfg(test)]
mod plain_list;
#[cfg(test)]
mod releases;
#[cfg(test)]
mod resizes;
#[cfg(test)]
mod scripted;
#[cfg(test)]
mod system;
#[cfg(test)]
mod trims;
