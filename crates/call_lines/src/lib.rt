//! The lines of calls: how a line is read, how the line of a call is written, and that it is read as that call.
#![tactic(auto)]

mod call_line;
mod decode;
mod grammar;
mod laws;
mod numbers;
mod search;
mod words;
mod written;

pub use call_line::{line_of, push_line};
pub use grammar::{LONGEST_LINE, parse_call};
pub use laws::calls_are_read_from_their_lines;
pub use numbers::number;
pub use search::first_of;
pub use written::{push_rights, refusal_word};
