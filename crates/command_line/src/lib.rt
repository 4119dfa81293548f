//! The command line of a program over lines: its words, the pages that it prints of itself, its command, and its end.
//!
//! [`program`] is such a program, but for where its arguments come from and where its bytes go. What the program does with
//! words that ask for no page is its [`Command`].
#![tactic(auto)]

mod command;
mod pages;
mod process;
mod served;

pub use command::Command;
pub use pages::{Pages, page_of};
pub use process::{exit_with, program_arguments, show, words_of, words_status};
pub use served::program;
