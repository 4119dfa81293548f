//! Lines in, text out: the program over the machine.
#![tactic(auto)]

mod answering;
mod arguments;
mod command;
mod digits;
mod ended;
mod generate;
mod generator;
mod laws;
mod line;
mod memory;
mod respond;
mod run;
mod session;
mod sink;
mod source;
mod text;

pub use arguments::config_of;
pub use call_lines::parse_call;
pub use command::heap_main;
pub use ended::{Ended, refusal_status, status_of, status_text};
pub use generator::next_call;
pub use laws::{live_blocks, one_spelling};
pub use memory::{MemorySink, MemorySource};
pub use respond::Respond;
pub use run::{Stop, read_all, write_out, write_text};
pub use session::Session;
pub use sink::{Sink, SinkFault, SureSink, WriterSink};
pub use source::{Failed, ReaderSource, Source, SureSource};
pub use text::{end_text, push_extent, push_owner, push_pages, text_of};
