//! The program `memory_image`: serves lines as `heap run` does, and shows the machine that they leave as a processor has to
//! find it: its registers, its regions, and each word of its memory that is not 0.
#![tactic(auto)]

mod command;
mod image;
mod imaged;
mod tracing;

use command::MemoryImage;
use command_line::{Pages, program, program_arguments};
use heap_program::{ReaderSource, WriterSink};
use std::io;
use std::process::ExitCode;

const VERSION: &str = "\
memory_image 0.1.0
";

const HELP: &str = "\
memory_image 0.1.0: the memory and the registers that calls leave

Usage: memory_image [BASE PAGES GRANULARITY FRAMES RATE]

Answers each line of standard input as `heap run` does. Behind the answer to a
probe it prints CR2, and the physical address at which the probe's walk arrives:

  cr2 ADDRESS walk ADDRESS     or `walk none`

At the end it prints the machine, one line each:

  registers CR0 CR2 CR3 CR4 EFER
  region ADDRESS+PAGES KIND    as `heap run` prints it
  memory FRAMES                how many frames the memory has
  word ADDRESS VALUE           each word of the memory that is not 0

  -h, --help  prints this text
  --version   prints the name and the version

Exit status: 0 ok, 1 usage, 2 bad window, 3 bad granularity, 4 too few frames,
5 out of memory, 6 read fault, 7 write fault, 8 input too long (more than 2^30
bytes)
";

const PAGES: Pages = Pages {
    help: HELP,
    version: VERSION,
    lines: None,
};

fn main(rt: HostRuntime) -> ExitCode {
    let stderr = rt.stderr();
    program::<MemoryImage, _, _, _>(
        rt.alloc(),
        &PAGES,
        program_arguments(&rt),
        &mut ReaderSource::new(rt.reader()),
        &mut WriterSink::new(io::writer(&rt)),
        &mut WriterSink::new(io::writer(&stderr)),
    )
}
