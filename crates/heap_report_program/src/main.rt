//! The program `heap_report`: what a recorded run leaves of a heap, in numbers.
#![tactic(auto)]

use command_line::{Pages, program, program_arguments};
use heap_program::{ReaderSource, WriterSink};
use heap_report::Figures;
use std::io;
use std::process::ExitCode;

const VERSION: &str = "\
heap_report 0.1.0
";

const HELP: &str = "\
heap_report 0.1.0: what a recorded run leaves of a heap, in numbers

Usage: heap_report [BASE PAGES GRANULARITY FRAMES RATE]

Replays the calls of standard input, which are lines as `heap --help lines` has
them, and then prints one line each:

  live BYTES            the bytes of the live blocks
  peak BYTES            the most that were live at a time
  used NUMBER BYTES     the extents of live blocks
  free NUMBER BYTES     the free extents
  greatest BYTES        the greatest of these
  overhead BYTES        the records of segments, and the foot of the top
  permille N            of 1000 free bytes, those beside the greatest extent
  small SIZE NUMBER     the free chunks in bins of each size below 256
  tree INDEX NUMBER     the free chunks in each tree bin

A line that is no call is passed over, and a refused call changes nothing. The
words are those of `heap run`; the default is 0x400000 1024 65536 1024 4095.

  -h, --help  prints this text
  --version   prints the name and the version

Exit status: 0 ok, 1 usage, 2 bad window, 3 bad granularity, 4 too few frames,
5 out of memory, 6 read fault, 7 write fault, 8 input too long (more than 2^30
bytes). Nothing is printed at 6 and 8.
";

const PAGES: Pages = Pages {
    help: HELP,
    version: VERSION,
    lines: None,
};

fn main(rt: HostRuntime) -> ExitCode {
    let stderr = rt.stderr();
    program::<Figures, _, _, _>(
        rt.alloc(),
        &PAGES,
        program_arguments(&rt),
        &mut ReaderSource::new(rt.reader()),
        &mut WriterSink::new(io::writer(&rt)),
        &mut WriterSink::new(io::writer(&stderr)),
    )
}
