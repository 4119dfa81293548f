//! The program `heap_picture`: drawings of a recorded run, of the heap and the page tables that it leaves.
#![tactic(auto)]

use command_line::{Pages, program, program_arguments};
use heap_picture::Picture;
use heap_program::{ReaderSource, WriterSink};
use std::io;
use std::process::ExitCode;

const VERSION: &str = "\
heap_picture 0.1.0
";

const HELP: &str = "\
heap_picture 0.1.0: drawings of a recorded run and of what it leaves

Usage: heap_picture [map|tables|time] [BASE PAGES GRANULARITY FRAMES RATE]

Replays the calls of standard input, which are lines as `heap --help lines` has
them, and then prints a drawing of the heap (`map`, or none of the words), of its
page tables (`tables`), or of the heap over the whole run (`time`), as an SVG
document.

The heap: each row has a power of two of addresses, 512 bytes at least, and as few as it
takes for the map to have at most 20 lines. Rows that lie wholly in one extent
are one thin line. A row has 512 cells: a cell is blue from the ground up as far
as its bytes are in blocks, and above that it has the colour of most of its
other bytes. Above the rows are the figures of the heap; below them is what it
consists of, its free chunks by size, and the regions of the heap and the user
with their large pages. A browser shows at each extent what it is, and at a
block its number and the bytes that were asked for.

The page tables: a line for the root, for each table, and below it for what its
entries map, which is the greatest run of pages with frames one after the other,
of one owner and with equal rights. Pages of the heap are blue and those of the
user green; the lower half of a line of large pages is orange. At the right of a
line is its part of the 512 entries of its table. Below are the frames of the
memory by their use: a square has the colour of the first that it has of a table,
a large page, a page of the user and one of the heap.

The heap over the run: calls go from left to right, addresses upwards. A block is
drawn from the call that gave it to the call that ended it, over the regions
that the heap had then. Wide ranges in which nothing begins or ends in the whole
run are folded. Below are the regions of the user, the bytes that were live and
those of the heap, and the refused calls.

A line that is no call is passed over, and a refused call changes nothing. The
words are those of `heap run`; the default is 0x400000 1024 65536 1024 4095.

  -h, --help  prints this text
  --version   prints the name and the version

Exit status: 0 ok, 1 usage, 2 bad window, 3 bad granularity, 4 too few frames,
5 out of memory, 6 read fault, 7 write fault, 8 input too long (more than 2^30
bytes). Nothing is printed at 6 and 8.
";

const PAGES: Pages = Pages {
    help: HELP,
    version: VERSION,
    lines: None,
};

fn main(rt: HostRuntime) -> ExitCode {
    let stderr = rt.stderr();
    program::<Picture, _, _, _>(
        rt.alloc(),
        &PAGES,
        program_arguments(&rt),
        &mut ReaderSource::new(rt.reader()),
        &mut WriterSink::new(io::writer(&rt)),
        &mut WriterSink::new(io::writer(&stderr)),
    )
}
