//! The program `heap`: a kernel heap over four-level page tables, driven by lines of text.
#![tactic(auto)]

mod command;
#[cfg(test)]
mod tests;

use command::Heap;
use command_line::{Pages, program, program_arguments};
use heap_program::{ReaderSource, WriterSink};
use std::io;
use std::process::ExitCode;

const VERSION: &str = "\
heap 0.1.0
";

const HELP: &str = "\
heap 0.1.0: a kernel heap over four-level page tables in a modelled memory

Usage: heap run [BASE PAGES GRANULARITY FRAMES RATE]
       heap gen SEED COUNT [BASE PAGES GRANULARITY FRAMES RATE]

  run   answers each line of standard input on standard output, then prints the
        regions, the free frames and the page tables. The heap has PAGES pages
        from BASE on, over FRAMES frames of memory. It asks for multiples of
        GRANULARITY bytes, and looks for idle memory to give back each time
        that RATE large chunks were freed. The default is
        0x400000 1024 65536 1024 4095.
  gen   draws COUNT calls from SEED, at most 1000000, in place of lines, then
        prints how many calls there were, how many numbers they gave and how
        many were refused, and then what run prints at its end.

  -h, --help         prints this text
  -h, --help lines   prints which lines there are, and their answers
  --version          prints the name and the version

Exit status: 0 ok, 1 usage, 2 bad window, 3 bad granularity, 4 too few frames,
5 out of memory, 6 read fault, 7 write fault, 8 input too long (more than 2^30
bytes)
";

const LINES: &str = "\
The lines of `heap run`, and their answers:

  malloc SIZE [ALIGN]       a block of SIZE bytes at a multiple of ALIGN, a
                            power of two, or of 16: `block NUMBER ADDRESS`
  calloc SIZE [ALIGN]       the same, with bytes of value 0
  realloc BLOCK SIZE        another size for the block of this number. It keeps
                            its number, its alignment, and the bytes that both
                            sizes have: `block NUMBER ADDRESS`
  c_realloc BLOCK SIZE      the same, at a multiple of 16
  free BLOCK                ends the block: `done`
  write BLOCK OFFSET HEX    puts bytes, two hexadecimal digits each, into the
                            block: `done`
  read BLOCK OFFSET LENGTH  bytes of the block: `bytes` and their digits
  map ADDRESS PAGES RIGHTS  maps pages of value 0 for the user. RIGHTS is r,
                            then w or -, u or -, x or -: `done`
  unmap ADDRESS PAGES       unmaps the pages of one map: `done`
  probe ADDRESS ACCESS [user]
                            looks at a byte as an access does: read, write or
                            fetch, by the user if the word is there. `byte` and
                            its digits, or `fault` and the page fault's code
  trim PAD                  gives memory back that no block needs, and keeps
                            more than PAD bytes free at the heap's end:
                            `trimmed true` if some went back, else
                            `trimmed false`
  rate N                    from then on looks for idle memory to give back each
                            time that N large chunks were freed: `done`
  granularity N             has the heap ask for multiples of N bytes, a power
                            of two of at least 16: `accepted true`, or
                            `accepted false`, and then nothing changes
  reset                     ends all blocks and gives all memory of the heap
                            back: `released` and how many bytes. No number is
                            given again
  extents                   the extents of the heap: `extents` and each as
                            KIND:ADDRESS+SIZE

If the heap's regions changed, a second line has `heap` and each region as
ADDRESS+PAGES, or `heap none`. If the call mapped large pages, a line `large`
follows with the address of each slot of 2 MiB that it mapped as one.

A refusal is `refused` and one of bad-align, too-large, no-space, no-frames,
unknown-block, out-of-block, bad-range, heap-region, overlap, unknown-region and
not-canonical, and changes nothing.

A number is decimal, or 0x and hexadecimal digits, and below 2^64. Words stand
between single spaces. Any other line, and one of more than 8192 bytes, is
answered `bad line`.

At the end each region has a line, `region ADDRESS+PAGES heap`, or if the user's
`region ADDRESS+PAGES user RIGHTS`. The last is `frames FREE tables TABLES`.
";

const PAGES: Pages = Pages {
    help: HELP,
    version: VERSION,
    lines: Some(LINES),
};

fn main(rt: HostRuntime) -> ExitCode {
    let stderr = rt.stderr();
    program::<Heap, _, _, _>(
        rt.alloc(),
        &PAGES,
        program_arguments(&rt),
        &mut ReaderSource::new(rt.reader()),
        &mut WriterSink::new(io::writer(&rt)),
        &mut WriterSink::new(io::writer(&stderr)),
    )
}
