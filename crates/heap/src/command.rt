// The command of the program.
ghost use Rattle.heap.specs.Done.{IsDone};

use command_line::Command;
use heap_program::{Sink, Source, heap_main};
use std::alloc::Global;

/// The command `heap`: [`heap_main`].
pub struct Heap;

impl Command for Heap {
    ghost comes = { λ S K. IsDone };

    fn run<S: Source, K: Sink>(
        alloc: Global,
        words: &[String],
        source: &mut S,
        sink: &mut K,
    ) -> u8 {
        heap_main(alloc, words, source, sink).status
    }
}
