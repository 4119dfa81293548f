// What a program does.
ghost use Rattle.std.specs.Prelude.{◌≡◌, ◌≤◌, List, ℕ, String};
ghost use Rattle.std.specs.declared.alloc.Global.{Global};
ghost use Rattle.heap_program.specs.Streams.{Streams, streams};

use heap_program::{Sink, Source};
use std::alloc::Global;

/// What a program does with words that ask for no page.
pub trait Command {
    /// What comes of the words: over a source and a sink, each as it was and as it then is, with the status.
    ghost comes: { (S K : Type 0) → Streams S K → List (String Global) → S → S → K → K → ℕ → Type 0 };

    /// Does what the words say, and answers the status. At statuses 1 to 4 nothing was read or written.
    fn run<S: Source, K: Sink>(alloc: Global, words: &[String], source: &mut S, sink: &mut K) -> u8
        ensures few { result ≤ 8 }
        ensures untouched { 1 ≤ result → result ≤ 4 → (source.new ≡ source.old) × (sink.new ≡ sink.old) }
        ensures comes { comes S K (streams S.left S.faults K.taken K.flushed K.faults) words.now source.old source.new sink.old sink.new result };
}
