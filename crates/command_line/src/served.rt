// What a program does with its words, and how it ends.
ghost use Rattle.std.specs.Prelude.{◌≡◌, ◌<◌, ◌≤◌, IfOk, IfErr, drop};
ghost use Rattle.std.specs.Process.{exit_status};
ghost use Rattle.heap_program.specs.Faults.{HasRisen};
ghost use Rattle.command_line.specs.Process.{IsStatusTold};
ghost use Rattle.command_line.specs.Served.{AreWordsServed, IsUnread};
ghost use Rattle.heap_program.specs.Streams.{streams};

use crate::command::Command;
use crate::pages::{Pages, page_of};
use crate::process::{exit_with, show, words_of, words_status};
use heap_program::{Sink, Source};
use std::alloc::Global;
use std::io;
use std::process::ExitCode;

/// Shows the page that the words ask for, or runs the command, and answers the status.
fn serve<C: Command, S: Source, K: Sink>(
    alloc: Global,
    pages: &Pages,
    words: &[String],
    source: &mut S,
    sink: &mut K,
) -> u8
    ensures { AreWordsServed C.comes (streams S.left S.faults K.taken K.flushed K.faults) K.needs_memory pages.now words.now source.old source.new sink.old sink.new result }
{
    match page_of(pages, words) {
        Some(text) => show(sink, text),
        None => C::run(alloc, words, source, sink),
    }
}

/// A program, but for where its arguments come from and its bytes go. Of the arguments the first is the program's own name,
/// and the others are its words.
pub fn program<C: Command, S: Source, K: Sink, E: Sink>(
    alloc: Global,
    pages: &Pages,
    arguments: io::Result<Vec<String>>,
    source: &mut S,
    sink: &mut K,
    errors: &mut E,
) -> ExitCode
    ensures served { IfOk arguments (λ all.
        AreWordsServed C.comes (streams S.left S.faults K.taken K.flushed K.faults) K.needs_memory pages.now (drop 1 all.items) source.old source.new sink.old sink.new (exit_status result)) }
    ensures unread { IfErr arguments (λ error. IsUnread error source.old source.new sink.old sink.new (exit_status result)) }

    // What a status other than 0 means is told where errors go.
    ensures few { exit_status result ≤ 8 }
    ensures silent { exit_status result ≡ 0 → errors.new ≡ errors.old }
    ensures told { 0 < exit_status result → ((e : E) → E.needs_memory e → ⊥) → ¬ (HasRisen (E.faults errors.old) (E.faults errors.new)) →
        IsStatusTold (E.taken errors.old) (E.taken errors.new) (E.flushed errors.new) (exit_status result) }
{
    let status = match &arguments {
        Ok(all) => serve::<C, S, K>(alloc, pages, words_of(all), source, sink),
        Err(error) => words_status(error),
    };
    exit_with(errors, status)
}
