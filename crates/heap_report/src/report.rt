// The report: the figures of a run.
ghost use Rattle.std.specs.Prelude.{◌≡◌, ◌≤◌, ⊤, map, string_bytes};
ghost use Rattle.heap_report.specs.Ran.{HasReported};
ghost use Rattle.heap_report.specs.Report.{report_of};
ghost use Rattle.heap_report.specs.Telling.{Tells};

use crate::reported::Reported;
use crate::tell::{Tell, tell_main};
use command_line::Command;
use heap_program::{Sink, Source};
use kernel_heap::{Answer, Call, Extent, Machine};
use run_figures::push_figures;
use std::alloc::{AllocError, Global};

/// The figures of a run as its text, a line each.
#[derive(Drop)]
pub struct Figures;

impl Tell for Figures {
    ghost keeps = { λ figures calls answers. ⊤ };

    ghost text = { report_of };

    fn new(_alloc: Global) -> Figures {
        Figures
    }

    fn note(&mut self, _call: &Call, _answer: &Answer) -> Result<(), AllocError> {
        Ok(())
    }

    fn push(
        self,
        _alloc: Global,
        output: &mut String,
        _machine: &Machine,
        live: u128,
        peak: u128,
        extents: &[Extent],
    ) -> Result<(), AllocError> {
        push_figures(output, "", live, peak, extents, "\n")
    }
}

/// Replays the calls of the source, asks for the extents, and writes the figures of the end of that run
/// (`run_figures::push_figures`). Words, lines and statuses are those of [`tell_main`].
pub fn report_main<S: Source, K: Sink>(
    alloc: Global,
    words: &[String],
    source: &mut S,
    sink: &mut K,
) -> Reported
    ensures tells { Tells report_of (map string_bytes words.now) (S.left source.old) (S.left source.new) (K.taken sink.old) (K.taken sink.new) (K.flushed sink.new)
        (S.faults source.old) (S.faults source.new) (K.faults sink.old) (K.faults sink.new) result }
    ensures untouched { 1 ≤ result.status → result.status ≤ 4 → (source.new ≡ source.old) × (sink.new ≡ sink.old) }
{
    tell_main::<Figures, S, K>(alloc, words, source, sink)
}

impl Command for Figures {
    ghost comes = { λ S K. HasReported report_of };

    fn run<S: Source, K: Sink>(
        alloc: Global,
        words: &[String],
        source: &mut S,
        sink: &mut K,
    ) -> u8 {
        report_main(alloc, words, source, sink).status
    }
}
