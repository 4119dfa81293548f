// The picture of a run.
ghost use Rattle.std.specs.Prelude.{◌≡◌, ◌≤◌, ◌<◌, ◌++◌, map, string_bytes, OnOk};
ghost use Rattle.std.specs.Str.{bytes_eq};
ghost use Rattle.dlmalloc_chunks.specs.Tiling.{AreInSegments};
ghost use Rattle.machine_model.specs.State.{State};
ghost use Rattle.heap_program.specs.Progress.{IsAt};
ghost use Rattle.heap_recorder.specs.Run.{IsRecordOf};
ghost use Rattle.heap_report.specs.Telling.{Tells};
ghost use Rattle.heap_picture.specs.Drawn.{HasDrawn, run_words, drawing_for};
ghost use Rattle.heap_picture.specs.Picture.{map_document, picture_of, svg_text, head_text};
ghost use Rattle.heap_picture.specs.Style.{style};

use crate::blocks::push_named_map;
use crate::regions::push_regions;
use crate::style::style;
use crate::tables::Tables;
use crate::timing::Timing;
use command_line::Command;
use heap_history::History;
use heap_map::lines_number;
use heap_program::{Sink, Source};
use heap_recorder::Recorder;
use heap_report::{Reported, Tell, tell_main};
use kernel_heap::{Answer, Call, Extent, Machine};
use std::alloc::{AllocError, Global};

#[tactic(auto, unfolding(crate::specs::Picture::svg_text))]
fn push_svg(out: &mut String, height: u128) -> Result<(), AllocError>
    ensures { OnOk result (string_bytes out.new ≡ string_bytes out.old ++ svg_text height) }
{
    writeln!(
        out,
        "<svg xmlns=\"http://www.w3.org/2000/svg\" width=\"1304\" height=\"{height}\" viewBox=\"0 0 1304 {height}\" role=\"img\">"
    )
}

/// Puts the head of a document of this height at the end.
#[tactic(auto, unfolding(crate::specs::Picture::head_text))]
pub fn push_head(out: &mut String, height: u128) -> Result<(), AllocError>
    ensures { OnOk result (string_bytes out.new ≡ string_bytes out.old ++ head_text style height) }
{
    push_svg(out, height)?;
    out.push_str(style())
}

// Puts the map at the end of the heap that a run leaves, with the regions of its last machine.
fn push_drawn(
    alloc: Global,
    out: &mut String,
    machine: &Machine,
    history: &History,
    live: u128,
    peak: u128,
    extents: &[Extent],
) -> Result<(), AllocError>
    requires { AreInSegments extents.now }
    ensures { OnOk result ((s : State) → IsAt machine.now s → string_bytes out.new ≡ string_bytes out.old ++ map_document style s live peak extents.now history.now) }
{
    let lines = lines_number(alloc, extents)?;
    let below = 194 + 23 * u128::from(lines);
    push_head(out, below + 210)?;
    push_named_map(alloc, out, history, live, peak, extents)?;
    push_regions(alloc, out, below, machine)?;
    out.push_str("</svg>\n")
}

/// The picture of a run as its text. The run is recorded as it is replayed, for the numbers of its live blocks.
#[derive(Drop)]
pub struct Picture {
    recorder: Recorder,
}

impl Tell for Picture {
    ghost keeps = { λ picture calls answers. IsRecordOf picture.recorder calls answers };

    ghost text = { picture_of style };

    fn new(alloc: Global) -> Picture {
        Picture {
            recorder: Recorder::new(alloc),
        }
    }

    fn note(&mut self, call: &Call, answer: &Answer) -> Result<(), AllocError> {
        self.recorder.note(call, answer)
    }

    fn push(
        self,
        alloc: Global,
        output: &mut String,
        machine: &Machine,
        live: u128,
        peak: u128,
        extents: &[Extent],
    ) -> Result<(), AllocError> {
        let Picture { recorder } = self;
        let history = recorder.history()?;
        push_drawn(alloc, output, machine, &history, live, peak, extents)
    }
}

// Whether a word is this name of a drawing.
fn is_name(word: &str, name: &str) -> bool
    ensures { result ≡ bytes_eq word.now name.now }
{
    word.as_bytes() == name.as_bytes()
}

/// Replays the calls of the source, asks for the extents, and writes a drawing of that run, one SVG document. The words are
/// those of [`tell_main`]. `map`, `tables` or `time` may stand before them, for the heap at the end, its page tables then, or
/// the heap over the whole run; the heap at the end is drawn if none does. Lines and statuses are its own.
pub fn picture_main<S: Source, K: Sink>(
    alloc: Global,
    words: &[String],
    source: &mut S,
    sink: &mut K,
) -> Reported
    ensures tells { Tells (drawing_for style (map string_bytes words.now)) (run_words (map string_bytes words.now)) (S.left source.old) (S.left source.new) (K.taken sink.old) (K.taken sink.new) (K.flushed sink.new)
        (S.faults source.old) (S.faults source.new) (K.faults sink.old) (K.faults sink.new) result }
    ensures untouched { 1 ≤ result.status → result.status ≤ 4 → (source.new ≡ source.old) × (sink.new ≡ sink.old) }
{
    match words.split_first() {
        Some((word, others)) => {
            if is_name(word.as_str(), "map") {
                tell_main::<Picture, S, K>(alloc, others, source, sink)
            } else if is_name(word.as_str(), "tables") {
                tell_main::<Tables, S, K>(alloc, others, source, sink)
            } else if is_name(word.as_str(), "time") {
                tell_main::<Timing, S, K>(alloc, others, source, sink)
            } else {
                tell_main::<Picture, S, K>(alloc, words, source, sink)
            }
        }
        None => tell_main::<Picture, S, K>(alloc, words, source, sink),
    }
}

impl Command for Picture {
    ghost comes = { λ S K. HasDrawn (drawing_for style) };

    fn run<S: Source, K: Sink>(
        alloc: Global,
        words: &[String],
        source: &mut S,
        sink: &mut K,
    ) -> u8 {
        picture_main(alloc, words, source, sink).status
    }
}
