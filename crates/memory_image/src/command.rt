// The command of the program.
ghost use Rattle.std.specs.Prelude.{◌≡◌, ◌≢◌, ◌≤◌, ◌<◌, ◌+◌, ◌^◌, ◌↔◌, [], length, unwrap_or, map, string_bytes, IfSome, IfOk, IsErrOf};
ghost use Rattle.heap_program.specs.Faults.{HasRisen};
ghost use Rattle.heap_program.specs.declared.run.Stop.TheVariants.{ReadFault, WriteFault, TooLong};
ghost use Rattle.memory_image.specs.Done.{IsImageDone};
ghost use Rattle.memory_image.specs.Imaged.{IsImaged, Images, ImagesOf};

use crate::image::push_image;
use crate::imaged::{Imaged, ended_early};
use crate::tracing::Traced;
use command_line::Command;
use heap_program::{
    Session, Sink, Source, Stop, config_of, read_all, refusal_status, status_of, write_out,
};
use kernel_heap::{Config, Machine};
use std::alloc::Global;

// Serves the source on a machine, and writes its image after the answers.
fn image_run<S: Source, K: Sink>(
    alloc: Global,
    machine: Machine,
    source: &mut S,
    sink: &mut K,
) -> Result<Machine, Stop>
    ensures imaged { IfOk result (λ last.
        IsImaged machine (S.left source.old) (S.left source.new) (K.taken sink.old) (K.taken sink.new) (K.flushed sink.new) last) }
    ensures too_long { IfSome (S.left source.old) (λ input.
        IsErrOf result TooLong ↔ (2 ^ 30 + length (unwrap_or (S.left source.new) []) < length input)) }
    ensures read_cause { IsErrOf result ReadFault → HasRisen (S.faults source.old) (S.faults source.new) }
    ensures write_cause { IsErrOf result WriteFault → HasRisen (K.faults sink.old) (K.faults sink.new) }
{
    let mut session = Session::new(alloc, Traced { machine });
    read_all(&mut session, source, sink)?;
    session.end()?;
    push_image(alloc, &mut session.output, &session.responder.machine)?;
    write_out(&mut session.output, sink)?;
    let Session { responder, .. } = session;
    let Traced { machine } = responder;
    Ok(machine)
}

// Serves the source on a new machine of the configuration.
fn image_new<S: Source, K: Sink>(
    alloc: Global,
    config: &Config,
    source: &mut S,
    sink: &mut K,
) -> Imaged
    ensures statuses { (result.status ≢ 1) × (result.status ≤ 8) }
    ensures images { ImagesOf config.now (S.left source.old) (S.left source.new) (K.taken sink.old) (K.taken sink.new) (K.flushed sink.new)
        (S.faults source.old) (S.faults source.new) (K.faults sink.old) (K.faults sink.new) result }
    ensures untouched { 1 ≤ result.status → result.status ≤ 4 → (source.new ≡ source.old) × (sink.new ≡ sink.old) }
{
    let machine = match Machine::new(alloc, config) {
        Ok(machine) => machine,
        Err(error) => {
            return ended_early(refusal_status(error));
        }
    };
    match image_run(alloc, machine, source, sink) {
        Ok(machine) => Imaged {
            status: 0,
            machine: Some(machine),
        },
        Err(stop) => ended_early(status_of(stop)),
    }
}

/// Serves the lines of the source as `heap run` does, on a machine of the configuration that the words are; without
/// words the default one. After the answer to a probe stands a line with CR2 and the place at which its walk arrives.
/// After all answers stands the image of the machine: the registers, a line for each region, how many frames the memory
/// has, and each word of it that is not 0, by address.
///
/// The statuses are those of `heap run`. With statuses 1 to 4 nothing was read or written.
pub fn image_main<S: Source, K: Sink>(
    alloc: Global,
    words: &[String],
    source: &mut S,
    sink: &mut K,
) -> Imaged
    ensures images { Images (map string_bytes words.now) (S.left source.old) (S.left source.new) (K.taken sink.old) (K.taken sink.new) (K.flushed sink.new)
        (S.faults source.old) (S.faults source.new) (K.faults sink.old) (K.faults sink.new) result }
    ensures untouched { 1 ≤ result.status → result.status ≤ 4 → (source.new ≡ source.old) × (sink.new ≡ sink.old) }
{
    match config_of(words) {
        Some(config) => image_new(alloc, &config, source, sink),
        None => ended_early(1),
    }
}

/// The command of the program: [`image_main`].
pub struct MemoryImage;

impl Command for MemoryImage {
    ghost comes = { λ S K. IsImageDone };

    fn run<S: Source, K: Sink>(
        alloc: Global,
        words: &[String],
        source: &mut S,
        sink: &mut K,
    ) -> u8 {
        image_main(alloc, words, source, sink).status
    }
}
