// The command of the program.
ghost use Rattle.std.specs.Prelude.{◌≡◌, ℕ, Some, None, ◌↔◌, IsSome, IfSome};
ghost use Rattle.machine_model.specs.declared.config.Config.{Config};
ghost use Rattle.heap_program.specs.declared.arguments.Command.TheVariants.{Run, Generate};
ghost use Rattle.heap_program.specs.Command.{command_of};
ghost use Rattle.heap_program.specs.Done.{IsRunDone, IsGenerationDone, IsStatusOf};
ghost use Rattle.heap_program.specs.Stepped.{IsAnsweredByNew, AreSteps};
ghost use Rattle.heap_program.specs.Streams.{streams};

use crate::arguments::{Command, command_of};
use crate::ended::{Ended, ended_early, refusal_status, status_of};
use crate::generate::generate_new;
use crate::run::run;
use crate::sink::Sink;
use crate::source::Source;
use kernel_heap::{Config, Machine};
use std::alloc::Global;

// Runs a new machine of the configuration over the source.
fn run_new<S: Source, K: Sink>(
    alloc: Global,
    config: &Config,
    source: &mut S,
    sink: &mut K,
) -> Ended
    ensures machine { IsSome result.machine ↔ (result.status ≡ 0) }
    ensures run { IsRunDone (streams S.left S.faults K.taken K.flushed K.faults) config.now source.old source.new sink.old sink.new result }
    ensures status { IsStatusOf (streams S.left S.faults K.taken K.flushed K.faults) (Some (Run config.now)) source.old source.new sink.old sink.new result.status }
    ensures steps { IfSome result.machine (IsAnsweredByNew config.now (S.left source.old) (S.left source.new) (K.taken sink.old) (K.taken sink.new) (K.flushed sink.new)) }
{
    let machine = match Machine::new(alloc, config) {
        Ok(machine) => machine,
        Err(error) => {
            return ended_early(refusal_status(error));
        }
    };
    match run(alloc, machine, source, sink) {
        Ok(machine) => Ended {
            status: 0,
            machine: Some(machine),
        },
        Err(stop) => ended_early(status_of(stop)),
    }
}

/// Runs the command that the words give: `run` or `gen SEED COUNT`, and then `BASE PAGES GRANULARITY FRAMES RATE` if
/// the configuration is not to be the default one. A number is written as in a line.
///
/// `run` answers each line of the source on the sink, in order, and writes the end text after the answers. The answers to
/// a piece of the input are written and flushed before more of it is asked for.
///
/// `gen` reads nothing. It draws COUNT calls from SEED and answers them, keeps no answer, and writes how many calls
/// there were, how many numbers they gave and how many were refused, and then the end text.
///
/// | status | comes |
/// |---|---|
/// | 0 | the input was read to its end, and all was written and flushed |
/// | 1 | exactly if the words are no command, FRAMES is 2^32 or more, or COUNT exceeds 1,000,000 |
/// | 2 | exactly if the window is empty, begins off a page, does not lie wholly in one canonical half, or holds the first or the last page of the address space |
/// | 3 | exactly if it is not that, and the granularity is no power of two of at least 16 |
/// | 4 | exactly if it is neither, and there are 0 frames |
/// | 5 | the host had too little memory, here or in the sink |
/// | 6 | only if the source counted a fault |
/// | 7 | only if the sink counted a fault |
/// | 8 | exactly if more than 2^30 bytes were taken |
///
/// Statuses 1 to 4 come before any memory is taken, and before anything is read or written.
pub fn heap_main<S: Source, K: Sink>(
    alloc: Global,
    words: &[String],
    source: &mut S,
    sink: &mut K,
) -> Ended
    // At status 0 the machine is handed out.
    ensures machine { IsSome result.machine ↔ (result.status ≡ 0) }

    // At status 0 `run` has read the source to its end and written one answer a line, each allowed. By a processor's own walk
    // over the raw page tables, each live block lies wholly in present writable pages that hold the bytes last written.
    ensures run { (config : Config) → command_of words.now ≡ Some (Run config) →
        IsRunDone (streams S.left S.faults K.taken K.flushed K.faults) config source.old source.new sink.old sink.new result }

    // At status 0 `gen` has answered the calls that it drew, each as is allowed, and written the counts and the end text.
    ensures generated { (seed count : ℕ) (config : Config) → command_of words.now ≡ Some (Generate seed count config) →
        IsGenerationDone (streams S.left S.faults K.taken K.flushed K.faults) seed count config source.old source.new sink.old sink.new result }

    // At status 0 the answers of both are steps of one new machine, so all that a step promises holds of each.
    ensures steps { AreSteps (streams S.left S.faults K.taken K.flushed K.faults) (command_of words.now) source.old source.new sink.old sink.new result.machine }

    // When each status comes, and what was not touched then.
    ensures status { IsStatusOf (streams S.left S.faults K.taken K.flushed K.faults) (command_of words.now) source.old source.new sink.old sink.new result.status }
{
    match command_of(words) {
        Some(Command::Run { config }) => run_new(alloc, &config, source, sink),
        Some(
            Command::Generate {
                seed,
                count,
                config,
            },
        ) => generate_new(alloc, &config, seed, count, sink),
        None => ended_early(1),
    }
}
