// What the words of the program ask for.
ghost use Rattle.std.specs.Prelude.{◌≡◌, map, string_bytes, IfSome};
ghost use Rattle.heap_program.specs.Command.{frames_argument, config_from, config_of, generate_from, generate_of, command_of, HasFewCalls};
ghost use Rattle.call_lines.specs.Number.{number_of};

use call_lines::number;
use kernel_heap::Config;

/// The configuration of a command that names none.
const DEFAULT_CONFIG: Config = Config {
    base: 0x40_0000,
    pages: 1024,
    granularity: 65536,
    frames: 1024,
    rate: 4095,
};

/// The greatest number of calls that are drawn.
const MOST_CALLS: u64 = 1_000_000;

/// What the words of the program ask for.
#[derive(Clone, Copy, Debug, PartialEq, Eq)]
pub enum Command {
    /// Answers each line of the source, with a new machine of this configuration.
    Run {
        config: Config,
    },
    /// Draws `count` calls from the seed, for a new machine of this configuration.
    Generate {
        seed: u64,
        count: u64,
        config: Config,
    },
}

fn frames_of(word: &str) -> Option<u32>
    ensures { result ≡ frames_argument word.now }
{
    u32::try_from(number(word.as_bytes())?).ok()
}

fn config_from(
    base: &str,
    pages: &str,
    granularity: &str,
    frames: &str,
    rate: &str,
) -> Option<Config>
    ensures { result ≡ config_from (number_of base.now) (number_of pages.now) (number_of granularity.now) (frames_argument frames.now) (number_of rate.now) }
{
    Some(Config {
        base: number(base.as_bytes())?,
        pages: number(pages.as_bytes())?,
        granularity: number(granularity.as_bytes())?,
        frames: frames_of(frames)?,
        rate: number(rate.as_bytes())?,
    })
}

/// The configuration that these words are: `BASE PAGES GRANULARITY FRAMES RATE`, or the default one if there are none.
pub fn config_of(words: &[String]) -> Option<Config>
    ensures { result ≡ config_of (map string_bytes words.now) }
{
    match words {
        [] => Some(DEFAULT_CONFIG),
        [base, pages, granularity, frames, rate] => {
            config_from(
                base.as_str(),
                pages.as_str(),
                granularity.as_str(),
                frames.as_str(),
                rate.as_str(),
            )
        }
        _ => None,
    }
}

fn generate_from(seed: &str, count: &str, words: &[String]) -> Option<Command>
    ensures value { result ≡ generate_from (number_of seed.now) (number_of count.now) (config_of (map string_bytes words.now)) }
    ensures few { IfSome result HasFewCalls }
{
    let seed = number(seed.as_bytes())?;
    let count = number(count.as_bytes())?;
    let config = config_of(words)?;
    if count > MOST_CALLS {
        return None;
    }
    Some(Command::Generate {
        seed,
        count,
        config,
    })
}

fn generate_of(words: &[String]) -> Option<Command>
    ensures value { result ≡ generate_of (map string_bytes words.now) }
    ensures few { IfSome result HasFewCalls }
{
    let (seed, words) = words.split_first()?;
    let (count, words) = words.split_first()?;
    generate_from(seed.as_str(), count.as_str(), words)
}

/// The command that these words are, if they are one.
pub fn command_of(words: &[String]) -> Option<Command>
    ensures value { result ≡ command_of words.now }
    ensures few { IfSome result HasFewCalls }
{
    let (name, arguments) = words.split_first()?;
    if name.as_bytes() == b"run".as_slice() {
        Some(Command::Run {
            config: config_of(arguments)?,
        })
    } else if name.as_bytes() == b"gen".as_slice() {
        generate_of(arguments)
    } else {
        None
    }
}
