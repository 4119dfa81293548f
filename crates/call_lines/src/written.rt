// How rights and causes are written.
ghost use Rattle.std.specs.Prelude.{◌≡◌, ◌++◌, OnOk, string_bytes};
ghost use Rattle.call_lines.specs.Written.{right_word, rights_word, refusal_word};

use machine_model::{Refusal, Rights};
use std::alloc::AllocError;

// A letter if a right is granted, else a dash.
fn right_word(granted: bool, letter: &'static str) -> &'static str
    ensures { result.now ≡ right_word granted letter.now }
{
    if granted { letter } else { "-" }
}

/// Puts rights at the end: `r`, and then `w`, `u` and `x`, or `-` in the place of each.
pub fn push_rights(out: &mut String, rights: Rights) -> Result<(), AllocError>
    ensures { OnOk result (string_bytes out.new ≡ string_bytes out.old ++ rights_word rights) }
{
    let write = right_word(rights.write, "w");
    let user = right_word(rights.user, "u");
    let fetch = right_word(rights.fetch, "x");
    write!(out, "r{write}{user}{fetch}")
}

/// The word for the cause of a refusal.
pub fn refusal_word(why: Refusal) -> &'static str
    ensures { result.now ≡ refusal_word why }
{
    match why {
        Refusal::BadAlign => "bad-align",
        Refusal::TooLarge => "too-large",
        Refusal::NoSpace => "no-space",
        Refusal::NoFrames => "no-frames",
        Refusal::UnknownBlock => "unknown-block",
        Refusal::OutOfBlock => "out-of-block",
        Refusal::BadRange => "bad-range",
        Refusal::HeapRegion => "heap-region",
        Refusal::Overlap => "overlap",
        Refusal::UnknownRegion => "unknown-region",
        Refusal::NotCanonical => "not-canonical",
    }
}
