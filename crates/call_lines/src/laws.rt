// Laws of the definitions, which no call needs.
ghost use Rattle.call_lines.specs.Asked.{AsksForNoOther, ReadsBack, IsShort};

/// The line of a call asks for that call: of each call that any line asks for, [`crate::push_line`] writes a line that
/// [`crate::parse_call`] reads as that very call, if the line has at most 8192 bytes. It has, unless the call writes
/// more than 4072 bytes: the numbers of a `write` may be longer in decimal than they were.
pub fn calls_are_read_from_their_lines()
    ensures asked { AsksForNoOther }
    ensures read { ReadsBack }
    ensures short { IsShort }
{}
