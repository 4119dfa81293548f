// What responds to the lines, the line that has begun and the text that is not yet written.
ghost use Rattle.std.specs.Prelude.{◌≡◌, ◌∷◌, [], ◌++◌, ◌<◌, ◌≤◌, IfOk, OnOk, length, slice_index, take, string_bytes};
ghost use Rattle.machine_model.specs.State.{State};
ghost use Rattle.call_lines.specs.Grammar.{item_of};
ghost use Rattle.heap_program.specs.Lines.{items_of, IsOneLine};
ghost use Rattle.heap_program.specs.Progress.{IsAt};
ghost use Rattle.heap_program.specs.Advanced.{Advanced, IsFinished};
ghost use Rattle.heap_program.specs.Responses.{HasResponded};

use crate::line::Line;
use crate::respond::Respond;
use crate::text::push_end;
use call_lines::{first_of, parse_call};
use kernel_heap::Machine;
use std::alloc::{AllocError, Global};

/// A run that goes on.
#[derive(Drop)]
pub struct Session<R> {
    pub alloc: Global,
    /// What responds to the lines: the machine itself, or what keeps more of its answers.
    pub responder: R,
    /// The line that has begun.
    pub line: Line,
    /// The text that is not yet written.
    pub output: String,
}

// How many bytes come before the first line feed.
fn line_length(bytes: &[u8]) -> usize
    ensures few { result ≤ length bytes.now }
    ensures line { IsOneLine (take result bytes.now) }
    ensures feed { result < length bytes.now → slice_index bytes.now result ≡ 10 }
{
    match first_of(b'\n', bytes) {
        Some(feed) => feed,
        None => bytes.len(),
    }
}

impl<R: Respond + Drop> Session<R> {
    /// A session of which nothing came yet.
    pub fn new(alloc: Global, responder: R) -> Session<R>
        ensures responder { result.responder ≡ responder }
        ensures line { result.line ≡ [] }
        ensures output { string_bytes result.output ≡ [] }
    {
        Session {
            alloc,
            responder,
            line: Line::new(alloc),
            output: String::new(alloc),
        }
    }

    // Responds to a whole line, of which no byte was kept, at its line feed.
    fn whole_line(&mut self, line: &[u8]) -> Result<(), AllocError>
        requires one_line { IsOneLine line.now }
        requires none_begun { self.old.line ≡ [] }
        ensures { OnOk result (Advanced R.responds self.old self.new (line.now ++ 10 ∷ [])) }
    {
        let item = parse_call(self.alloc, line)?;
        self.responder.respond(item, &mut self.output)
    }

    // Responds to the line that has begun, which is then no other.
    fn respond_to_line(&mut self) -> Result<(), AllocError>
        ensures line { OnOk result (self.new.line ≡ self.old.line) }
        ensures one_line { IsOneLine self.old.line }
        ensures responded { OnOk result (HasResponded R.responds self.old.responder (item_of self.old.line ∷ []) (string_bytes self.old.output) (string_bytes self.new.output) self.new.responder) }
    {
        let item = parse_call(self.alloc, self.line.bytes())?;
        self.responder.respond(item, &mut self.output)
    }

    // Responds to the line that has begun, at its line feed.
    fn end_line(&mut self) -> Result<(), AllocError>
        ensures { OnOk result (Advanced R.responds self.old self.new (10 ∷ [])) }
    {
        self.respond_to_line()?;
        self.line.clear();
        Ok(())
    }

    // Takes bytes of the line that has begun.
    fn go_on(&mut self, bytes: &[u8]) -> Result<(), AllocError>
        requires { IsOneLine bytes.now }
        ensures { OnOk result (Advanced R.responds self.old self.new bytes.now) }
    {
        self.line.extend(bytes)
    }

    // Takes the last bytes of a line, and its line feed.
    fn end_at(&mut self, bytes: &[u8]) -> Result<(), AllocError>
        requires { IsOneLine bytes.now }
        ensures { OnOk result (Advanced R.responds self.old self.new (bytes.now ++ 10 ∷ [])) }
    {
        if self.line.bytes().is_empty() {
            return self.whole_line(bytes);
        }
        self.go_on(bytes)?;
        self.end_line()
    }

    // Takes bytes to the end of the first line that ends among them, or all, and says how many.
    fn feed_line(&mut self, bytes: &[u8]) -> Result<usize, AllocError>
        requires some { 0 < length bytes.now }
        ensures few { IfOk result (λ count. count ≤ length bytes.now) }
        ensures more { IfOk result (λ count. 0 < count) }
        ensures fed { IfOk result (λ count. Advanced R.responds self.old self.new (take count bytes.now)) }
    {
        let length = line_length(bytes);
        if length == bytes.len() {
            self.go_on(&bytes[..length])?;
            return Ok(length);
        }
        self.end_at(&bytes[..length])?;
        Ok(length + 1)
    }

    /// Responds to the lines that end in the piece.
    pub fn feed(&mut self, piece: &[u8]) -> Result<(), AllocError>
        ensures one_line { OnOk result (IsOneLine self.new.line) }
        ensures fed { OnOk result (Advanced R.responds self.old self.new piece.now) }
    {
        let mut done = 0;
        while done < piece.len() {
            done += self.feed_line(&piece[done..])?;
        }
        // No line feed is among the bytes of a line.
        let _begun = self.line.bytes();
        Ok(())
    }

    /// Responds to a last line that has no line feed.
    pub fn end(&mut self) -> Result<(), AllocError>
        ensures { OnOk result (HasResponded R.responds self.old.responder (items_of self.old.line) (string_bytes self.old.output) (string_bytes self.new.output) self.new.responder) }
    {
        if self.line.bytes().is_empty() {
            return Ok(());
        }
        self.respond_to_line()
    }
}

impl Session<Machine> {
    /// Answers a last line that has no line feed, and puts the end text after it.
    pub fn finish(&mut self) -> Result<(), AllocError>
        ensures { OnOk result ((s : State) → IsAt self.old.responder s → IsFinished s self.old self.new) }
    {
        self.end()?;
        push_end(self.alloc, &mut self.output, &self.responder)
    }
}
