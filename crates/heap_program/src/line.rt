// The line that has begun.
use call_lines::LONGEST_LINE;
use std::alloc::{AllocError, Global};
use std::marker::Model;

/// The bytes of a line whose end has not come. Of a line past the limit, one byte more than that.
#[derive(Drop)]
pub struct Line {
    bytes: Vec<u8>,
}

impl Model for Line {
    ghost use Rattle.std.specs.Prelude.{List, ℕ};
    ghost use Rattle.heap_program.specs.Lines.{IsOneLine};

    ghost Value = { List ℕ };

    ghost view = { λ l. l.bytes.items };

    ghost invariant = { λ l. IsOneLine l.bytes.items };
}

impl Line {
    ghost use Rattle.std.specs.Prelude.{◌≡◌, ◌++◌, [], List, ℕ, OnOk};
    ghost use Rattle.heap_program.specs.Lines.{IsOneLine, items_of};

    /// A line of which no byte has come.
    pub fn new(alloc: Global) -> Line
        ensures { result ≡ [] }
    {
        Line {
            bytes: Vec::new(alloc),
        }
    }

    /// The bytes so far.
    pub fn bytes(&self) -> &[u8]
        ensures value { result.now ≡ self.now }
        ensures one_line { IsOneLine self.now }
    {
        &self.bytes
    }

    /// Begins the next line.
    pub fn clear(&mut self)
        ensures { self.new ≡ [] }
    {
        self.bytes.clear();
    }

    /// Bytes more of the line. What the input asks for stays the same, whatever comes after them.
    pub fn extend(&mut self, bytes: &[u8]) -> Result<(), AllocError>
        requires { IsOneLine bytes.now }
        ensures { OnOk result ((rest : List ℕ) → items_of (self.old ++ (bytes.now ++ rest)) ≡ items_of (self.new ++ rest)) }
    {
        // One byte past the limit tells that the line is too long.
        let left = (LONGEST_LINE + 1).saturating_sub(self.bytes.len());
        let kept = bytes.len().min(left);
        self.bytes.extend_from_slice(&bytes[..kept])?;
        Ok(())
    }
}
