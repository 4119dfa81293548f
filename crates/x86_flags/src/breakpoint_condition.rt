//! What a breakpoint waits for.

ghost use Rattle.std.specs.Prelude.{◌≡◌, ◌≤◌, ◌↔◌, IsNone, IfSome};
ghost use Rattle.x86_flags.specs.BreakpointCondition.{condition_bits};

/// The access that a breakpoint waits for.
///
/// Source: AMD64 manual, volume 2, section 13.1.1.
#[derive(Clone, Copy, PartialEq, Eq, Debug)]
pub enum BreakpointCondition {
    /// An instruction at the address is run.
    InstructionExecution = 0b00,
    /// Data at the address is written.
    DataWrites = 0b01,
    /// The port is read or written.
    IoReadsWrites = 0b10,
    /// Data at the address is read or written, but not fetched as an instruction.
    DataReadsWrites = 0b11,
}

impl BreakpointCondition {
    /// The condition of two bits of DR7, or none from 4 on.
    pub fn from_bits(bits: u64) -> Option<Self>
        ensures none { IsNone result ↔ (4 ≤ bits) }
        ensures condition { IfSome result (λ condition. condition_bits condition ≡ bits) }
    {
        match bits {
            0b00 => Some(Self::InstructionExecution),
            0b01 => Some(Self::DataWrites),
            0b10 => Some(Self::IoReadsWrites),
            0b11 => Some(Self::DataReadsWrites),
            _ => None,
        }
    }
}
