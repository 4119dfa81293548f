//! The value of the debug control register DR7.

ghost use Rattle.std.specs.Prelude.{◌≡◌, ◌+◌, ◌*◌, ◌^◌, ◌<◌, ◌≤◌, ◌↔◌, IsSome, IfSome, if◌then◌else◌};
ghost use Rattle.std.specs.Int.RustNames.{bit_and, bit_or, bit_xor};
ghost use Rattle.bitflags.specs.Sets.{known_bits, without};
ghost use Rattle.x86_flags.specs.BreakpointCondition.{condition_bits};
ghost use Rattle.x86_flags.specs.BreakpointSize.{size_bits};
ghost use Rattle.x86_flags.specs.DebugAddressRegisterNumber.{register_number};
ghost use Rattle.x86_flags.specs.Dr7Flags.{dr7_bits, dr7_flags};
ghost use Rattle.x86_flags.specs.Dr7Value.{IsDr7, dr7_valid, field_at, with_field};

use crate::breakpoint_condition::BreakpointCondition;
use crate::breakpoint_size::BreakpointSize;
use crate::debug_address_register_number::DebugAddressRegisterNumber;
use crate::dr7_flags::Dr7Flags;
use bitflags::Flags;
use std::marker::Model;

/// A value of DR7: its flags, and for each breakpoint a condition and a size. A contract sees it as its
/// bits, of which no others are set.
///
/// Source: AMD64 manual, volume 2, section 13.1.1.
#[derive(Clone, Copy, PartialEq, Eq, Debug)]
pub struct Dr7Value {
    bits: u64,
}

impl Model for Dr7Value {
    ghost use Rattle.std.specs.Prelude.{ℕ};
    ghost use Rattle.x86_flags.specs.Dr7Value.{IsDr7};

    ghost Value = { ℕ };

    ghost view = { λ v. v.bits };

    ghost invariant = { λ v. IsDr7 v.bits };

    ghost inverse = { λ bits. record { bits = bits } };
}

/// The flags' own bits that a value may have; any other bit that they hold is left out.
impl From<Dr7Flags> for Dr7Value {
    ghost from_gives = { λ flags value. value ≡ bit_and (dr7_bits flags) dr7_valid };

    fn from(flags: Dr7Flags) -> Self {
        Self::from_bits_truncate(flags.bits())
    }
}

impl Dr7Value {
    /// The bits that a value may have: those of the flags and fields.
    pub fn valid_bits() -> u64
        ensures { result ≡ dr7_valid }
    {
        Dr7Flags::all().bits() | 0xFFFF_0000
    }

    /// The value of these bits, or none if one of them is neither a flag nor in a field.
    pub fn from_bits(bits: u64) -> Option<Self>
        ensures some { IsSome result ↔ IsDr7 bits }
        ensures value { IfSome result (λ value. value ≡ bits) }
    {
        if bits & Self::valid_bits() == bits {
            Some(Self { bits })
        } else {
            None
        }
    }

    /// The value of these bits, without those that are neither flags nor in a field.
    pub fn from_bits_truncate(bits: u64) -> Self
        ensures { result ≡ bit_and bits dr7_valid }
    {
        Self {
            bits: bits & Self::valid_bits(),
        }
    }

    /// The value of these bits, each of which is a flag or in a field.
    pub fn from_bits_unchecked(bits: u64) -> Self
        requires { IsDr7 bits }
        ensures { result ≡ bits }
    {
        Self { bits }
    }

    /// The bits of the flags and fields.
    pub fn bits(&self) -> u64
        ensures value { result ≡ self.now }
        ensures valid { IsDr7 result }
    {
        self.bits
    }

    /// The flags that are set.
    pub fn flags(self) -> Dr7Flags
        ensures { dr7_bits result ≡ bit_and self (known_bits dr7_flags) }
    {
        Dr7Flags::from_bits_truncate(self.bits)
    }

    /// Sets these flags. A bit that is neither a flag nor in a field is left out.
    pub fn insert_flags(&mut self, flags: Dr7Flags)
        ensures { self.new ≡ bit_or self.old (bit_and (dr7_bits flags) dr7_valid) }
    {
        self.bits |= flags.bits() & Self::valid_bits();
    }

    /// Clears these flags.
    pub fn remove_flags(&mut self, flags: Dr7Flags)
        ensures { self.new ≡ without 64 self.old (dr7_bits flags) }
    {
        self.bits &= !flags.bits();
    }

    /// Sets those of these flags that are clear, and clears the others of them. A bit that is neither a
    /// flag nor in a field is left out.
    pub fn toggle_flags(&mut self, flags: Dr7Flags)
        ensures { self.new ≡ bit_xor self.old (bit_and (dr7_bits flags) dr7_valid) }
    {
        self.bits ^= flags.bits() & Self::valid_bits();
    }

    /// Sets these flags, or clears them, as `insert_flags` and `remove_flags` do.
    pub fn set_flags(&mut self, flags: Dr7Flags, value: bool)
        ensures { self.new
            ≡ (if value then bit_or self.old (bit_and (dr7_bits flags) dr7_valid) else without 64 self.old (dr7_bits flags)) }
    {
        if value {
            self.insert_flags(flags);
        } else {
            self.remove_flags(flags);
        }
    }

    /// What a breakpoint waits for.
    pub fn condition(&self, n: DebugAddressRegisterNumber) -> BreakpointCondition
        ensures { condition_bits result ≡ field_at self.now (16 + 4 * register_number n) }
    {
        match self.bits >> (16 + 4 * n.get()) & 0b11 {
            0b00 => BreakpointCondition::InstructionExecution,
            0b01 => BreakpointCondition::DataWrites,
            0b10 => BreakpointCondition::IoReadsWrites,
            _ => BreakpointCondition::DataReadsWrites,
        }
    }

    /// Makes a breakpoint wait for this.
    pub fn set_condition(&mut self, n: DebugAddressRegisterNumber, condition: BreakpointCondition)
        ensures { self.new ≡ with_field self.old (16 + 4 * register_number n) (condition_bits condition) }
    {
        self.bits = replace_field(self.bits, 16 + 4 * n.get(), condition as u64);
    }

    /// How much a breakpoint watches.
    pub fn size(&self, n: DebugAddressRegisterNumber) -> BreakpointSize
        ensures { size_bits result ≡ field_at self.now (18 + 4 * register_number n) }
    {
        match self.bits >> (18 + 4 * n.get()) & 0b11 {
            0b00 => BreakpointSize::Length1B,
            0b01 => BreakpointSize::Length2B,
            0b10 => BreakpointSize::Length8B,
            _ => BreakpointSize::Length4B,
        }
    }

    /// Makes a breakpoint watch this much.
    pub fn set_size(&mut self, n: DebugAddressRegisterNumber, size: BreakpointSize)
        ensures { self.new ≡ with_field self.old (18 + 4 * register_number n) (size_bits size) }
    {
        self.bits = replace_field(self.bits, 18 + 4 * n.get(), size as u64);
    }
}

/// `bits` with the two bits from `at` on replaced.
fn replace_field(bits: u64, at: u8, value: u64) -> u64
    requires bits { bits < 2 ^ 32 }
    requires at { at ≤ 30 }
    requires value { value < 4 }
    ensures { result ≡ with_field bits at value }
{
    let below = bits & ((1 << at) - 1);
    let above = bits >> (at + 2);
    (above << 2 | value) << at | below
}
