//! What an entry of the interrupt descriptor table says besides its handler's address.

ghost use Rattle.std.specs.Prelude.{◌≡◌, ◌+◌, ◌-◌, ◌^◌, ◌<◌, ◌==◌, ◌↔◌, IsNone, IfSome, if◌then◌else◌};
ghost use Rattle.paging_core.specs.Field.{field_of, with_bit_field};
ghost use Rattle.x86_flags.specs.PrivilegeLevel.{level_number};
ghost use Rattle.x86_tables.specs.EntryOptions.{minimal_options};

use paging_core::{get_bits, set_bits};
use x86_flags::{PrivilegeLevel, SegmentSelector};

/// The code segment of a handler, and bits 32 to 47 of its gate: the stack in bits 0 to 2, the type in bits
/// 8 to 11, the level in bits 13 and 14, and in bit 15 whether the gate is present.
///
/// Source: AMD64 manual, volume 2, section 4.8.4.
#[derive(Clone, Copy, PartialEq, Debug)]
pub struct EntryOptions {
    cs: SegmentSelector,
    bits: u16,
}

impl EntryOptions {
    /// An interrupt gate that is not present, without a code segment, at ring 0, on no stack of its own.
    pub(crate) fn minimal() -> Self
        ensures { result ≡ minimal_options }
    {
        Self {
            cs: SegmentSelector::NULL,
            bits: 0x0e00,
        }
    }

    /// Has the handler run in this code segment.
    pub fn set_code_selector(&mut self, cs: SegmentSelector) -> &mut Self
        ensures same { result.ghost_name ≡ self.entry.ghost_name }
        ensures value { result.now ≡ record self.old { cs = cs } }
    {
        self.cs = cs;
        self
    }

    /// Makes the gate present, or not.
    pub fn set_present(&mut self, present: bool) -> &mut Self
        ensures same { result.ghost_name ≡ self.entry.ghost_name }
        ensures value { result.now
            ≡ record self.old { bits = with_bit_field self.old.bits 15 16 (if present then 1 else 0) } }
    {
        self.set_field(15, 16, u16::from(present));
        self
    }

    /// Has the handler begin with interrupts off, or as they are: the gate becomes an interrupt gate, or a
    /// trap gate.
    pub fn disable_interrupts(&mut self, disable: bool) -> &mut Self
        ensures same { result.ghost_name ≡ self.entry.ghost_name }
        ensures value { result.now
            ≡ record self.old { bits = with_bit_field self.old.bits 8 9 (if disable then 0 else 1) } }
    {
        self.set_field(8, 9, u16::from(!disable));
        self
    }

    /// Lets code of this ring, and of those below it in number, raise the interrupt by an instruction.
    pub fn set_privilege_level(&mut self, dpl: PrivilegeLevel) -> &mut Self
        ensures same { result.ghost_name ≡ self.entry.ghost_name }
        ensures value { result.now
            ≡ record self.old { bits = with_bit_field self.old.bits 13 15 (level_number dpl) } }
    {
        self.set_field(13, 15, dpl as u16);
        self
    }

    /// Has the handler run on the stack of this index, below 7, of the task state segment's
    /// `interrupt_stack_table`. The gate counts these stacks from 1.
    pub fn set_stack_index(&mut self, index: u16) -> &mut Self
        requires { index < 7 }
        ensures same { result.ghost_name ≡ self.entry.ghost_name }
        ensures value { result.now ≡ record self.old { bits = with_bit_field self.old.bits 0 3 (index + 1) } }
    {
        self.set_field(0, 3, index + 1);
        self
    }

    /// The code segment that the handler runs in.
    pub fn code_selector(&self) -> SegmentSelector
        ensures { result ≡ self.now.cs }
    {
        self.cs
    }

    /// Bits 32 to 47 of the gate.
    pub(crate) fn bits(&self) -> u16
        ensures { result ≡ self.now.bits }
    {
        self.bits
    }

    /// Whether the gate is present.
    pub fn present(&self) -> bool
        ensures { result ≡ (field_of self.now.bits 15 16 == 1) }
    {
        self.field(15, 16) == 1
    }

    /// The least privileged ring that may raise the interrupt by an instruction.
    pub fn privilege_level(&self) -> PrivilegeLevel
        ensures { level_number result ≡ field_of self.now.bits 13 15 }
    {
        PrivilegeLevel::from_u16(self.field(13, 15))
    }

    /// The index of the stack that the handler runs on. None exactly if it keeps the stack, or takes that of its ring.
    pub fn stack_index(&self) -> Option<u16>
        ensures none { IsNone result ↔ (field_of self.now.bits 0 3 ≡ 0) }
        ensures index { IfSome result (λ index. index + 1 ≡ field_of self.now.bits 0 3) }
    {
        self.field(0, 3).checked_sub(1)
    }

    /// The number in the bits `low` up to `high`, `high` excluded.
    fn field(&self, low: u32, high: u32) -> u16
        requires order { low < high }
        requires within { high < 17 }
        ensures value { result ≡ field_of self.now.bits low high }
    {
        get_bits(u64::from(self.bits), low, high) as u16
    }

    /// Puts `value` into the bits `low` up to `high`, `high` excluded.
    fn set_field(&mut self, low: u32, high: u32, value: u16)
        requires order { low < high }
        requires within { high < 17 }
        requires fits { value < 2 ^ (high - low) }
        ensures { self.new ≡ record self.old { bits = with_bit_field self.old.bits low high value } }
    {
        self.bits = set_bits(u64::from(self.bits), low, high, u64::from(value)) as u16;
    }
}
