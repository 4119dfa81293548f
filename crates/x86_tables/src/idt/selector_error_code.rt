//! The error code of an exception that a segment selector raised.

ghost use Rattle.std.specs.Prelude.{◌≡◌, ◌%◌, ◌^◌, ◌==◌, ◌<◌, SomeIff};
ghost use Rattle.paging_core.specs.Field.{field_of};
ghost use Rattle.x86_tables.specs.SelectorErrorCode.{is_external, selector_table};

use paging_core::get_bits;
use std::marker::Model;

/// Which selector raised an exception: its index in bits 3 to 15, its table in bits 1 and 2, and in bit 0 whether the
/// exception was raised while an event from outside the program was delivered. A contract sees it as its bits.
///
/// Source: AMD64 manual, volume 2, section 8.4.1.
#[derive(Clone, Copy, PartialEq, Eq, Hash, Debug)]
pub struct SelectorErrorCode {
    flags: u64,
}

impl Model for SelectorErrorCode {
    ghost use Rattle.std.specs.Prelude.{ℕ, ◌^◌, ◌<◌};

    ghost Value = { ℕ };

    ghost view = { λ code. code.flags };

    ghost invariant = { λ code. code.flags < 2 ^ 16 };

    ghost inverse = { λ bits. record { flags = bits } };
}

/// A kind of descriptor table.
///
/// Source: AMD64 manual, volume 2, section 4.6.
#[derive(Clone, Copy, PartialEq, Eq, Hash, Debug)]
pub enum DescriptorTable {
    /// The global descriptor table.
    Gdt,
    /// The interrupt descriptor table.
    Idt,
    /// A local descriptor table.
    Ldt,
}

impl SelectorErrorCode {
    /// The error code of these bits. None exactly if a reserved bit is set: one from 16 on.
    pub fn new(value: u64) -> Option<Self>
        ensures { SomeIff result (value < 2 ^ 16) value }
    {
        if value > u64::from(u16::MAX) {
            None
        } else {
            Some(Self { flags: value })
        }
    }

    /// The error code of the low 16 bits.
    pub fn new_truncate(value: u64) -> Self
        ensures { result ≡ value % 2 ^ 16 }
    {
        Self {
            flags: value & 0xffff,
        }
    }

    /// Whether the exception was raised while an event from outside the program was delivered.
    pub fn external(&self) -> bool
        ensures { result ≡ is_external self.now }
    {
        get_bits(self.flags, 0, 1) == 1
    }

    /// The table of the selector.
    pub fn descriptor_table(&self) -> DescriptorTable
        ensures { result ≡ selector_table self.now }
    {
        match get_bits(self.flags, 1, 3) {
            0b00 => DescriptorTable::Gdt,
            0b10 => DescriptorTable::Ldt,
            _ => DescriptorTable::Idt,
        }
    }

    /// The index of the descriptor.
    pub fn index(&self) -> u64
        ensures { result ≡ field_of self.now 3 16 }
    {
        get_bits(self.flags, 3, 16)
    }

    /// Whether all bits are 0: the exception names no selector.
    pub fn is_null(&self) -> bool
        ensures { result ≡ (self.now == 0) }
    {
        self.flags == 0
    }
}
