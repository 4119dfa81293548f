//! The table of segment descriptors.

ghost use Rattle.std.specs.Prelude.{⊤, ◌≡◌, ◌+◌, ◌-◌, ◌*◌, ◌<◌, ◌≤◌, ◌↔◌, ◌∷◌, [], ◌++◌, length, slice_index, IsSome, IfSome, OnSome, IfNone};
ghost use Rattle.x86_tables.specs.Descriptor.{level_of, descriptor_words};

use crate::gdt::descriptor::Descriptor;
use arrayvec::ArrayVec;
use paging_core::VirtAddr;
use std::alloc::AllocError;
use std::marker::Model;
use x86_flags::SegmentSelector;
use x86_instructions::tables::lgdt;
use x86_registers::{Cpu, DescriptorTablePointer};

/// One word of a global descriptor table: a descriptor of a code or data segment, or half of one of a system
/// segment. A contract sees it as the word.
#[derive(Clone, Copy, PartialEq, Eq, Default, Debug)]
pub struct Entry(u64);

impl Model for Entry {
    ghost use Rattle.std.specs.Prelude.{ℕ};

    ghost Value = { ℕ };

    ghost view = { λ entry. entry.0 };

    ghost inverse = { λ word. record { 0 = word } };
}

impl Entry {
    /// The word.
    pub fn raw(&self) -> u64
        ensures { result ≡ self.now }
    {
        self.0
    }
}

/// A table of at least 1 and at most `MAX` entries, the first of which is the null descriptor. A contract sees
/// it as the list of its words.
///
/// Source: AMD64 manual, volume 2, section 4.6.1.
#[derive(Debug, Drop)]
pub struct GlobalDescriptorTable<const MAX: usize> {
    table: ArrayVec<Entry, MAX>,
}

impl<const MAX: usize> Model for GlobalDescriptorTable<MAX> {
    ghost use Rattle.std.specs.Prelude.{ℕ, ◌<◌, ◌≤◌, List};
    ghost use Rattle.arrayvec.specs.ArrayVec.{array_vec_len};

    ghost Value = { List ℕ };

    ghost view = { λ gdt. gdt.table.items };

    ghost invariant = { λ gdt. (0 < array_vec_len gdt.table) × (MAX ≤ 8192) };
}

impl GlobalDescriptorTable<8> {
    /// A table of the null descriptor, with room for 7 more entries.
    pub fn new() -> Self
        ensures { result ≡ 0 ∷ [] }
    {
        Self::empty()
    }
}

impl Default for GlobalDescriptorTable<8> {
    ghost is_default = { λ gdt. gdt ≡ 0 ∷ [] };

    fn default() -> Self {
        Self::new()
    }
}

impl<const MAX: usize> GlobalDescriptorTable<MAX> {
    /// A table of the null descriptor. `MAX` is at least 1 and at most 8192.
    pub fn empty() -> Self
        requires some { 1 ≤ MAX }
        requires most { MAX ≤ 8192 }
        ensures { result ≡ 0 ∷ [] }
    {
        let mut table = ArrayVec::new();
        table.push(Entry(0));
        Self { table }
    }

    /// A table of these words, of which there are at least 1 and at most `MAX`; the first is the null
    /// descriptor. `MAX` is at most 8192.
    pub fn from_raw_entries(slice: &[u64]) -> Self
        requires most { MAX ≤ 8192 }
        requires some { 1 ≤ length slice.now }
        requires room { length slice.now ≤ MAX }
        requires null { slice_index slice.now 0 ≡ 0 }
        ensures { result ≡ slice.now }
    {
        let mut table = ArrayVec::new();
        for word in slice {
            table.push(Entry(*word));
        }
        Self { table }
    }

    /// The entries.
    pub fn entries(&self) -> &[Entry]
        ensures { result.now ≡ self.now }
    {
        self.table.as_slice()
    }

    /// Appends a descriptor, for which there is room: one entry for a code or data segment, two for a system
    /// segment. The selector has the index of the first new entry, and the descriptor's level.
    pub fn append(&mut self, entry: Descriptor) -> SegmentSelector
        requires { length self.old + length (descriptor_words entry) ≤ MAX }
        ensures words { self.new ≡ self.old ++ descriptor_words entry }
        ensures selector { result.0 ≡ length self.old * 8 + level_of entry }
    {
        let index = self.table.len() as u16;
        match entry {
            Descriptor::UserSegment(word) => self.table.push(Entry(word)),
            Descriptor::SystemSegment(low, high) => {
                self.table.push(Entry(low));
                self.table.push(Entry(high));
            }
        }
        SegmentSelector::new(index, entry.dpl())
    }

    /// Appends a descriptor as `append` does. None exactly if there is no room; then the table is unchanged.
    pub fn try_append(&mut self, entry: Descriptor) -> Option<SegmentSelector>
        ensures some { IsSome result ↔ (length self.old + length (descriptor_words entry) ≤ MAX) }
        ensures words { OnSome result (self.new ≡ self.old ++ descriptor_words entry) }
        ensures selector { IfSome result (λ selector. selector.0 ≡ length self.old * 8 + level_of entry) }
        ensures none { IfNone result (self.new ≡ self.old) }
    {
        let needed = match entry {
            Descriptor::UserSegment(_) => 1,
            Descriptor::SystemSegment(_, _) => 2,
        };
        if self.table.remaining_capacity() < needed {
            return None;
        }
        Some(self.append(entry))
    }

    /// The offset of the table's last byte.
    pub fn limit(&self) -> u16
        ensures { result ≡ 8 * length self.now - 1 }
    {
        (8 * self.table.len() - 1) as u16
    }

    /// Makes this the global descriptor table of the processor. It lies at `at`. No segment register changes.
    pub fn load(&self, cpu: &mut Cpu, at: VirtAddr)
        ensures { cpu.new
            ≡ record cpu.old { gdtr = record { limit = 8 * length self.now - 1; base = at } } }
    {
        let pointer = DescriptorTablePointer {
            limit: self.limit(),
            base: at,
        };
        lgdt(cpu, &pointer);
    }

    /// The same as `load`.
    pub fn load_unsafe(&self, cpu: &mut Cpu, at: VirtAddr)
        ensures { cpu.new
            ≡ record cpu.old { gdtr = record { limit = 8 * length self.now - 1; base = at } } }
    {
        self.load(cpu, at);
    }
}

impl<const MAX: usize> Clone for GlobalDescriptorTable<MAX> {
    ghost is_clone = { λ gdt copy. copy ≡ gdt };

    ghost is_infallible = { λ _. ⊤ };

    fn clone(&self) -> Result<Self, AllocError> {
        Ok(Self {
            table: self.table.clone()?,
        })
    }
}
