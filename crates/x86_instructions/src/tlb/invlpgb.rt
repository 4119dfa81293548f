//! Flushes on all processors at once.

ghost use Rattle.std.specs.Prelude.{◌≡◌, ◌++◌, ◌+◌, ◌-◌, ◌%◌, ◌^◌, ◌<◌, ◌≤◌, ◌↔◌, true, ⊤, Some, length, vec_len, vec_capacity, IsTrue, IsOk, IsSome, IfOk, IfErr, IfSome, OnOk, OnErr};
ghost use Rattle.paging_core.specs.Steps.{half_pages, position};
ghost use Rattle.x86_instructions.specs.Flushed.{FlushesRange};
ghost use Rattle.x86_instructions.specs.Invlpgb.{bit_if, commands_of, identifiers_of, limits_of, options_of, turn_command, turn_commands, whole};
ghost use Rattle.x86_instructions.specs.Turns.{greatest_count};

use super::{FlushCommand, FlushList};
use paging_core::{NotGiantPageSize, Page, PageRange, PageSize, Size2MiB, Size4KiB, VirtAddr};
use std::alloc::AllocError;
use std::marker::Model;
use thiserror::Error;
use x86_flags::Pcid;
use x86_registers::Cpu;

/// The first address of the high half.
const HIGH_HALF: u64 = 0xffff_8000_0000_0000;

/// The sign that the processor has `INVLPGB`, and what it takes there.
///
/// Source: AMD64 manual, volume 3, `INVLPGB`.
#[derive(Clone, Copy, Debug)]
pub struct Invlpgb {
    invlpgb_count_max: u16,
    tlb_flush_nested: bool,
    nasid: u32,
}

impl Model for Invlpgb {
    ghost use Rattle.x86_instructions.specs.Invlpgb.{Limits};

    ghost Value = { Limits };

    ghost view = { λ i. record { count_max = i.invlpgb_count_max; nested = i.tlb_flush_nested; nasid = i.nasid } };

    ghost inverse = { λ limits. record { invlpgb_count_max = limits.count_max; tlb_flush_nested = limits.nested; nasid = limits.nasid } };
}

impl Invlpgb {
    /// The sign, which the processor gives only to code of level 0. None exactly if it lacks the instruction.
    pub fn new(cpu: &Cpu) -> Option<Self>
        requires { cpu.now.cs % 4 ≡ 0 }
        ensures some { IsSome result ↔ IsTrue cpu.now.invlpgb }
        ensures limits { IfSome result (λ invlpgb. invlpgb ≡ limits_of cpu.now) }
    {
        if !cpu.invlpgb {
            return None;
        }
        Some(Self {
            invlpgb_count_max: cpu.invlpgb_count_max,
            tlb_flush_nested: cpu.tlb_flush_nested,
            nasid: cpu.nasid,
        })
    }

    /// The greatest count of pages that the processor takes in one command.
    pub fn invlpgb_count_max(&self) -> u16
        ensures { result ≡ self.now.count_max }
    {
        self.invlpgb_count_max
    }

    /// Whether the processor can flush nested translations.
    pub fn tlb_flush_nested(&self) -> bool
        ensures { result ≡ self.now.nested }
    {
        self.tlb_flush_nested
    }

    /// How many address space identifiers there are.
    pub fn nasid(&self) -> u32
        ensures { result ≡ self.now.nasid }
    {
        self.nasid
    }

    /// A flush of everything, but for global pages and nested translations.
    pub fn build(&self) -> InvlpgbFlushBuilder<'_, Size4KiB>
        ensures { result ≡ whole self.now }
    {
        InvlpgbFlushBuilder {
            invlpgb: self,
            page_range: None,
            pcid: None,
            asid: None,
            include_global: false,
            final_translation_only: false,
            include_nested_translations: false,
        }
    }
}

/// A flush that is being put together. A contract sees what is to be flushed.
#[derive(Debug, Drop)]
pub struct InvlpgbFlushBuilder<'a, S: NotGiantPageSize = Size4KiB> {
    invlpgb: &'a Invlpgb,
    page_range: Option<PageRange<S>>,
    pcid: Option<Pcid>,
    asid: Option<u16>,
    include_global: bool,
    final_translation_only: bool,
    include_nested_translations: bool,
}

impl<'a, S: NotGiantPageSize> Model for InvlpgbFlushBuilder<'a, S> {
    ghost use Rattle.std.specs.Option.{option_map};
    ghost use Rattle.x86_instructions.specs.Invlpgb.{Flush};

    ghost Value = { Flush };

    ghost view = { λ b. record {
      limits = b.invlpgb.now;
      pages = option_map (λ range. (range.start, range.end)) b.page_range;
      pcid = b.pcid;
      asid = b.asid;
      global = b.include_global;
      final_only = b.final_translation_only;
      nested = b.include_nested_translations;
    } };
}

impl<'a, S: NotGiantPageSize> Clone for InvlpgbFlushBuilder<'a, S> {
    ghost is_clone = { λ flush copy. copy ≡ flush };

    ghost is_infallible = { λ _. ⊤ };

    fn clone(&self) -> Result<Self, AllocError> {
        Ok(InvlpgbFlushBuilder {
            invlpgb: self.invlpgb,
            page_range: self.page_range,
            pcid: self.pcid,
            asid: self.asid,
            include_global: self.include_global,
            final_translation_only: self.final_translation_only,
            include_nested_translations: self.include_nested_translations,
        })
    }
}

/// There is no such address space identifier.
#[derive(Clone, Copy, PartialEq, Eq, Debug, Error)]
#[error("{asid} is out of the range of available ASIDS ({nasid})")]
pub struct AsidOutOfRangeError {
    /// The identifier that was asked for.
    pub asid: u16,
    /// How many there are, from 0 on.
    pub nasid: u32,
}

impl<'a, S: NotGiantPageSize> InvlpgbFlushBuilder<'a, S> {
    /// Flushes only the pages of this range.
    pub fn pages<T: NotGiantPageSize>(self, page_range: PageRange<T>) -> InvlpgbFlushBuilder<'a, T>
        ensures { result ≡ record self.entry { pages = Some (page_range.start, page_range.end) } }
    {
        InvlpgbFlushBuilder {
            invlpgb: self.invlpgb,
            page_range: Some(page_range),
            pcid: self.pcid,
            asid: self.asid,
            include_global: self.include_global,
            final_translation_only: self.final_translation_only,
            include_nested_translations: self.include_nested_translations,
        }
    }

    /// Flushes only the translations of this process-context identifier, which the processor looks at if
    /// `Cr4Flags::PCID` is set.
    pub fn pcid(&mut self, pcid: Pcid) -> &mut Self
        ensures same { result.ghost_name ≡ self.entry.ghost_name }
        ensures value { result.now ≡ record self.old { pcid = Some pcid } }
    {
        self.pcid = Some(pcid);
        self
    }

    /// Also flushes global pages.
    pub fn include_global(&mut self) -> &mut Self
        ensures same { result.ghost_name ≡ self.entry.ghost_name }
        ensures value { result.now ≡ record self.old { global = true } }
    {
        self.include_global = true;
        self
    }

    /// Flushes only the final translations, and keeps what upper tables gave.
    pub fn final_translation_only(&mut self) -> &mut Self
        ensures same { result.ghost_name ≡ self.entry.ghost_name }
        ensures value { result.now ≡ record self.old { final_only = true } }
    {
        self.final_translation_only = true;
        self
    }

    /// Also flushes nested translations, those of guests.
    pub fn include_nested_translations(self) -> Self
        requires { IsTrue self.limits.nested }
        ensures { result ≡ record self.entry { nested = true } }
    {
        let mut flush = self;
        flush.include_nested_translations = true;
        flush
    }

    /// Flushes only the translations of this address space identifier, which the processor looks at if
    /// `EferFlags::SECURE_VIRTUAL_MACHINE_ENABLE` is set.
    ///
    /// # Errors
    ///
    /// `AsidOutOfRangeError` exactly if there is no such identifier. The flush is then as it was, as `try_asid` says,
    /// which this call ends in.
    pub fn asid(&mut self, asid: u16) -> Result<&mut Self, AsidOutOfRangeError>
        ensures ok { IsOk result ↔ (asid < self.old.limits.nasid) }
        ensures same { IfOk result (λ flush. flush.ghost_name ≡ self.entry.ghost_name) }
        ensures value { IfOk result (λ flush. flush.now ≡ record self.old { asid = Some asid }) }
        ensures err { IfErr result (λ error. error ≡ record { asid = asid; nasid = self.old.limits.nasid }) }
    {
        self.try_asid(asid)?;
        Ok(self)
    }

    /// As `asid`, and answers nothing.
    ///
    /// # Errors
    ///
    /// `AsidOutOfRangeError` exactly if there is no such identifier. The flush is then as it was.
    pub fn try_asid(&mut self, asid: u16) -> Result<(), AsidOutOfRangeError>
        ensures ok { IsOk result ↔ (asid < self.old.limits.nasid) }
        ensures value { OnOk result (self.new ≡ record self.old { asid = Some asid }) }
        ensures same { OnErr result (self.new ≡ self.old) }
        ensures err { IfErr result (λ error. error ≡ record { asid = asid; nasid = self.old.limits.nasid }) }
    {
        let nasid = self.invlpgb.nasid();
        if u32::from(asid) >= nasid {
            return Err(AsidOutOfRangeError { asid, nasid });
        }
        self.asid = Some(asid);
        Ok(())
    }

    /// Appends the commands of the flush: one if no pages are given, none if the range has no page, and else one for
    /// each turn, in the order of the pages. The places are reserved first.
    ///
    /// # Errors
    ///
    /// `AllocError` if there is no memory. The list is then as it was.
    pub fn flush(&self, list: &mut FlushList) -> Result<(), AllocError>
        ensures ok { OnOk result (list.new ≡ list.old ++ commands_of S.SIZE self.now) }
        ensures err { OnErr result (list.new ≡ list.old) }
        ensures pages { IfSome self.now.pages
            (λ range. FlushesRange S.SIZE self.now.limits.count_max range (commands_of S.SIZE self.now)) }
    {
        match &self.page_range {
            Some(pages) => {
                list.commands.reserve(self.turn_count(pages) as usize)?;
                self.append_turns(pages, &mut list.commands);
                Ok(())
            }
            None => list.push(FlushCommand::Invlpgb {
                rax: self.options(),
                ecx: 0,
                edx: self.identifiers(),
            }),
        }
    }

    /// Appends the commands of the turns, for which there is room.
    fn append_turns(&self, pages: &PageRange<S>, commands: &mut Vec<FlushCommand>)
        requires room { vec_len commands.old
            + length (turn_commands S.SIZE self.now (position S.SIZE pages.now.start) (position S.SIZE pages.now.end))
            ≤ vec_capacity commands.old }
        ensures { commands.new.items ≡ commands.old.items
            ++ turn_commands S.SIZE self.now (position S.SIZE pages.now.start) (position S.SIZE pages.now.end) }
    {
        let mut left = pages.len();
        while left > 0 {
            let page = Page::backward_checked(pages.end, left as usize).unwrap();
            let count = self.count(page, left);
            commands.push(self.turn(page, count)).unwrap();
            left -= u64::from(count.max(1));
        }
    }

    /// The command of a turn.
    fn turn(&self, page: Page<S>, count: u16) -> FlushCommand
        ensures { result ≡ turn_command S.SIZE self.now (record { page = page; count = count }) }
    {
        let is_large = S::SIZE == Size2MiB::SIZE;
        FlushCommand::Invlpgb {
            rax: page.start_address().as_u64() & !0xFFF | (1 | self.options()),
            ecx: bit(is_large, 31) as u32 | u32::from(count),
            edx: self.identifiers(),
        }
    }

    /// Bits 1 to 5 of RAX.
    fn options(&self) -> u64
        ensures value { result ≡ options_of self.now }
        ensures below { result < 2 ^ 6 }
        ensures even { result % 2 ≡ 0 }
    {
        bit(self.pcid.is_some(), 1)
            | bit(self.asid.is_some(), 2)
            | bit(self.include_global, 3)
            | bit(self.final_translation_only, 4)
            | bit(self.include_nested_translations, 5)
    }

    /// EDX: the address space identifier, and the process-context identifier from bit 16 on.
    fn identifiers(&self) -> u32
        ensures { result ≡ identifiers_of self.now }
    {
        let pcid = match self.pcid {
            Some(pcid) => pcid.value(),
            None => 0,
        };
        u32::from(pcid) << 16 | u32::from(self.asid.unwrap_or(0))
    }

    /// The greatest count of a turn that begins at a page, if `left` pages are left from that page on.
    fn count(&self, page: Page<S>, left: u64) -> u16
        ensures { result ≡ greatest_count S.SIZE self.now.limits.count_max (position S.SIZE page) (position S.SIZE page + left) }
    {
        let before_gap = pages_before_gap(page);
        let together = if before_gap > 0 {
            left.min(before_gap)
        } else {
            left
        };
        together.min(u64::from(self.invlpgb.invlpgb_count_max())) as u16
    }

    /// How many turns the range takes: no turn flushes pages on both sides of the gap.
    fn turn_count(&self, pages: &PageRange<S>) -> u64
        ensures { result ≡ length (turn_commands S.SIZE self.now (position S.SIZE pages.now.start) (position S.SIZE pages.now.end)) }
    {
        let low = pages.len().min(pages_before_gap(pages.start));
        let high = pages.len() - low;
        let step = u64::from(self.invlpgb.invlpgb_count_max().max(1));
        low.div_ceil(step) + high.div_ceil(step)
    }
}

/// How many pages the low half has from this page on.
fn pages_before_gap<S: NotGiantPageSize>(page: Page<S>) -> u64
    ensures { result ≡ half_pages S.SIZE - position S.SIZE page }
{
    let high_half = Page::containing_address(VirtAddr::new(HIGH_HALF));
    Page::range(page, high_half).len()
}

/// The bit at this place if the condition holds, and else 0.
fn bit(holds: bool, place: u32) -> u64
    requires { place < 64 }
    ensures { result ≡ bit_if holds place }
{
    if holds { 1 << place } else { 0 }
}
