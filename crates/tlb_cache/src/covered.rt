//! Which pages a command covers.
ghost use Rattle.std.specs.Prelude.{◌≡◌, ℕ, ◌/◌, ◌==◌};
ghost use Rattle.tlb_cache.specs.Covered.{covers, first_page, named_pages};
ghost use Rattle.tlb_cache.specs.Pages.{is_covered};

use crate::page_run::PageRun;
use paging_core::{PageSize, Size2MiB, Size4KiB};
use x86_instructions::tlb::FlushCommand;

/// The bit of ECX that says that `INVLPGB` counts pages of 2 MiB.
const LARGE: u32 = 1 << 31;

/// The pages that a command covers: all, or some in a row.
#[derive(Clone, Copy)]
pub(crate) enum Pages {
    All,
    Run(PageRun),
}

/// The page that has an address.
fn page_of(address: u64) -> Pages
    ensures { (page : ℕ) → is_covered result page ≡ (page == address / 4096) }
{
    Pages::Run(PageRun {
        first: address / Size4KiB::SIZE,
        pages: 1,
    })
}

/// The pages that `INVLPGB` names by its registers.
fn named(rax: u64, ecx: u32) -> PageRun
    ensures first { result.first ≡ first_page rax ecx }
    ensures pages { result.pages ≡ named_pages ecx }
{
    let each = if ecx & LARGE == 0 {
        1
    } else {
        Size2MiB::SIZE / Size4KiB::SIZE
    };
    let count = u64::from(ecx % (1 << 16));
    PageRun {
        first: rax / Size4KiB::SIZE / each * each,
        pages: count.max(1) * each,
    }
}

/// The pages that a command covers.
pub(crate) fn covered(command: &FlushCommand) -> Pages
    ensures { (page : ℕ) → is_covered result page ≡ covers command.now page }
{
    match *command {
        FlushCommand::Invlpg(address) => page_of(address.as_u64()),
        FlushCommand::ReloadCr3 => Pages::All,
        FlushCommand::Invpcid { kind, address, .. } => {
            if kind == 0 {
                page_of(address)
            } else {
                Pages::All
            }
        }
        FlushCommand::Invlpgb { rax, ecx, .. } => {
            if rax % 2 == 1 {
                Pages::Run(named(rax, ecx))
            } else {
                Pages::All
            }
        }
    }
}
