// The page tables that a run leaves.
ghost use Rattle.std.specs.Prelude.{◌≡◌, ◌++◌, ⊤, OnOk, string_bytes};
ghost use Rattle.paged_systems.specs.System.{paged};
ghost use Rattle.heap_picture.specs.Style.{style};
ghost use Rattle.heap_picture.specs.Tables.{drawing_of, tables_drawing};

use crate::owners::lines_in;
use crate::picture::push_head;
use heap_report::Tell;
use heap_tables::{push_tables, tables_height};
use kernel_heap::{Answer, Call, Extent, Machine, PagedSystem};
use std::alloc::{AllocError, Global};

// Puts the drawing of the tables of a system at the end.
fn push_drawing(alloc: Global, out: &mut String, system: &PagedSystem) -> Result<(), AllocError>
    ensures { OnOk result (string_bytes out.new ≡ string_bytes out.old ++ drawing_of style (paged system.now)) }
{
    let frames = system.frames();
    let lines = lines_in(alloc, system)?;
    push_head(out, tables_height(lines.len()))?;
    push_tables(alloc, out, &lines, frames.count())?;
    out.push_str("</svg>\n")
}

/// The page tables of a run's last machine as its text.
#[derive(Drop)]
pub struct Tables;

impl Tell for Tables {
    ghost keeps = { λ tables calls answers. ⊤ };

    ghost text = { tables_drawing style };

    fn new(_alloc: Global) -> Tables {
        Tables
    }

    fn note(&mut self, _call: &Call, _answer: &Answer) -> Result<(), AllocError> {
        Ok(())
    }

    fn push(
        self,
        alloc: Global,
        output: &mut String,
        machine: &Machine,
        _live: u128,
        _peak: u128,
        _extents: &[Extent],
    ) -> Result<(), AllocError> {
        push_drawing(alloc, output, machine.system())
    }
}
