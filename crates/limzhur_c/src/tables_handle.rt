// What a C program holds of page tables.
ghost use Rattle.std.specs.Prelude.{◌≡◌};
ghost use Rattle.std.specs.Borrow.{full_share, Lends, sem};
ghost use Rattle.std.specs.Ptr.{lies_at};
ghost use denote.Signature.{static_lft};
ghost use Rattle.kernel_tables.specs.TableState.{TableState};
ghost use Rattle.kernel_tables.specs.contracts.tables.Tables.{the_row as tables_row};

use kernel_tables::Tables;
use std::marker::Model;

/// Page tables behind a pointer. Whoever has the handle has the tables, and all words of their area.
#[repr(C)]
#[derive(Drop)]
pub struct TablesHandle {
    pub(crate) room: *mut u8,
    pub ghost tables: { TableState },
}

impl Model for TablesHandle {
    ghost also_owns = { λ h. lies_at (tables_row static_lft) full_share h.room h.tables };
}

// What it owns, the tables with the words of their area, is no thread's own.
unsafe impl Send for TablesHandle {}

impl TablesHandle {
    ghost use Rattle.limzhur_c.specs.contracts.tables_handle.TablesHandle.{the_row};

    /// The tables. When the borrow ends, the handle has what was done to it.
    pub(crate) fn open(&mut self) -> &mut Tables<'static>
        ensures* lends { sem 𝓛 (Lends the_row (tables_row static_lft) self.entry result (λ w. record self.old { tables = w })) }
        ensures tables { result.now ≡ self.old.tables }
    {
        unsafe { &mut *(self.room as *mut Tables<'static>) }
    }
}
