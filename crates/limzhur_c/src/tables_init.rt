// Where page tables begin: in frames that C gives for good.
ghost use Rattle.std.specs.Prelude.{◌≡◌, ℕ, ◌^◌, ◌<◌, List, length};
ghost use types.Logic.{sem};
ghost use base.Fraction.{full_share};
ghost use denote.Array.{Array};
ghost use denote.Builtin.{u64};
ghost use denote.RawPtr.{lies_at, room_at};
ghost use denote.Signature.{static_lft};
ghost use Rattle.kernel_tables.specs.TableState.{TableState};
ghost use Rattle.kernel_tables.specs.contracts.tables.Tables.{the_row as tables_row};
ghost use Rattle.kernel_tables.specs.Begun.{IsAreaGiven, AreBegun, AreOthersAsLent};
ghost use Rattle.std.specs.Mem.{type_size};

use crate::init::words_at;
use kernel_tables::Tables;

/// How many bytes the room of page tables has to have.
#[unsafe(no_mangle)]
pub extern "C" fn limzhur_tables_room() -> usize
    ensures { result ≡ type_size (tables_row static_lft) }
{
    size_of::<Tables<'static>>()
}

/// Tables with no page, in the area of the words.
fn begin_tables(memory: &'static mut [u64], first: u64, limit: u64) -> Tables<'static>
    requires area { IsAreaGiven (length memory.now) first limit }
    ensures begun { AreBegun (length memory.entry.now) first limit result × AreOthersAsLent memory.entry.now first limit result }
{
    match Tables::new(memory, first, limit) {
        Some(tables) => tables,
        None => unreachable!(),
    }
}

/// Makes page tables with no page in a room, in the frames from `first` on whose `count` words are at `memory`. Room and
/// memory are then the tables'; a handle that leads to the room has both. Pages will lie in frames below `limit`. Of the words
/// only those of the frame `first` are written.
#[unsafe(no_mangle)]
pub unsafe extern "C" fn limzhur_tables_init(
    room: *mut u8,
    memory: *mut u64,
    count: usize,
    first: u64,
    limit: u64,
)
    ghost words: { List ℕ }
    requires* room { sem 𝓛 (room_at (tables_row static_lft) room) }
    requires* memory { sem 𝓛 (lies_at (Array u64 count) full_share memory words) }
    requires few { count < 2 ^ 60 }
    requires area { IsAreaGiven count first limit }
    ensures* tables { ∃ₛ (λ (tables : TableState). sem 𝓛 (lies_at (tables_row static_lft) full_share room tables) ∗ ⌜ AreBegun count first limit tables × AreOthersAsLent words first limit tables ⌝) }
{
    let tables = begin_tables(words_at(memory, count), first, limit);
    (room as *mut Tables<'static>).write(tables);
}
