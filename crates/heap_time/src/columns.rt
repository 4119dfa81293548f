// What is said of columns of the run.
ghost use Rattle.std.specs.Prelude.{◌≡◌, ◌<◌, ◌++◌, OnOk, string_bytes};
ghost use Rattle.heap_time.specs.Columns.{last_call, live_words, moment_words, moment_title, column_text, columns_text};

use heap_history::Moment;
use heap_map::{Area, push_commas, push_counted, push_titled};
use std::alloc::{AllocError, Global};

// The last call of a column, of 64.
fn last_call(calls: usize, column: usize) -> usize
    requires { column < 64 }
    ensures { result ≡ last_call calls column }
{
    let end = (column as u128 + 1) * calls as u128 / 64;
    end.saturating_sub(1) as usize
}

// Puts the bytes that are live at a moment at the end.
#[tactic(auto, unfolding(crate::specs::Columns::live_words))]
fn push_live(out: &mut String, moment: Moment) -> Result<(), AllocError>
    ensures { OnOk result (string_bytes out.new ≡ string_bytes out.old ++ live_words moment) }
{
    push_counted(out, "byte", moment.live)?;
    out.push_str(" live, ")
}

// Puts these and those in heap regions at the end.
#[tactic(auto, unfolding(crate::specs::Columns::moment_words))]
fn push_moment(out: &mut String, moment: Moment) -> Result<(), AllocError>
    ensures { OnOk result (string_bytes out.new ≡ string_bytes out.old ++ moment_words moment) }
{
    push_live(out, moment)?;
    push_commas(out, moment.heap)?;
    out.push_str(" bytes in heap regions")
}

// Puts both after a call at the end.
#[tactic(auto, unfolding(crate::specs::Columns::moment_title))]
fn push_title(out: &mut String, call: usize, moment: Moment) -> Result<(), AllocError>
    ensures { OnOk result (string_bytes out.new ≡ string_bytes out.old ++ moment_title call moment) }
{
    out.push_str("after call ")?;
    push_commas(out, call as u128 + 1)?;
    out.push_str(": ")?;
    push_moment(out, moment)
}

// Puts a column at the end.
#[tactic(auto, unfolding(crate::specs::Columns::column_text))]
fn push_column(
    alloc: Global,
    out: &mut String,
    below: u128,
    moments: &[Moment],
    column: usize,
) -> Result<(), AllocError>
    requires { column < 64 }
    ensures { OnOk result (string_bytes out.new ≡ string_bytes out.old ++ column_text below moments.now column) }
{
    let call = last_call(moments.len(), column);
    match moments.get(call) {
        None => Ok(()),
        Some(moment) => {
            let area = Area {
                x: 144 + 16 * column as u128,
                y: 84,
                width: 16,
                height: below.saturating_sub(87),
            };
            let mut title = String::new(alloc);
            push_title(&mut title, call, *moment)?;
            push_titled(out, "none", area, title.as_str())
        }
    }
}

/// Puts a title for each of 64 columns at the end, down to what is below the bands: the bytes after its last call.
pub fn push_columns(
    alloc: Global,
    out: &mut String,
    below: u128,
    moments: &[Moment],
) -> Result<(), AllocError>
    ensures { OnOk result (string_bytes out.new ≡ string_bytes out.old ++ columns_text below moments.now 64) }
{
    for column in 0..64usize {
        push_column(alloc, out, below, moments, column)?;
    }
    Ok(())
}
