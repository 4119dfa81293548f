// The bars of a row.
ghost use Rattle.std.specs.Prelude.{◌≡◌, ◌<◌, ◌≤◌, ◌++◌, OnOk};
ghost use Rattle.heap_cells.specs.Bars.{bar_of, bars_of};

use std::alloc::AllocError;

/// Cells of a row that lie side by side and have one shade.
#[derive(Clone, Copy, PartialEq, Eq, Debug)]
pub struct Bar {
    /// Its left end, in pixels.
    pub x: u128,
    /// Its middle, in pixels.
    pub y: u128,
    pub width: u128,
    /// Its shade, from 1 on.
    pub shade: u128,
}

// Puts the cells from one to another at the end, if they have a shade.
fn push_bar(
    bars: &mut Vec<Bar>,
    side: u64,
    y: u128,
    start: usize,
    end: usize,
    shade: u128,
) -> Result<(), AllocError>
    requires side { side ≤ 8 }
    requires cells { start ≤ end }
    ensures { OnOk result (bars.new.items ≡ bars.old.items ++ bar_of side y start end shade) }
{
    if shade == 0 {
        return Ok(());
    }
    let bar = Bar {
        x: 144 + u128::from(side) * start as u128,
        y,
        width: u128::from(side) * (end - start) as u128,
        shade,
    };
    bars.push(bar)?;
    Ok(())
}

/// Puts the bars of a row with these shades at the end.
#[tactic(auto, using(crate::proofs::Runs::bars_step, crate::proofs::Runs::bars_last, std::proofs::lemmas::Grind::common_steps))]
pub fn push_bars(bars: &mut Vec<Bar>, side: u64, y: u128, shades: &[u128]) -> Result<(), AllocError>
    requires { side ≤ 8 }
    ensures { OnOk result (bars.new.items ≡ bars.old.items ++ bars_of side y shades.now) }
{
    let (mut start, mut shade) = (0, 0);
    for (next, one) in shades.iter().enumerate() {
        if *one != shade {
            push_bar(bars, side, y, start, next, shade)?;
            start = next;
            shade = *one;
        }
    }
    push_bar(bars, side, y, start, shades.len(), shade)
}
