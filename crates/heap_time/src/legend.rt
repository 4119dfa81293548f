// What the colours are.
ghost use Rattle.std.specs.Prelude.{◌≡◌, ◌<◌, ◌++◌, OnOk, string_bytes};
ghost use Rattle.std.specs.List.{list_any};
ghost use Rattle.heap_history.specs.declared.band.Band.{Band as BandValue};
ghost use Rattle.heap_time.specs.Legend.{colour_text, single_text, shade_text, four_text, shades_text, users_text, large_legend_text, blocks_text, others_text, folds_words, folds_text, legend_text};

use crate::shapes::region_words;
use heap_history::Band;
use heap_map::{Area, push_rect, push_text};
use std::alloc::AllocError;

#[tactic(auto, unfolding(crate::specs::Legend::colour_text))]
fn push_colour(out: &mut String, x: u128, class: &str, words: &str) -> Result<(), AllocError>
    requires { x < 2000 }
    ensures { OnOk result (string_bytes out.new ≡ string_bytes out.old ++ colour_text x class.now words.now) }
{
    let square = Area {
        x,
        y: 58,
        width: 12,
        height: 12,
    };
    push_rect(out, class, square)?;
    push_text(out, "p", x + 18, 68, words)
}

#[tactic(auto, unfolding(crate::specs::Legend::single_text))]
fn push_single(out: &mut String) -> Result<(), AllocError>
    ensures { OnOk result (string_bytes out.new ≡ string_bytes out.old ++ single_text) }
{
    push_colour(out, 144, "u", "block, live at the end")?;
    push_colour(out, 334, "gone", "block, ended or moved later")
}

#[tactic(auto, unfolding(crate::specs::Legend::shade_text))]
fn push_shade(out: &mut String, x: u128, opacity: &str) -> Result<(), AllocError>
    ensures { OnOk result (string_bytes out.new ≡ string_bytes out.old ++ shade_text x opacity.now) }
{
    writeln!(
        out,
        "<rect class=\"u\" x=\"{x}\" y=\"58\" width=\"12\" height=\"12\" opacity=\"{opacity}\"/>"
    )
}

#[tactic(auto, unfolding(crate::specs::Legend::four_text))]
fn push_four(out: &mut String) -> Result<(), AllocError>
    ensures { OnOk result (string_bytes out.new ≡ string_bytes out.old ++ four_text) }
{
    push_shade(out, 144, ".25")?;
    push_shade(out, 156, ".5")?;
    push_shade(out, 168, ".75")?;
    push_shade(out, 180, "1")
}

#[tactic(auto, unfolding(crate::specs::Legend::shades_text))]
fn push_shades(out: &mut String) -> Result<(), AllocError>
    ensures { OnOk result (string_bytes out.new ≡ string_bytes out.old ++ shades_text) }
{
    push_four(out)?;
    push_text(
        out,
        "p",
        198,
        68,
        "live blocks, by how much of a cell they fill",
    )
}

fn push_users(out: &mut String, users: bool) -> Result<(), AllocError>
    ensures { OnOk result (string_bytes out.new ≡ string_bytes out.old ++ users_text users) }
{
    if users {
        return push_colour(out, 690, "w", "user region");
    }
    Ok(())
}

fn push_large(out: &mut String, large: bool) -> Result<(), AllocError>
    ensures { OnOk result (string_bytes out.new ≡ string_bytes out.old ++ large_legend_text large) }
{
    if large {
        return push_colour(out, 810, "l", "large page");
    }
    Ok(())
}

// Whether a band is folded.
fn are_folded(bands: &[Band]) -> bool
    ensures { result ≡ list_any (λ (band : BandValue). band.folded) bands.now }
{
    for band in bands {
        if band.folded {
            return true;
        }
    }
    false
}

#[tactic(auto, unfolding(crate::specs::Legend::folds_words))]
fn folds_words() -> &'static str
    ensures { result.now ≡ folds_words }
{
    "(folded): no block begins or ends there"
}

fn push_folds(out: &mut String, bands: &[Band]) -> Result<(), AllocError>
    ensures { OnOk result (string_bytes out.new ≡ string_bytes out.old ++ folds_text bands.now) }
{
    if are_folded(bands) {
        return push_text(out, "e faint", 1280, 68, folds_words());
    }
    Ok(())
}

fn push_blocks(out: &mut String, single: bool) -> Result<(), AllocError>
    ensures { OnOk result (string_bytes out.new ≡ string_bytes out.old ++ blocks_text single) }
{
    if single {
        push_single(out)
    } else {
        push_shades(out)
    }
}

#[tactic(auto, unfolding(crate::specs::Legend::others_text))]
fn push_others(out: &mut String, users: bool, large: bool) -> Result<(), AllocError>
    ensures { OnOk result (string_bytes out.new ≡ string_bytes out.old ++ others_text users large) }
{
    push_colour(out, 560, "heap", region_words())?;
    push_users(out, users)?;
    push_large(out, large)
}

/// Puts what the colours are at the end, of blocks one by one or in cells, and if there are some of user regions, large pages
/// and folds.
#[tactic(auto, unfolding(crate::specs::Legend::legend_text))]
pub fn push_legend(
    out: &mut String,
    single: bool,
    users: bool,
    large: bool,
    bands: &[Band],
) -> Result<(), AllocError>
    ensures { OnOk result (string_bytes out.new ≡ string_bytes out.old ++ legend_text single users large bands.now) }
{
    push_text(out, "q", 24, 68, "addresses")?;
    push_blocks(out, single)?;
    push_others(out, users, large)?;
    push_folds(out, bands)
}
