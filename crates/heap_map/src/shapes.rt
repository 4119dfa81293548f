// Texts and rectangles of an SVG document.
ghost use Rattle.std.specs.Prelude.{◌≡◌, ◌++◌, OnOk, string_bytes};
ghost use Rattle.heap_map.specs.Shapes.{text_at, rect_front, rect, titled};

use std::alloc::AllocError;

/// Where a rectangle is, and how great, in pixels.
#[derive(Clone, Copy, PartialEq, Eq, Debug)]
pub struct Area {
    pub x: u128,
    pub y: u128,
    pub width: u128,
    pub height: u128,
}

/// Puts words of a class at the end, at a place on their base line.
#[tactic(auto, unfolding(crate::specs::Shapes::text_at))]
pub fn push_text(
    out: &mut String,
    class: &str,
    x: u128,
    y: u128,
    words: &str,
) -> Result<(), AllocError>
    ensures { OnOk result (string_bytes out.new ≡ string_bytes out.old ++ text_at class.now x y words.now) }
{
    writeln!(
        out,
        "<text class=\"{class}\" x=\"{x}\" y=\"{y}\">{words}</text>"
    )
}

#[tactic(auto, unfolding(crate::specs::Shapes::rect_front))]
fn push_front(out: &mut String, class: &str, area: Area) -> Result<(), AllocError>
    ensures { OnOk result (string_bytes out.new ≡ string_bytes out.old ++ rect_front class.now area.x area.y area.width area.height) }
{
    let (x, y) = (area.x, area.y);
    let (width, height) = (area.width, area.height);
    write!(
        out,
        "<rect class=\"{class}\" x=\"{x}\" y=\"{y}\" width=\"{width}\" height=\"{height}\""
    )
}

/// Puts a rectangle of a class at the end.
#[tactic(auto, unfolding(crate::specs::Shapes::rect))]
pub fn push_rect(out: &mut String, class: &str, area: Area) -> Result<(), AllocError>
    ensures { OnOk result (string_bytes out.new ≡ string_bytes out.old ++ rect class.now area.x area.y area.width area.height) }
{
    push_front(out, class, area)?;
    out.push_str("/>\n")
}

/// Puts a rectangle with a title at the end, which a browser shows at it.
#[tactic(auto, unfolding(crate::specs::Shapes::titled))]
pub fn push_titled(out: &mut String, class: &str, area: Area, title: &str) -> Result<(), AllocError>
    ensures { OnOk result (string_bytes out.new ≡ string_bytes out.old ++ titled class.now area.x area.y area.width area.height title.now) }
{
    push_front(out, class, area)?;
    writeln!(out, "><title>{title}</title></rect>")
}
