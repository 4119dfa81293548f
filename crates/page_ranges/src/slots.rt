ghost use Rattle.std.specs.Prelude.{◌≡◌, ◌/◌};

use paging_core::{Page, Size2MiB};

/// The slot of the page.
pub(crate) fn slot_at(page: Page) -> Page<Size2MiB>
    ensures { result ≡ page / 512 }
{
    Page::containing_address(page.start_address())
}
