// Whose the pages of a machine are.
ghost use Rattle.std.specs.Prelude.{◌≡◌, IfOk};
ghost use Rattle.paged_systems.specs.System.{paged};
ghost use Rattle.heap_picture.specs.Owners.{owned_by, owned_regions, lines_in};

use heap_tables::{Line, Owned, Owner, table_lines};
use kernel_heap::{PagedSystem, Region};
use std::alloc::{AllocError, Global};

// The pages of a region, with their owner.
fn owned_by(region: Region) -> Owned
    ensures { result ≡ owned_by region }
{
    Owned {
        start: region.start,
        pages: region.pages,
        owner: if region.heap {
            Owner::Heap
        } else {
            Owner::User
        },
    }
}

// The pages of each region, with their owner.
fn owned_regions(alloc: Global, regions: &[Region]) -> Result<Vec<Owned>, AllocError>
    ensures { IfOk result (λ owned. owned.items ≡ owned_regions regions.now) }
{
    let mut owned = Vec::new(alloc);
    for region in regions {
        owned.push(owned_by(*region))?;
    }
    Ok(owned)
}

/// The lines of the page tables of a system, with the owners of their pages.
pub fn lines_in(alloc: Global, system: &PagedSystem) -> Result<Vec<Line>, AllocError>
    ensures { IfOk result (λ lines. lines.items ≡ lines_in (paged system.now)) }
{
    let list = system.regions(alloc)?;
    let owned = owned_regions(alloc, list.as_slice())?;
    let lines = table_lines(alloc, system.frames(), &owned, system.root())?;
    Ok(lines)
}
