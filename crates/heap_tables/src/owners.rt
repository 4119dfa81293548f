// Whose pages are.
ghost use Rattle.std.specs.Prelude.{◌≡◌};
ghost use Rattle.heap_tables.specs.Owners.{address_of, owned_end, owner_at, owner_of, same_owner, AreOwnedAscending};

/// Who has pages.
#[derive(Clone, Copy, PartialEq, Eq, Debug)]
pub enum Owner {
    /// The heap.
    Heap,
    /// The user: all that is not the heap's.
    User,
}

/// Pages one after the other that have one owner.
#[derive(Clone, Copy, PartialEq, Eq, Debug)]
pub struct Owned {
    /// The address of the first page.
    pub start: u64,
    /// The number of pages.
    pub pages: u64,
    /// Whose they are.
    pub owner: Owner,
}

/// Whether two owners are the same.
pub fn same_owner(one: Owner, other: Owner) -> bool
    ensures { result ≡ same_owner one other }
{
    match one {
        Owner::Heap => other == Owner::Heap,
        Owner::User => other == Owner::User,
    }
}

/// The address of a page, by the low 36 bits of its number.
pub fn address_of(page: u64) -> u64
    ensures { result ≡ address_of page }
{
    let low = page % 0x10_0000_0000;
    if low < 0x8_0000_0000 {
        low * 4096
    } else {
        low * 4096 + 0xffff_0000_0000_0000
    }
}

// The address after a region.
fn end_of(region: Owned) -> u128
    ensures { result ≡ owned_end region }
{
    u128::from(region.start) + 4096 * u128::from(region.pages)
}

// Whose an address is. Regions ascend, so that each step leaves out half of them: a search takes as many steps as their
// number has bits.
fn owner_at(regions: &[Owned], address: u64) -> Owner
    requires { AreOwnedAscending regions.now }
    ensures { result ≡ owner_at regions.now address }
{
    if regions.is_empty() {
        return Owner::User;
    }
    let middle = regions.len() / 2;
    let region = regions[middle];
    if end_of(region) <= u128::from(address) {
        owner_at(&regions[middle + 1..], address)
    } else if address < region.start {
        owner_at(&regions[..middle], address)
    } else {
        region.owner
    }
}

/// Whose a page is, by the low 36 bits of its number.
pub fn owner_of(regions: &[Owned], page: u64) -> Owner
    requires { AreOwnedAscending regions.now }
    ensures { result ≡ owner_of regions.now page }
{
    owner_at(regions, address_of(page))
}
