// Regions of the user beside the heap: pages that are mapped and unmapped at an address that the caller names.
ghost use Rattle.std.specs.Prelude.{◌≡◌, [], IfErr, OnOk, OnErr};
ghost use Rattle.machine_model.specs.Slots.{listed_slots};
ghost use Rattle.mapped_regions.specs.Mapped.{CanMap, IsRegionJoined, IsLeft};
ghost use Rattle.mapped_regions.specs.UserRegions.{user_region, IsMapRefused, IsUnmapRefused, CanUnmap};
ghost use Rattle.paged_systems.specs.System.{paged};
ghost use Rattle.paged_systems.specs.Beside.{KeepsHeapWords};

use crate::paged_system::PagedSystem;
use machine_model::{Rights, SlotList};
use mapped_regions::{MapFault, UnmapFault};

impl PagedSystem {
    /// Hands out the slots that the region which joined last has in large pages, by first address, if there are any and
    /// they were not handed out yet. Nothing else is changed (own).
    pub fn take_slots(&mut self) -> Option<SlotList>
        ensures slots { result ≡ listed_slots (paged self.old).slots }
        ensures others { paged self.new ≡ record (paged self.old) { slots = [] } }
        ensures beside { KeepsHeapWords (paged self.old) (paged self.new) }
    {
        self.regions.take_slots()
    }

    /// Maps `pages` pages from the address `start` on as a region of the user with these rights, each at a cleared
    /// frame. Slots of 2 MiB that lie whole among them and have no table are mapped by one entry each, as long as a run of
    /// frames is free. A refused call changes nothing, and either leaves the regions of the heap and every word of them (own).
    pub fn map(&mut self, start: u64, pages: u64, rights: Rights) -> Result<(), MapFault>
        ensures ok { OnOk result (IsRegionJoined (paged self.old) (paged self.new) (user_region start pages rights)) }
        ensures can { OnOk result (CanMap (paged self.old) start pages) }
        ensures err { OnErr result (paged self.new ≡ paged self.old) }
        ensures refused { IfErr result (λ fault. IsMapRefused (paged self.old) start pages fault) }
        ensures beside { KeepsHeapWords (paged self.old) (paged self.new) }
    {
        self.regions.map(start, pages, rights)
    }

    /// Unmaps the region of the user that has just `pages` pages from the address `start` on, and gives its frames
    /// back. It takes no memory; a refused call changes nothing, and either leaves the regions of the heap and every
    /// word of them (own).
    pub fn unmap(&mut self, start: u64, pages: u64) -> Result<(), UnmapFault>
        ensures ok { OnOk result (IsLeft (paged self.old) (paged self.new) start pages) }
        ensures can { OnOk result (CanUnmap (paged self.old) start pages) }
        ensures err { OnErr result (paged self.new ≡ paged self.old) }
        ensures refused { IfErr result (λ fault. IsUnmapRefused (paged self.old) start pages fault) }
        ensures beside { KeepsHeapWords (paged self.old) (paged self.new) }
    {
        self.regions.unmap(start, pages)
    }
}
