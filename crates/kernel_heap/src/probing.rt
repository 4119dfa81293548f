// The byte at an address, as an access sees it.
ghost use Rattle.std.specs.Prelude.{◌≡◌, ℕ, is_some, false, Some};
ghost use Rattle.machine_model.specs.State.{State};
ghost use Rattle.paging_core.specs.PageBits.{bits_of};
ghost use Rattle.paging_core.specs.ProcessorAccess.{place_grants, kind_bit, fault_code};
ghost use Rattle.paging_core.specs.Walk.{place_with};
ghost use Rattle.machine_model.specs.Probe.{is_access_granted};
ghost use Rattle.machine_model.specs.Run.{IsGood};
ghost use Rattle.machine_model.specs.Machine.{Stands, IsStep};
ghost use Rattle.paged_systems.specs.System.{paged};
ghost use Rattle.kernel_heap.specs.Machine.{seen_with, system_of};
ghost use Rattle.kernel_heap.specs.Kept.{IsReachedByte};
ghost use Rattle.x86_flags.specs.PageFaultErrorCode.{page_fault_bits};

use crate::numbered_heap::{NumberedHeap, refused};
use bitflags::Flags;
use machine_model::{Access, Answer, Call, PageFaultErrorCode, Refusal, Reply, Rights};
use paging_core::VirtAddr;

/// Whether rights grant a kind of access.
fn grants(rights: Rights, access: Access) -> bool
    ensures { result ≡ place_grants (place_with 0 (bits_of rights)) access }
{
    match access {
        Access::Read => true,
        Access::Write => rights.write,
        Access::Fetch => rights.fetch,
    }
}

/// Whether an access to a byte is granted, by the rights of its page, or none where it is not mapped: the rights grant its
/// kind, and one by the user needs the user's right too (AMD64 manual, volume 2, section 5.6).
pub fn is_granted(rights: Option<Rights>, access: Access, user: bool) -> bool
    ensures { result ≡ is_access_granted rights access user }
{
    match rights {
        None => false,
        Some(rights) => grants(rights, access) && (!user || rights.user),
    }
}

/// What a page fault's code says of the kind of access.
fn kind_bit(access: Access) -> u64
    ensures { result ≡ kind_bit access }
{
    match access {
        Access::Read => 0,
        Access::Write => 2,
        Access::Fetch => 16,
    }
}

/// The code of the page fault of an access to a page that is mapped or not: bit 0 says that it is mapped, bit 1 that the
/// access is a write, bit 2 that it is by the user, and bit 4 that it is a fetch (AMD64 manual, volume 2, section 8.4.2).
pub fn fault_code(mapped: bool, access: Access, user: bool) -> PageFaultErrorCode
    ensures { page_fault_bits result ≡ fault_code mapped false access user }
{
    let present = if mapped { 1 } else { 0 };
    let from_user = if user { 4 } else { 0 };
    PageFaultErrorCode::from_bits_retain(present + kind_bit(access) + from_user)
}

impl NumberedHeap {
    /// Looks at the byte at an address. It takes no memory and changes nothing.
    pub(crate) fn probe(&self, at: u64, access: Access, user: bool) -> Answer
        ensures ok { (top : ℕ) (s : State) → IsGood s → Stands (seen_with top self.now) s → IsStep s (Call.Probe at access user) result (seen_with top self.now) }
        ensures reached { IsReachedByte (paged (system_of self.now)) (Call.Probe at access user) result.reply }
    {
        if VirtAddr::try_new(at).is_err() {
            return refused(Refusal::NotCanonical);
        }
        let system = self.heap.system();
        let rights = system.rights_at(at);
        if !is_granted(rights, access, user) {
            return Answer {
                reply: Reply::Fault(fault_code(rights.is_some(), access, user)),
                regions: None,
                large: None,
            };
        }
        Answer {
            reply: Reply::Byte(system.byte(at)),
            regions: None,
            large: None,
        }
    }
}
