//! Reading and writing bytes.
ghost use Rattle.std.specs.Prelude.{◌≡◌, ◌+◌, ◌*◌, ◌/◌, ◌^◌, ◌<◌, ◌≤◌, IfOk, OnOk, Err, IfSome, IfNone, Some, None, true, false, length, if◌then◌else◌};
ghost use Rattle.meminterval.specs.Tree.{entries};
ghost use Rattle.address_space.specs.Runs.{AreRuns, rights_in};
ghost use Rattle.address_space.specs.Space.{page_map_of};
ghost use Rattle.address_space.specs.Seen.{tables_of, KeptIfErr};
ghost use Rattle.address_space.specs.Access.{rights_deny, IsFirstByte, IsAccessGranted, IsAccessDenied, AreBytesAt, IsAccessAnswer};
ghost use Rattle.address_space.specs.Changing.{AreBytesStored};
ghost use Rattle.x86_flags.specs.PageFaultErrorCode.{page_fault_bits};

use crate::bytes::{read_bytes, write_bytes};
use crate::range::is_good_span;
use crate::runs::run_at;
use crate::space::Space;
use crate::space_fault::SpaceFault;
use bitflags::Flags;
use meminterval::IntervalTree;
use paging_core::Rights;
use public_list::PublicList;
use x86_flags::PageFaultErrorCode;

/// Bytes, as a list.
pub type Bytes = PublicList<u8>;

/// What an access asks for besides reading.
#[derive(Clone, Copy)]
struct Access {
    write: bool,
    user: bool,
}

impl Access {
    /// Whether the rights of a page that is mapped deny the access.
    fn is_denied(self, rights: Rights) -> bool
        ensures { result ≡ rights_deny self.write self.user (Some rights) }
    {
        self.write && !rights.write || self.user && !rights.user
    }

    /// The code of its page fault, on a page that is mapped or not.
    fn code(self, mapped: bool) -> PageFaultErrorCode
        ensures { page_fault_bits result ≡ (if mapped then 1 else 0) + (if self.write then 2 else 0) + (if self.user then 4 else 0) }
    {
        let present = if mapped { 1 } else { 0 };
        let write = if self.write { 2 } else { 0 };
        let user = if self.user { 4 } else { 0 };
        PageFaultErrorCode::from_bits_retain(present + write + user)
    }
}

/// A byte at which an access is denied.
#[derive(Drop)]
struct Denial {
    at: u64,
    code: PageFaultErrorCode,
}

/// The first byte of the page that is not below an address.
fn first_byte(at: u64, page: u64) -> u64
    requires from { at / 4096 ≤ page }
    requires page { page < 2 ^ 52 }
    ensures { IsFirstByte at page result }
{
    if at / 4096 < page { page * 4096 } else { at }
}

/// The first of `count` bytes at which an access is denied.
fn first_denied(
    runs: &IntervalTree<u64, Rights>,
    at: u64,
    count: u64,
    access: Access,
) -> Option<Denial>
    requires follow { AreRuns (entries runs.now) }
    requires some { 0 < count }
    requires fits { at + count ≤ 2 ^ 64 }
    ensures denied { IfSome result (λ denial. IsAccessDenied (rights_in (entries runs.now)) access.write access.user at count denial.at (page_fault_bits denial.code)) }
    ensures granted { IfNone result (IsAccessGranted (rights_in (entries runs.now)) access.write access.user at count) }
{
    let last = (at + (count - 1)) / 4096;
    let mut page = at / 4096;
    while page <= last {
        let Some(run) = run_at(runs, page) else {
            return Some(Denial {
                at: first_byte(at, page),
                code: access.code(false),
            });
        };
        if access.is_denied(run.rights) {
            return Some(Denial {
                at: first_byte(at, page),
                code: access.code(true),
            });
        }
        page = run.end;
    }
    None
}

impl Space {
    /// The bytes from the address on, as many as asked, by an access of the user or of the supervisor. It goes by
    /// whole pages.
    pub fn load(&self, at: u64, count: u64, user: bool) -> Result<Bytes, SpaceFault>
        ensures count { IfOk result (λ bytes. length bytes ≡ count) }
        ensures bytes { IfOk result (λ bytes. AreBytesAt (page_map_of (tables_of self.now)).byte at bytes) }
        ensures causes { IsAccessAnswer (page_map_of (tables_of self.now)) false user at count result }
    {
        if count == 0 {
            return Ok(Bytes::new(self.alloc));
        }
        if !is_good_span(at, count) {
            return Err(SpaceFault::BadRange);
        }
        let access = Access { write: false, user };
        if let Some(denial) = first_denied(&self.runs, at, count, access) {
            return Err(SpaceFault::Denied {
                at: denial.at,
                code: denial.code,
            });
        }
        match read_bytes(&self.frames, self.root, self.alloc, at, count) {
            Ok(bytes) => Ok(Bytes::from_vec(bytes)),
            Err(_) => Err(SpaceFault::OutOfMemory),
        }
    }

    /// Writes the bytes from the address on, by an access of the user or of the supervisor. It goes by whole pages, and
    /// takes no memory. An `Err` changes nothing.
    pub fn store(&mut self, at: u64, bytes: &[u8], user: bool) -> Result<(), SpaceFault>
        ensures ok { OnOk result (AreBytesStored (tables_of self.old) (tables_of self.new) at bytes.now) }
        ensures err { KeptIfErr result self.old self.new }
        ensures causes { IsAccessAnswer (page_map_of (tables_of self.old)) true user at (length bytes.now) result }
        ensures memory { result ≡ Err SpaceFault.OutOfMemory → ⊥ }
    {
        if bytes.is_empty() {
            return Ok(());
        }
        let count = bytes.len() as u64;
        if !is_good_span(at, count) {
            return Err(SpaceFault::BadRange);
        }
        let access = Access { write: true, user };
        if let Some(denial) = first_denied(&self.runs, at, count, access) {
            return Err(SpaceFault::Denied {
                at: denial.at,
                code: denial.code,
            });
        }
        write_bytes(&mut self.frames, self.root, at, bytes);
        Ok(())
    }
}
