// Calls of several arenas, by ascending address: each is of the first arena that has to do with it, or of all.
ghost use Rattle.std.specs.Prelude.{◌≡◌, ◌+◌, ◌%◌, ◌<◌, ◌≤◌, false, [], Some, IfOk, IfErr, IfSome, IfNone, OnErr, IsTrue, length, insert};
ghost use Rattle.std.specs.List.{list_any};
ghost use Rattle.heap_memory.specs.Regions.{IsWordOf};
ghost use Rattle.heap_arena.specs.Arenas.{are_in_order, regions_of_all, word_among, overlaps, AreTakenBack, AreUnwritten, IsGrantedAmong, IsWordPutAmong, IsDeniedByAll};

use crate::arena::Arena;
use heap_memory::{Allocator, Grant, GrantFault, Memory};

/// The word at an address.
pub(crate) fn load_among<'a>(arenas: &[Arena<'a>], at: u64) -> u64
    requires word { IsWordOf (regions_of_all arenas.now) at }
    requires order { IsTrue (are_in_order arenas.now) }
    ensures { result ≡ word_among arenas.now at }
{
    match arenas {
        [] => 0,
        [first, rest @ ..] => {
            if at < first.end() {
                first.load(at)
            } else {
                load_among(rest, at)
            }
        }
    }
}

/// Puts a word at an address, and changes no other, granted or not.
pub(crate) fn store_among<'a>(arenas: &mut [Arena<'a>], at: u64, value: u64)
    requires word { IsWordOf (regions_of_all arenas.old) at }
    requires order { IsTrue (are_in_order arenas.old) }
    ensures { IsWordPutAmong at value arenas.old arenas.new }
{
    if arenas.is_empty() {
        return;
    }
    if at < arenas[0].end() {
        arenas[0].store(at, value)
    } else {
        store_among(&mut arenas[1..], at, value)
    }
}

/// Grants `size` bytes, by the first arena that has room for them.
pub(crate) fn alloc_among<'a>(arenas: &mut [Arena<'a>], size: u64) -> Result<Grant, GrantFault>
    requires some { 0 < size }
    requires whole { size % 16 ≡ 0 }
    requires order { IsTrue (are_in_order arenas.old) }
    ensures ok { IfOk result (λ grant. IsGrantedAmong size arenas.old grant arenas.new) }
    ensures unwritten { AreUnwritten arenas.old arenas.new }
    ensures same { OnErr result (arenas.new ≡ arenas.old) }
    ensures denied { IfErr result (λ fault. IsDeniedByAll arenas.old size fault) }
{
    if arenas.is_empty() {
        return Err(GrantFault::NoSpace);
    }
    match arenas[0].alloc(size) {
        Ok(grant) => Ok(grant),
        Err(_) => alloc_among(&mut arenas[1..], size),
    }
}

/// Takes the bytes from `low` on and below `high`, the end of a run, back: each arena those that are its own.
pub(crate) fn take_back_among<'a>(arenas: &mut [Arena<'a>], low: u64, high: u64)
    requires { low % 16 ≡ 0 }
    ensures { AreTakenBack low high arenas.old arenas.new }
{
    if !arenas.is_empty() {
        arenas[0].take_back(low, high);
        take_back_among(&mut arenas[1..], low, high);
    }
}

/// The place among them of a further arena; None if it overlaps one of them.
pub(crate) fn gap_among<'a>(arenas: &[Arena<'a>], arena: &Arena<'a>) -> Option<usize>
    requires { IsTrue (are_in_order arenas.now) }
    ensures within { IfSome result (λ place. place ≤ length arenas.now) }
    ensures order { IfSome result (λ place. IsTrue (are_in_order (insert arenas.now place arena.now))) }
    ensures apart { IfSome result (λ place. list_any (λ other. overlaps arena.now other) arenas.now ≡ false) }
    ensures overlaps { IfNone result (IsTrue (list_any (λ other. overlaps arena.now other) arenas.now)) }
{
    match arenas {
        [] => Some(0),
        [first, rest @ ..] => {
            if first.end() <= arena.base() {
                Some(gap_among(rest, arena)? + 1)
            } else if first.base() < arena.end() {
                None
            } else {
                Some(0)
            }
        }
    }
}
