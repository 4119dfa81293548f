// Several arenas, as one system.
ghost use Rattle.std.specs.Prelude.{IsTrue};
ghost use Rattle.heap_arena.specs.Arenas.{are_in_order};

use crate::among::gap_among;
use crate::{AddFault, Arena};
use arrayvec::ArrayVec;

/// At most `N` arenas, by ascending address, as one system.
///
/// A request is granted by the first of them that has room for it. Memory that is found later is a further arena
/// (`add`). If one arena ends at the address at which another one begins, a block may have bytes of both.
#[derive(Drop)]
pub struct Arenas<'a, const N: usize> {
    pub(crate) arenas: ArrayVec<Arena<'a>, N>,
    ghost in_order: { IsTrue (are_in_order arenas.items) },
}

impl<'a, const N: usize> Arenas<'a, N> {
    ghost use Rattle.std.specs.Prelude.{◌≡◌, ◌≤◌, [], length, slice_get, OnErr, OnOk, IfErr, IfSome, IfNone};
    ghost use Rattle.heap_arena.specs.Arenas.{IsAdded, IsNotAdded};

    /// No arenas: each request is denied.
    pub fn new() -> Self
        ensures { result.arenas.items ≡ [] }
    {
        Arenas {
            arenas: ArrayVec::new(),
        }
    }

    /// How many arenas there are.
    pub fn len(&self) -> usize
        ensures { result ≡ length self.now.arenas.items }
    {
        self.arenas.len()
    }

    /// The arena at a place, counted from 0 by ascending address: it says how its own words are used. None if there are
    /// no more arenas than that.
    pub fn get(&self, place: usize) -> Option<&Arena<'a>>
        ensures some { IfSome result (λ arena. slice_get self.now.arenas.items place ≡ Some arena.now) }
        ensures none { IfNone result (length self.now.arenas.items ≤ place) }
    {
        self.arenas.as_slice().get(place)
    }

    /// Takes a further arena, of which nothing is granted yet. An arena that is not taken comes back with the reason, and
    /// nothing changes then.
    pub fn add(&mut self, arena: Arena<'a>) -> Result<(), (AddFault, Arena<'a>)>
        ensures ok { OnOk result (IsAdded self.old.arenas.items arena.entry self.new.arenas.items) }
        ensures err { IfErr result (λ refusal. IsNotAdded self.old.arenas.items N arena.entry refusal.0) }
        ensures back { IfErr result (λ refusal. refusal.1 ≡ arena.entry) }
        ensures same { OnErr result (self.new.arenas.items ≡ self.old.arenas.items) }
    {
        if arena.has_grants() {
            return Err((AddFault::InUse, arena));
        }
        match gap_among(self.arenas.as_slice(), &arena) {
            Some(place) => match self.arenas.try_insert(place, arena) {
                Ok(()) => Ok(()),
                Err(refusal) => Err((AddFault::NoPlace, refusal.element())),
            },
            None => Err((AddFault::Overlaps, arena)),
        }
    }
}
