// What a flat system takes back.
ghost use Rattle.std.specs.Prelude.{◌≡◌, ◌≤◌, ◌%◌, true, vec_len, vec_capacity};
ghost use Rattle.heap_memory.specs.Runs.{begins_in, up_to, without_run};

use crate::flat_system::FlatSystem;
use crate::grant::Grant;

impl Grant {
    /// Whether it begins among the bytes from `low` on and below `high`.
    fn begins_in(&self, low: u64, high: u64) -> bool
        ensures { result ≡ begins_in low high self.now }
    {
        low <= self.base && self.base < high
    }

    /// It, or the part in front of a place that is in it.
    fn up_to(&self, place: u64) -> Grant
        ensures { result ≡ up_to place self.now }
    {
        if self.base < place && place - self.base < self.size {
            Grant {
                size: place - self.base,
                ..*self
            }
        } else {
            *self
        }
    }
}

/// Takes the bytes from `low` on and below `high`, the end of a run, out of the regions.
pub(crate) fn give_back(regions: &mut Vec<Grant>, low: u64, high: u64)
    ensures items { regions.new.items ≡ without_run low high regions.old.items }
    ensures len { vec_len regions.new ≤ vec_len regions.old }
    ensures capacity { vec_capacity regions.new ≡ vec_capacity regions.old }
{
    regions.retain(|region| !region.begins_in(low, high));
    for i in 0..regions.len() {
        regions[i] = regions[i].up_to(low);
    }
}
