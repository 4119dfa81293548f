// The script of a flat system.
ghost use Rattle.std.specs.Prelude.{◌≡◌, ◌≤◌, ◌++◌, [], take, drop, vec_len};
ghost use Rattle.std.specs.List.{list_any};
ghost use Rattle.heap_memory.specs.FlatScript.{overlaps, is_in_bounds, has_place, is_given};

use crate::grant::{Grant, GrantFault};

/// A step of the script of a flat system: what the system does with one request.
#[derive(Clone, Copy, PartialEq, Eq, Debug)]
pub enum FlatStep {
    /// The grant that the request gets, if it is one that the system may give.
    Give {
        /// The address of its first byte.
        base: u64,
        /// The number of its bytes.
        size: u64,
        /// Its flags.
        flags: u32,
    },
    /// The request is denied with this fault.
    Refuse {
        /// The fault.
        fault: GrantFault,
    },
}

impl FlatStep {
    /// Whether it gives a byte that is also one of the grant.
    fn overlaps(&self, grant: &Grant) -> bool
        ensures { result ≡ overlaps grant.now self.now }
    {
        match *self {
            FlatStep::Give { base, size, .. } => {
                if base <= grant.base {
                    grant.size > 0 && grant.base - base < size
                } else {
                    size > 0 && base - grant.base < grant.size
                }
            }
            FlatStep::Refuse { .. } => false,
        }
    }
}

impl Grant {
    /// Whether it is made of units of 16 bytes, from 4096 on and below 2^64.
    fn is_in_bounds(&self) -> bool
        ensures { result ≡ is_in_bounds self.now }
    {
        self.base % 16 == 0
            && self.size % 16 == 0
            && self.base >= 4096
            && self.size <= u64::MAX - self.base
    }

    /// Whether a step gives one of its bytes.
    fn is_overlapped(&self, steps: &[FlatStep]) -> bool
        ensures { result ≡ list_any (λ step. overlaps self.now step) steps.now }
    {
        steps.iter().any(|step| step.overlaps(self))
    }

    /// Whether it is in bounds and has no byte of a Give among the steps.
    pub(crate) fn has_place(&self, before: &[FlatStep]) -> bool
        ensures { result ≡ has_place before.now self.now }
    {
        self.is_in_bounds() && !self.is_overlapped(before)
    }

    /// Whether it is granted to a request for `asked` bytes, after these steps.
    pub(crate) fn is_given(&self, before: &[FlatStep], asked: u64) -> bool
        ensures { result ≡ is_given before.now asked self.now }
    {
        asked <= self.size && self.has_place(before)
    }
}

/// The steps of a system, and how many of them were taken.
#[derive(Drop)]
pub(crate) struct Script {
    steps: Vec<FlatStep>,
    count: usize,
    ghost within: { count ≤ vec_len steps },
}

impl Script {
    ghost use Rattle.heap_memory.specs.Script.{taken_of, left_of};

    /// A script of which no step has been taken.
    pub fn new(steps: Vec<FlatStep>) -> Script
        ensures taken { taken_of result ≡ [] }
        ensures left { left_of result ≡ steps.items }
    {
        Script { steps, count: 0 }
    }

    /// The steps that were taken.
    pub fn taken(&self) -> &[FlatStep]
        ensures { result.now ≡ taken_of self.now }
    {
        &self.steps[..self.count]
    }

    /// The steps that are left.
    pub fn left(&self) -> &[FlatStep]
        ensures { result.now ≡ left_of self.now }
    {
        &self.steps[self.count..]
    }

    /// Takes the next step, if there is one.
    pub fn advance(&mut self)
        ensures taken { taken_of self.new ≡ taken_of self.old ++ take 1 (left_of self.old) }
        ensures left { left_of self.new ≡ drop 1 (left_of self.old) }
    {
        if self.count < self.steps.len() {
            self.count += 1;
        }
    }
}
