// A system over plain words.
ghost use Rattle.std.specs.Prelude.{◌≡◌, ℕ, ◌+◌, ◌-◌, ◌%◌, ◌<◌, ◌≤◌, Bool, true, false, ◌&&◌, nat_lt, [], ◌∷◌, ◌++◌, IsTrue, IfOk, IfErr, OnErr, refl, length, take, drop, position, vec_len, vec_capacity};
ghost use Rattle.std.specs.List.{AllByRecursion, list_any, list_all};
ghost use Rattle.std.specs.Int.{is_power_of_two};
ghost use Rattle.heap_memory.specs.Regions.{is_granted, with_grant, are_ordered, are_whole};
ghost use Rattle.heap_memory.specs.FlatScript.{gives, is_promised};
ghost use Rattle.heap_memory.specs.Script.{taken_of, left_of};
ghost use Rattle.heap_memory.specs.FlatWords.{is_held, word_in, are_aligned};
ghost use Rattle.heap_memory.specs.Runs.{without_run};

use crate::flat_release::give_back;
use crate::flat_script::{FlatStep, Script};
use crate::flat_words::{FlatWords, Stretch};
use crate::grant::{Grant, GrantFault};
use crate::steps::Steps;
use crate::{Allocator, Links, Memory};
use std::alloc::{AllocError, Global};
use std::sync::ledger::Ledger;

/// A system whose grants stand in a script: each request takes its next step. Its words are zero until they are stored,
/// and are made with the system, so no request needs memory.
///
/// A Give is granted with its flags, whatever they are, if it is as long as asked, its base and size are multiples of
/// 16, its base is at least 4096 and its end below 2^64, and no byte of it is in a Give before it (granted or not). Any
/// other Give is denied as `NoSpace`, and so is a request past the end of the script.
#[derive(Drop)]
pub struct FlatSystem {
    script: Script,
    regions: Vec<Grant>,
    words: FlatWords,
    frees: bool,
    parts: bool,
    page: u64,
    ghost room: { vec_len regions + length (left_of script) ≤ vec_capacity regions },
    ghost promised: { (at : ℕ) → IsTrue (is_promised (taken_of script) (left_of script) at) → IsTrue (is_held words.stretches.items at) },
    ghost held: { (at : ℕ) → IsTrue (is_granted regions.items at) → IsTrue (is_held words.stretches.items at) },
    ghost given: { (at : ℕ) → IsTrue (is_granted regions.items at) → IsTrue (list_any (λ step. gives at step) (taken_of script)) },
    ghost zero: { (at : ℕ) → at % 8 ≡ 0 → IsTrue (is_held words.stretches.items at) → list_any (λ step. gives at step) (taken_of script) ≡ false
        → word_in words.stretches.items words.words.items at ≡ 0 },
    ghost ordered: { IsTrue (are_ordered regions.items) },
    ghost whole: { IsTrue (are_whole regions.items) },
    ghost some: { IsTrue (list_all (λ region. nat_lt 0 region.size) regions.items) },
    ghost power: { IsTrue (is_power_of_two page) },
}

impl FlatSystem {
    ghost use Rattle.heap_memory.specs.FlatSystem.{IsSameKind, regions_of};
    ghost use Rattle.heap_memory.specs.FlatScript.{next_answer};

    /// A system with this script. `frees` is what `free` and `free_part` answer, `parts` what `can_release_part` answers,
    /// and `page` what `page_size` answers, a power of two.
    pub fn new(
        alloc: Global,
        script: Vec<FlatStep>,
        frees: bool,
        parts: bool,
        page: u64,
    ) -> Result<FlatSystem, AllocError>
        requires { IsTrue (is_power_of_two page) }
        ensures taken { IfOk result (λ system. taken_of system.script ≡ []) }
        ensures left { IfOk result (λ system. left_of system.script ≡ script.items) }
        ensures regions { IfOk result (λ system. regions_of system ≡ []) }
        ensures frees { IfOk result (λ system. system.frees ≡ frees) }
        ensures parts { IfOk result (λ system. system.parts ≡ parts) }
        ensures page { IfOk result (λ system. system.page ≡ page) }
    {
        let words = FlatWords::new(alloc, stretches_of(alloc, &script)?)?;
        let mut regions = Vec::new(alloc);
        regions.reserve(script.len())?;
        Ok(FlatSystem {
            script: Script::new(script),
            regions,
            words,
            frees,
            parts,
            page,
        })
    }

    /// What the next step answers to a request.
    fn answer(&self, size: u64) -> Result<Grant, GrantFault>
        ensures { result ≡ next_answer (taken_of self.now.script) (left_of self.now.script) size }
    {
        match self.script.left().first() {
            Some(
                &FlatStep::Give {
                    base,
                    size: given,
                    flags,
                },
            ) => {
                let grant = Grant {
                    base,
                    size: given,
                    flags,
                };
                if grant.is_given(self.script.taken(), size) {
                    Ok(grant)
                } else {
                    Err(GrantFault::NoSpace)
                }
            }
            Some(&FlatStep::Refuse { fault }) => Err(fault),
            None => Err(GrantFault::NoSpace),
        }
    }

    /// Gives back the bytes from `low` on and below `high`, the end of a run, if the system takes regions back.
    fn release(&mut self, low: u64, high: u64) -> bool
        requires { low % 16 ≡ 0 }
        ensures answer { result ≡ self.old.frees }
        ensures regions { result ≡ true → regions_of self.new ≡ without_run low high (regions_of self.old) }
        ensures words { self.new.words ≡ self.old.words }
        ensures script { self.new.script ≡ self.old.script }
        ensures kind { IsSameKind self.old self.new }
        ensures same { result ≡ false → self.new ≡ self.old }
    {
        if self.frees {
            give_back(&mut self.regions, low, high);
        }
        self.frees
    }
}

/// A stretch of words for each Give of the script that has a place of its own.
fn stretches_of(alloc: Global, script: &[FlatStep]) -> Result<Vec<Stretch>, AllocError>
    ensures aligned { IfOk result (λ stretches. IsTrue (are_aligned stretches.items)) }
    ensures promised { IfOk result (λ stretches. (at : ℕ) → IsTrue (is_promised [] script.now at) → IsTrue (is_held stretches.items at)) }
{
    let mut stretches = Vec::new(alloc);
    for (i, step) in script.iter().enumerate() {
        if let FlatStep::Give { base, size, flags } = *step {
            let grant = Grant { base, size, flags };
            if grant.has_place(&script[..i]) {
                stretches.push(Stretch {
                    base,
                    count: size / 8,
                })?;
            }
        }
    }
    Ok(stretches)
}

/// The index of the first region with a greater base.
fn first_above(regions: &[Grant], base: u64) -> Option<usize>
    ensures { result ≡ position (λ region. nat_lt base region.base) regions.now }
{
    regions.iter().position(|region| base < region.base)
}

/// Puts a region at its place among regions by ascending base. There is room for it.
fn add_region(regions: &mut Vec<Grant>, grant: Grant)
    requires { vec_len regions.old < vec_capacity regions.old }
    ensures items { regions.new.items ≡ with_grant grant regions.old.items }
    ensures len { vec_len regions.new ≡ vec_len regions.old + 1 }
    ensures capacity { vec_capacity regions.old ≤ vec_capacity regions.new }
{
    let place = first_above(regions, grant.base).unwrap_or(regions.len());
    match regions.insert(place, grant) {
        Ok(()) => (),
        Err(_) => unreachable!(),
    }
}

impl Links for FlatSystem {
    ghost use Rattle.heap_memory.specs.FlatSystem.{IsAfter, after_none, after_on, regions_of, word_of};
    ghost use Rattle.heap_memory.specs.Regions.{IsWordOf};
    ghost use Rattle.heap_memory.specs.Words.{IsStored};

    ghost regions = { λ system. regions_of system };

    ghost word = { λ system at. word_of system at };

    ghost whole = { λ system. system.whole };

    ghost follows = { λ old events new. IsAfter old events new };

    ghost follows_none = { λ x. after_none x };

    ghost follows_on = { λ x y z a b c first second is. after_on x y z a b c first second is };

    fn load_counted<L: Ledger>(&self, at: u64, steps: &mut Steps<L>) -> u64 {
        steps.tick();
        self.words.word(at)
    }

    /// Puts a word at an address, and changes nothing else: the script stays where it stands.
    fn store_counted<L: Ledger>(&mut self, at: u64, value: u64, steps: &mut Steps<L>)
        requires { IsWordOf (regions_of self.old) at }
        ensures stored { IsStored (regions_of self.old) (word_of self.old) at value (word_of self.new) }
        ensures regions { self.new.regions ≡ self.old.regions }
        ensures follows { IsAfter self.old [] self.new }
        ensures counted { steps.new ≡ steps.old + 1 }
        ensures script { self.new.script ≡ self.old.script }
    {
        self.words.set_word(at, value);
        steps.tick()
    }
}

impl Memory for FlatSystem {
    ghost use Rattle.heap_memory.specs.FlatSystem.{IsAfter, regions_of, word_of};
    ghost use Rattle.heap_memory.specs.Regions.{IsWordOf};
    ghost use Rattle.heap_memory.specs.Words.{IsStored};

    fn load(&self, at: u64) -> u64 {
        self.words.word(at)
    }

    /// Puts a word at an address, and changes nothing else: the script stays where it stands.
    fn store(&mut self, at: u64, value: u64)
        requires { IsWordOf (regions_of self.old) at }
        ensures stored { IsStored (regions_of self.old) (word_of self.old) at value (word_of self.new) }
        ensures regions { self.new.regions ≡ self.old.regions }
        ensures follows { IsAfter self.old [] self.new }
        ensures script { self.new.script ≡ self.old.script }
    {
        self.words.set_word(at, value)
    }
}

impl Allocator for FlatSystem {
    ghost use Rattle.heap_memory.specs.FlatSystem.{DeniesNext, regions_of, word_of};
    ghost use Rattle.heap_memory.specs.Events.{Granted, Refused};
    ghost use Rattle.heap_memory.specs.FlatScript.{next_answer};
    ghost use Rattle.heap_memory.specs.Regions.{IsWordOf, IsApart, IsGoodGrant};
    ghost use Rattle.heap_memory.specs.FlatSystem.{IsSameKind, IsAfter, IsStepRefused, refused_none, unit_of, same_fixed};
    ghost use Rattle.heap_memory.specs.Runs.{IsRun, is_in_units};

    ghost denies = { λ system size fault. DeniesNext system size fault };

    ghost zeros = { λ system. true };

    ghost frees = { λ system. system.frees };

    ghost unit = { λ system. unit_of system };

    ghost parts = { λ system. system.parts };

    ghost refuses = { λ old new. IsStepRefused old new };

    ghost refuses_none = { λ system. refused_none system };

    ghost ordered = { λ system. system.ordered };

    ghost fixed = { λ x y events follows. same_fixed x y follows.kind };

    /// What the next step of the script answers, as it stands.
    fn alloc(&mut self, size: u64) -> Result<Grant, GrantFault>
        requires some { 0 < size }
        requires whole { size % 16 ≡ 0 }
        ensures answer { result ≡ next_answer (taken_of self.old.script) (left_of self.old.script) size }
        ensures taken { taken_of self.new.script ≡ taken_of self.old.script ++ take 1 (left_of self.old.script) }
        ensures left { left_of self.new.script ≡ drop 1 (left_of self.old.script) }
        ensures good { IfOk result (λ grant. IsGoodGrant size grant) }
        ensures apart { IfOk result (λ grant. AllByRecursion (IsApart grant.base (grant.base + grant.size)) (regions_of self.old)) }
        ensures regions { IfOk result (λ grant. regions_of self.new ≡ with_grant grant (regions_of self.old)) }
        ensures zeros { IfOk result (λ grant. (at : ℕ) → grant.base ≤ at → at < grant.base + grant.size → at % 8 ≡ 0 → word_of self.new at ≡ 0) }
        ensures words { (at : ℕ) → word_of self.new at ≡ word_of self.old at }
        ensures err { OnErr result (regions_of self.new ≡ regions_of self.old) }
        ensures follows { IfOk result (λ grant. IsAfter self.old (Granted size grant ∷ []) self.new) }
        ensures err_follows { IfErr result (λ fault. IsAfter self.old (Refused size fault ∷ []) self.new) }
        ensures same { IsSameKind self.old self.new }
    {
        let answer = self.answer(size);
        self.script.advance();
        let grant = answer?;
        add_region(&mut self.regions, grant);
        Ok(grant)
    }

    /// Answers `frees`, since its unit is one byte. Its words and its script stay.
    fn free_part(&mut self, at: u64, old_size: u64, new_size: u64) -> bool
        requires run { IsRun (regions_of self.old) at (at + old_size) }
        requires some { 0 < new_size }
        requires within { new_size ≤ old_size }
        requires whole { new_size % 16 ≡ 0 }
        ensures answer { result ≡ is_in_units (unit_of self.old) new_size }
        ensures frees { result ≡ self.old.frees }
        ensures regions { result ≡ true → regions_of self.new ≡ without_run (at + new_size) (at + old_size) (regions_of self.old) }
        ensures words { (k : ℕ) → word_of self.new k ≡ word_of self.old k }
        ensures script { self.new.script ≡ self.old.script }
        ensures kind { IsSameKind self.old self.new }
        ensures same { result ≡ false → self.new ≡ self.old }
    {
        self.release(at + new_size, at + old_size)
    }

    /// Answers `frees`. Its words and its script stay.
    fn free(&mut self, at: u64, size: u64) -> bool
        requires { IsRun (regions_of self.old) at (at + size) }
        ensures answer { result ≡ self.old.frees }
        ensures regions { result ≡ true → regions_of self.new ≡ without_run at (at + size) (regions_of self.old) }
        ensures words { (k : ℕ) → word_of self.new k ≡ word_of self.old k }
        ensures script { self.new.script ≡ self.old.script }
        ensures kind { IsSameKind self.old self.new }
        ensures same { result ≡ false → self.new ≡ self.old }
    {
        self.release(at, at + size)
    }

    fn can_release_part(&self, flags: u32) -> bool {
        self.parts
    }

    fn allocates_zeros(&self) -> bool {
        true
    }

    fn page_size(&self) -> u64
        ensures page { result ≡ self.now.page }
        ensures power { IsTrue (is_power_of_two result) }
    {
        self.page
    }
}
