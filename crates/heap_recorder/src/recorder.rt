// Records a run, as its calls are answered.
ghost use Rattle.std.specs.Prelude.{◌≡◌, ◌++◌, ◌-◌, length, map, take, OnOk};
ghost use Rattle.machine_model.specs.Answer.{slots_of};
ghost use Rattle.heap_recorder.specs.Run.{is_map, large_page, heap_noted, bytes_after, mappings_after, larges_after, refused_after};

use crate::lines::note_line;
use crate::mappings::Mappings;
use crate::note::note_answer;
use crate::regions::{Regions, bytes_of};
use crate::stays::Stays;
use heap_history::{
    History, LargePage, LargePageList, LineList, Moment, MomentList, RefusedCall, RefusedList,
};
use machine_model::{Answer, Call, Region, RegionList, Reply, SlotList};
use run_figures::BlockSizes;
use std::alloc::{AllocError, Global};
use std::marker::Model;

// The heap's regions, if the answer to a call lists them.
fn note_heap(
    alloc: Global,
    regions: &mut Regions,
    number: u64,
    listed: &Option<RegionList>,
) -> Result<(), AllocError>
    ensures { OnOk result (regions.new ≡ heap_noted number listed.now regions.old) }
{
    match listed {
        Some(list) => regions.note(alloc, number, list.as_slice()),
        None => Ok(()),
    }
}

// The bytes of the heap's regions after that answer.
fn bytes_after(listed: &Option<RegionList>, bytes: u128) -> u128
    ensures { result ≡ bytes_after listed.now bytes }
{
    match listed {
        Some(list) => bytes_of(list.as_slice()),
        None => bytes,
    }
}

// How many slots an answer lists.
fn slot_count(large: &Option<SlotList>) -> u64
    ensures { result ≡ length (slots_of large.now) }
{
    match large {
        Some(list) => list.len(),
        None => 0,
    }
}

// The user's regions after the answer to a call.
fn note_mapping(
    mappings: &mut Mappings,
    number: u64,
    call: &Call,
    answer: &Answer,
) -> Result<(), AllocError>
    ensures { OnOk result (mappings.new ≡ mappings_after number call.now answer.now.reply (slots_of answer.now.large) mappings.old) }
{
    match (call, &answer.reply) {
        (
            Call::Map {
                start,
                pages,
                rights,
            },
            Reply::Done,
        ) => {
            let region = Region {
                start: *start,
                pages: *pages,
                heap: false,
                rights: *rights,
            };
            return mappings.map(number, region, slot_count(&answer.large));
        }
        (Call::Unmap { start, pages }, Reply::Done) => mappings.unmap(number, *start, *pages),
        _ => {}
    }
    Ok(())
}

// Whether a call maps pages of the user.
fn is_map(call: &Call) -> bool
    ensures { result ≡ is_map call.now }
{
    match call {
        Call::Map { .. } => true,
        _ => false,
    }
}

// Puts slots that a call made large at the end, until there are 200.
fn push_large(large: &mut LargePageList, number: u64, slots: &[u64]) -> Result<(), AllocError>
    ensures { OnOk result (large.new ≡ large.old ++ map (large_page number) (take (200 - length large.old) slots.now)) }
{
    let room = 200u64.saturating_sub(large.len()) as usize;
    let count = room.min(slots.len());
    for slot in &slots[..count] {
        large.push(LargePage {
            slot: *slot,
            born: number,
        })?;
    }
    Ok(())
}

// The heap's large pages after the answer to a call.
fn note_large(
    large: &mut LargePageList,
    number: u64,
    call: &Call,
    listed: &Option<SlotList>,
) -> Result<(), AllocError>
    ensures { OnOk result (large.new ≡ larges_after number (is_map call.now) (slots_of listed.now) large.old) }
{
    if is_map(call) {
        return Ok(());
    }
    match listed {
        Some(list) => push_large(large, number, list.as_slice()),
        None => Ok(()),
    }
}

fn note_refused(refused: &mut RefusedList, number: u64, reply: &Reply) -> Result<(), AllocError>
    ensures { OnOk result (refused.new ≡ refused_after number reply.now refused.old) }
{
    match reply {
        Reply::Refused(cause) => refused.push(RefusedCall {
            call: number,
            cause: *cause,
        }),
        _ => Ok(()),
    }
}

/// What a run did so far. Each call and its answer is noted in turn, in constant time beside the lists that the answer
/// brings; a reset goes over the blocks of the calls since the one before.
#[derive(Drop)]
pub struct Recorder {
    alloc: Global,
    stays: Stays,
    regions: Regions,
    mappings: Mappings,
    large: LargePageList,
    sizes: BlockSizes,
    bytes: u128,
    moments: MomentList,
    refused: RefusedList,
    lines: LineList,
}

impl Model for Recorder {
    ghost use Rattle.heap_recorder.specs.Run.{Notes};

    ghost Value = { Notes };

    ghost view = { λ all. record {
      stays = all.stays;
      regions = all.regions;
      mappings = all.mappings;
      large = all.large;
      sizes = all.sizes;
      bytes = all.bytes;
      moments = all.moments;
      refused = all.refused;
      lines = all.lines;
    } };
}

impl Recorder {
    ghost use Rattle.std.specs.Prelude.{◌≡◌, ◌++◌, ◌∷◌, [], List, OnOk, IfOk};
    ghost use Rattle.machine_model.specs.declared.answer.Answer.{Answer};
    ghost use Rattle.machine_model.specs.declared.call.Call.{Call};
    ghost use Rattle.heap_recorder.specs.Run.{IsRecordOf, nothing, noted, history_in, history_of};

    /// No call was made yet.
    pub fn new(alloc: Global) -> Recorder
        ensures value { result ≡ nothing }
        ensures records { IsRecordOf result [] [] }
    {
        Recorder {
            alloc,
            stays: Stays::new(alloc),
            regions: Regions::new(alloc),
            mappings: Mappings::new(alloc),
            large: LargePageList::new(alloc),
            sizes: BlockSizes::new(alloc),
            bytes: 0,
            moments: MomentList::new(alloc),
            refused: RefusedList::new(alloc),
            lines: LineList::new(alloc),
        }
    }

    fn add(&mut self, call: &Call, answer: &Answer) -> Result<(), AllocError>
        ensures { OnOk result (self.new ≡ noted self.old call.now answer.now) }
    {
        let number = self.moments.len();
        self.stays.note(number, call, &answer.reply)?;
        note_heap(self.alloc, &mut self.regions, number, &answer.regions)?;
        note_mapping(&mut self.mappings, number, call, answer)?;
        note_large(&mut self.large, number, call, &answer.large)?;
        note_answer(&mut self.sizes, call, &answer.reply)?;
        self.bytes = bytes_after(&answer.regions, self.bytes);
        note_refused(&mut self.refused, number, &answer.reply)?;
        note_line(self.alloc, &mut self.lines, number, call)?;
        self.moments.push(Moment {
            live: self.sizes.sum(),
            heap: self.bytes,
        })
    }

    /// Notes the next call and its answer.
    pub fn note(&mut self, call: &Call, answer: &Answer) -> Result<(), AllocError>
        ensures value { OnOk result (self.new ≡ noted self.old call.now answer.now) }
        ensures records { OnOk result ((calls : List Call) (answers : List Answer) → IsRecordOf self.old calls answers → IsRecordOf self.new (calls ++ call.now ∷ []) (answers ++ answer.now ∷ [])) }
    {
        self.add(call, answer)
    }

    /// The history of the run.
    pub fn history(self) -> Result<History, AllocError>
        ensures value { IfOk result (λ history. history ≡ history_in self) }
        ensures records { IfOk result (λ history. (calls : List Call) (answers : List Answer) → IsRecordOf self calls answers → history ≡ history_of calls answers) }
    {
        let calls = self.moments.len();
        let Recorder {
            stays,
            regions,
            mappings,
            large,
            moments,
            refused,
            lines,
            ..
        } = self;
        Ok(History {
            stays: stays.finish(calls),
            heap: regions.finish(calls)?,
            users: mappings.finish(calls),
            large,
            moments,
            refused,
            lines,
        })
    }
}
