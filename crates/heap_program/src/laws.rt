// Laws of the definitions, which no call needs.
ghost use Rattle.heap_program.specs.LiveBlocks.{HoldsEachBlock};
ghost use Rattle.heap_program.specs.ProcessorRegions.{FindsEachRegion, LeavesEachTable};
ghost use Rattle.heap_program.specs.Spelling.{SpellsOne, RunsSpellOne};

/// An output spells one list of answers: if two lists of answers to the same number of lines are
/// printed alike, each followed by an end text, the lists are equal. Only a `heap` line goes on with an
/// answer. The answers of a run are such a list, so what [`crate::heap_main`] writes at status 0 spells its
/// answers, and no others.
pub fn one_spelling()
    ensures answers { SpellsOne }
    ensures runs { RunsSpellOne }
{}

/// By a processor's own walk over the raw page tables from CR3, each live block lies wholly in present writable
/// pages that hold the bytes last written, and apart from the others. So it is of each machine that stands for a
/// good state: a new one, and one that has answered a call.
pub fn live_blocks()
    ensures { HoldsEachBlock }
{}

/// A processor finds by its own walk from CR3 what the state says: a page exactly if a region holds it, with the
/// region's rights, and no reserved bit. It leaves each entry of the tables as it is: all are accessed, and dirty if
/// they map a page.
pub fn processor_regions()
    ensures regions { FindsEachRegion }
    ensures tables { LeavesEachTable }
{}
