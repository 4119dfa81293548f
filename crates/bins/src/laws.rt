//! Laws above the definition of the index. Each function does nothing: its contract is the law.

ghost use Rattle.bins.specs.Laws.{IndexStays, OneIndex, BitsLead};

/// Stores outside the words of its chunks leave an index as it is. So do grants, and the end of grants that have none of
/// these words.
pub fn law_index_stays()
    ensures { IndexStays }
{}

/// The memory determines its index.
pub fn one_index()
    ensures { OneIndex }
{}

/// Each node of a trie lies where the bits of its size lead, as in dlmalloc: halving a range of sizes follows the bits.
pub fn bits_lead()
    ensures { BitsLead }
{}
