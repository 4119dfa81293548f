//! Laws above the definitions of the walk and of the tree rule. Each function does nothing: its contract
//! is the law.

ghost use Rattle.paging_core.specs.Laws.{WalkStepsByIndices, PrefixesAreOfPages, OnePageForAFrame, NoPageAtAFreeFrame, MappingCommutes, PlacesCountPages, GivingKeepsTheTree, MappedByATable, MappedInALargePage, ProcessorsWalkAlike, AreaWalksAlike, NoEntryIsMarked, NoEntryHasPat};

/// The walk of a page goes from the root by the page's four indices, or ends after three of them in a large page.
pub fn walk_steps_by_indices()
    ensures { WalkStepsByIndices }
{}

/// The index prefixes of a range are those of its pages.
pub fn prefixes_are_of_pages()
    ensures { PrefixesAreOfPages }
{}

/// Under the tree rule no frame is reached by two pages.
pub fn one_page_for_a_frame()
    ensures { OnePageForAFrame }
{}

/// Under the tree rule no free frame is reached by a page.
pub fn no_page_at_a_free_frame()
    ensures { NoPageAtAFreeFrame }
{}

/// Two pages may be mapped in either order: every page's walk is the same in the end.
pub fn mapping_commutes()
    ensures { MappingCommutes }
{}

/// The place of a page in the order of addresses is the count of the pages below it.
pub fn places_count_pages()
    ensures { PlacesCountPages }
{}

/// Under the tree rule a frame that no walk meets may be given back.
pub fn giving_keeps_the_tree()
    ensures { GivingKeepsTheTree }
{}

/// A page that is mapped, and in no large page, has an entry in the table of its slot.
pub fn mapped_by_a_table()
    ensures { MappedByATable }
{}

/// A slot with a large page has no table, and its pages are those of the large page.
pub fn mapped_in_a_large_page()
    ensures { MappedInALargePage }
{}

/// Over plain entries a processor's walk is `walk_of`: it ends at the same page with the same rights, or finds none. The
/// page's frame lies in the memory, and no reserved bit ends the walk.
pub fn processors_walk_alike()
    ensures { ProcessorsWalkAlike }
{}

/// Tables in an area: whatever else the machine's memory holds, a processor finds exactly the pages of the tables, and no
/// reserved bit ends a walk.
pub fn area_walks_alike()
    ensures { AreaWalksAlike }
{}

/// Over plain entries a processor writes to no table: each entry by which it may walk is accessed already, and dirty if it
/// maps a page.
pub fn no_entry_is_marked()
    ensures { NoEntryIsMarked }
{}

/// Over plain entries the type of a page is one of the first four of the processor's table of types.
pub fn no_entry_has_pat()
    ensures { NoEntryHasPat }
{}
