// What the definitions of a picture come to.
ghost use Rattle.heap_picture.specs.Blocks.{EachBlockHasItsName};
ghost use Rattle.heap_picture.specs.Lines.{EachIsInOneLine};
ghost use Rattle.heap_picture.specs.Owners.{EachPageHasItsOwner};

use heap_recorder::each_block_is_drawn_once;
use heap_tables::each_page_is_in_its_line;

/// Each region is in one line: a line is a run of neighbours, and the lines have the pages of the regions, in order.
pub fn each_region_is_in_one_line()
    ensures { EachIsInOneLine }
{}

/// Each page of a line of the page tables of a machine lies in a region, whose owner is that which the line says.
pub fn each_page_has_its_owner()
    ensures { EachPageHasItsOwner }
{
    each_page_is_in_its_line();
}

/// Each live block has its name: in a run from a new machine the map calls the block at an address by a number and a size exactly
/// if in the last state the block of that number is live, at the address and with the size.
pub fn each_block_has_its_name()
    ensures { EachBlockHasItsName }
{
    each_block_is_drawn_once();
}
