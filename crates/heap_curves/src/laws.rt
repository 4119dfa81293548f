// What the definitions of the curves come to.
ghost use Rattle.heap_curves.specs.Columns.{ColumnsMeetTheMost};

/// Nothing is lost between columns: the most that they have is the most that there was after any call.
pub fn columns_meet_the_most()
    ensures { ColumnsMeetTheMost }
{}
