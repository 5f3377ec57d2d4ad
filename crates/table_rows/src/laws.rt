//! Laws of row lines, each proved as the contract of a function that does nothing.
ghost use Rattle.table_rows.specs.Laws.{EveryTextEnds, EndsAreUnique, TablesAreDecided};

/// The row lines of every text have an end, and there are rows up to it.
pub fn every_text_ends()
    ensures { EveryTextEnds }
{}

/// No text has two ends of its row lines, or two sets of rows up to the end.
pub fn ends_are_unique()
    ensures { EndsAreUnique }
{}

/// Either all tables of some rows are accepted, or exactly one of them is the first invalid table, with exactly one
/// first fault.
pub fn tables_are_decided()
    ensures { TablesAreDecided }
{}
