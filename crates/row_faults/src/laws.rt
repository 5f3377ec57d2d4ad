//! Laws of faults, each proved as the contract of a function that does nothing.
ghost use Rattle.row_faults.specs.Refusals.{EndsAgree, FaultsAreMissingYears, RowLinesAgree};

/// The row of a row line has a fault exactly if no year, and no list of eras, is that of the row.
pub fn faults_are_missing_years()
    ensures { FaultsAreMissingYears }
{}

/// A row line behind some rows has no fault if its row is kept, and then the stage behind it is that of the rows. If it
/// is refused, it has a fault, which is of the kind for which it is refused.
pub fn row_lines_agree()
    ensures { RowLinesAgree }
{}

/// If the row lines of a text end at an invalid one, it is the first line with a fault, which is of the kind for which the
/// line is invalid. If they end at another line, no line before it has a fault, and every row line behind it is too late.
pub fn ends_agree()
    ensures { EndsAgree }
{}
