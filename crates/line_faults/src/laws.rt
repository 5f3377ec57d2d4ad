//! The law of first faults, proved as the contract of a function that does nothing.
ghost use Rattle.line_faults.specs.FirstFaults.{FaultsAreFirst};

/// A line has no fault exactly if it is a request or a row. Otherwise the words before the fault begin a request or a
/// row, and the bad word goes on none of those that begin so; or the line ends there, and is neither.
///
/// The words are those of a line: without spaces and line feeds.
pub fn faults_are_first()
    ensures { FaultsAreFirst }
{}
