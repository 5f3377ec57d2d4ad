//! The law of first faults, proved as the contract of a function that does nothing.
ghost use Rattle.command_line.specs.FirstFaults.{FaultsAreFirst};

/// A command line has no fault exactly if it names a command. Otherwise the words before the fault begin a command, and
/// the bad word goes on none of those that begin so; or the command line ends there, and names no command. Commands that
/// begin so go on only with words that may stand there, by the part that the fault names.
pub fn faults_are_first()
    ensures { FaultsAreFirst }
{}
