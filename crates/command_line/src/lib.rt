//! The words of the program's command line: the command that they name, or the first bad word.
//!
//! Start with [`read_command`]. Each command has a file with the form of its words. [`command_fault`] returns the place of
//! the first bad word, with what may stand there. [`laws`] has the proof that there is a fault exactly if the words name no
//! command, that the words before it begin a command, and that no command begins with the bad word after them.
#![tactic(auto)]

mod anniversary;
mod command;
mod command_words;
mod convert;
mod faults;
mod holidays;
pub mod laws;
mod part;
mod place;
mod recur;
mod rrule;

pub use anniversary::AnniversaryWords;
pub use command::{Command, read_command, read_command_text};
pub use convert::ConvertWords;
pub use faults::{CommandFault, command_fault, command_text_fault};
pub use holidays::HolidayWords;
pub use part::{Argument, CommandPart};
pub use recur::{RecurHeader, RecurWords};
pub use rrule::{RruleHeader, RruleStart, RruleWords};
