//! The first fault of a command line.
ghost use Rattle.std.specs.Prelude.{◌≡◌, ◌≤◌, length, map, string_bytes};
ghost use Rattle.command_line.specs.CommandWordsLeft.{words_left};
ghost use Rattle.command_line.specs.Faults.{first_fault};
ghost use Rattle.command_line.specs.SpacedWords.{words_in};

use crate::command_words::CommandWords;
use crate::part::CommandPart;
use crate::place::{Place, may_end, part, step};

/// The first fault of a command line.
#[derive(Clone, Copy, Debug, PartialEq, Eq)]
pub struct CommandFault {
    /// The number of the first bad word, counted from 1. If a word is missing, this is one more than the number of words.
    pub word: usize,
    /// What may stand there.
    pub part: CommandPart,
}

/// Returns the first fault of all remaining words, counted from the first of them.
fn fault_of(mut words: CommandWords) -> Option<CommandFault>
    requires { length (words_left words) ≤ 9223372036854775808 }
    ensures { result ≡ first_fault (words_left words.entry) }
{
    let mut place = Place::First;
    let mut count = 0usize;
    'words: loop {
        let Some(word) = words.next() else {
            break;
        };
        count += 1;
        match step(&place, word) {
            Some(next) => place = next,
            None => {
                return Some(CommandFault {
                    word: count,
                    part: part(&place),
                });
            }
        }
    }
    if may_end(&place) {
        None
    } else {
        Some(CommandFault {
            word: count + 1,
            part: part(&place),
        })
    }
}

/// Returns the first fault of the words of a command line, or `None` if they name a command.
pub fn command_fault(words: &[String]) -> Option<CommandFault>
    ensures { result ≡ first_fault (map string_bytes words.now) }
{
    fault_of(CommandWords::new(words))
}

/// Returns the first fault of a command line in one text, with a single space between two words. `None` if its words
/// name a command.
pub fn command_text_fault(words: &str) -> Option<CommandFault>
    ensures { result ≡ first_fault (words_in words.now) }
{
    fault_of(CommandWords::of_text(words))
}
