//! The words of `anniversary`.
ghost use Rattle.std.specs.Prelude.{◌≡◌};
ghost use Rattle.std.specs.Option.{option_map};
ghost use Rattle.request_lines.specs.Reading.{IsReading, next_word};
ghost use Rattle.command_line.specs.Asked.{leaping_named, anniversary_read};
ghost use Rattle.command_line.specs.CommandWordsLeft.{words_left};

use crate::command_words::{CommandWords, next_byte, next_int, next_kind, next_month};
use cal_kinds::AnyCalendarKind;
use cal_types::{Leaping, Month};

/// The arguments of `anniversary`: `CAL SHOWN exact|constrain CODE DAY FIRST LAST`.
#[derive(Clone, Copy, Debug)]
pub struct AnniversaryWords {
    /// The calendar of the month and the day.
    pub calendar: AnyCalendarKind,
    /// The second calendar, in which each day is shown too.
    pub shown: AnyCalendarKind,
    /// How to handle a year in which the month or the day doesn't exist.
    pub leaping: Leaping,
    /// The month.
    pub month: Month,
    /// The day of the month.
    pub day: u8,
    /// The first day of the list, as a day number (rata die).
    pub first: i32,
    /// The last day of the list, as a day number.
    pub last: i32,
}

ghost use Rattle.command_line.specs.CommandSaid.{anniversary_said};

/// Reads a word, `exact` or `constrain`. `None` if it is neither.
pub(crate) fn read_leaping(word: &[u8]) -> Option<Leaping>
    ensures { result ≡ leaping_named word.now }
{
    if word == b"exact".as_slice() {
        return Some(Leaping::Exact);
    }
    if word == b"constrain".as_slice() {
        Some(Leaping::Constrain)
    } else {
        None
    }
}

/// Reads the next word, `exact` or `constrain`.
fn next_leaping(words: &mut CommandWords) -> Option<Leaping>
    ensures { IsReading (next_word leaping_named (words_left words.old)) result (words_left words.new) }
{
    read_leaping(words.next()?)
}

/// Reads the arguments of `anniversary`. `None` exactly if the next words don't have their form.
#[tactic(auto, unfolding(crate::specs::Asked::anniversary_read))]
pub(crate) fn read_anniversary(words: &mut CommandWords) -> Option<AnniversaryWords>
    ensures { let reading = anniversary_read (words_left words.old) in
        IsReading reading (option_map anniversary_said result) (words_left words.new) }
{
    let calendar = next_kind(words)?;
    let shown = next_kind(words)?;
    let leaping = next_leaping(words)?;
    let month = next_month(words)?;
    let day = next_byte(words)?;
    let first = next_int(words)?;
    let last = next_int(words)?;
    Some(AnniversaryWords {
        calendar,
        shown,
        leaping,
        month,
        day,
        first,
        last,
    })
}
