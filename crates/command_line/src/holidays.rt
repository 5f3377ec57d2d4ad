//! The words of `holidays`.
ghost use Rattle.std.specs.Option.{option_map};
ghost use Rattle.request_lines.specs.Reading.{IsReading};
ghost use Rattle.command_line.specs.Asked.{holidays_read};
ghost use Rattle.command_line.specs.CommandWordsLeft.{words_left};

use crate::command_words::{CommandWords, next_int};

/// The arguments of `holidays`: `FIRST LAST`.
#[derive(Clone, Copy, Debug)]
pub struct HolidayWords {
    /// The first day of the list, as a day number (rata die).
    pub first: i32,
    /// The last day of the list, as a day number.
    pub last: i32,
}

ghost use Rattle.command_line.specs.CommandSaid.{holidays_said};

/// Reads the arguments of `holidays`. `None` exactly if the next words don't have their form.
#[tactic(auto, unfolding(crate::specs::Asked::holidays_read))]
pub(crate) fn read_holidays(words: &mut CommandWords) -> Option<HolidayWords>
    ensures { let reading = holidays_read (words_left words.old) in
        IsReading reading (option_map holidays_said result) (words_left words.new) }
{
    let first = next_int(words)?;
    let last = next_int(words)?;
    Some(HolidayWords { first, last })
}
