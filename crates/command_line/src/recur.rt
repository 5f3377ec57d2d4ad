//! The words of `recur`.
ghost use Rattle.std.specs.Prelude.{◌≡◌, Some};
ghost use Rattle.std.specs.Option.{option_map};
ghost use Rattle.cal_types.specs.Bag.{bag_of};
ghost use Rattle.request_lines.specs.Reading.{IsReading, next_word};
ghost use Rattle.command_line.specs.Asked.{unit_named, every_of, missing_named, recur_header_read, fields_of};
ghost use Rattle.command_line.specs.CommandWordsLeft.{words_left};

use crate::command_words::{CommandWords, next_int, next_kind};
use cal_kinds::AnyCalendarKind;
use cal_recur::Missing;
use cal_types::{DateDurationUnit, DateFields};
use request_lines::read_field;
use word_values::read_number;

/// The arguments of `recur` before the fields of its start: `CAL SHOWN UNIT EVERY skip|constrain FIRST LAST`.
#[derive(Clone, Copy, Debug)]
pub struct RecurHeader {
    /// The calendar of the start, in which the units are counted.
    pub calendar: AnyCalendarKind,
    /// The second calendar, in which each day is shown too.
    pub shown: AnyCalendarKind,
    /// The unit that is counted.
    pub unit: DateDurationUnit,
    /// The number of units between two occurrences. 0 is invalid.
    pub every: u32,
    /// How to handle an occurrence that doesn't exist in its year or month.
    pub missing: Missing,
    /// The first day of the list, as a day number (rata die).
    pub first: i32,
    /// The last day of the list, as a day number.
    pub last: i32,
}

/// The arguments of `recur`.
#[derive(Clone, Copy, Debug)]
pub struct RecurWords<'a> {
    /// The arguments before the fields.
    pub header: RecurHeader,
    /// The fields of the start.
    pub fields: DateFields<'a>,
}

ghost use Rattle.command_line.specs.CommandSaid.{header_said};

/// Returns the unit that a word names.
pub(crate) fn read_unit(word: &[u8]) -> Option<DateDurationUnit>
    ensures { result ≡ unit_named word.now }
{
    if word == b"years".as_slice() {
        return Some(DateDurationUnit::Years);
    }
    if word == b"months".as_slice() {
        return Some(DateDurationUnit::Months);
    }
    if word == b"weeks".as_slice() {
        return Some(DateDurationUnit::Weeks);
    }
    if word == b"days".as_slice() {
        Some(DateDurationUnit::Days)
    } else {
        None
    }
}

/// Returns the number of a word: one to nine digits.
pub(crate) fn read_every(word: &[u8]) -> Option<u32>
    ensures { result ≡ every_of word.now }
{
    read_number(word, 9)
}

/// Reads a word, `skip` or `constrain`. `None` if it is neither.
pub(crate) fn read_missing(word: &[u8]) -> Option<Missing>
    ensures { result ≡ missing_named word.now }
{
    if word == b"skip".as_slice() {
        return Some(Missing::Skip);
    }
    if word == b"constrain".as_slice() {
        Some(Missing::Constrain)
    } else {
        None
    }
}

/// Returns the unit that the next word names.
fn next_unit(words: &mut CommandWords) -> Option<DateDurationUnit>
    ensures { IsReading (next_word unit_named (words_left words.old)) result (words_left words.new) }
{
    read_unit(words.next()?)
}

/// Returns the number of the next word: one to nine digits.
fn next_every(words: &mut CommandWords) -> Option<u32>
    ensures { IsReading (next_word every_of (words_left words.old)) result (words_left words.new) }
{
    read_every(words.next()?)
}

/// Reads the next word, `skip` or `constrain`.
fn next_missing(words: &mut CommandWords) -> Option<Missing>
    ensures { IsReading (next_word missing_named (words_left words.old)) result (words_left words.new) }
{
    read_missing(words.next()?)
}

/// Reads the arguments before the fields. `None` exactly if the next words don't have their form.
#[tactic(auto, unfolding(crate::specs::Asked::recur_header_read))]
fn read_header(words: &mut CommandWords) -> Option<RecurHeader>
    ensures { let reading = recur_header_read (words_left words.old) in
        IsReading reading (option_map header_said result) (words_left words.new) }
{
    let calendar = next_kind(words)?;
    let shown = next_kind(words)?;
    let unit = next_unit(words)?;
    let every = next_every(words)?;
    let missing = next_missing(words)?;
    let first = next_int(words)?;
    let last = next_int(words)?;
    Some(RecurHeader {
        calendar,
        shown,
        unit,
        every,
        missing,
        first,
        last,
    })
}

/// Sets the fields of all remaining words. `None` if one of them isn't `KEY=VALUE` with a known key and a valid
/// value, or a key occurs twice.
fn read_fields<'a>(fields: &mut DateFields<'a>, mut words: CommandWords<'a>) -> Option<()>
    ensures { option_map (λ _. bag_of fields.new) result
        ≡ fields_of (Some (bag_of fields.old)) (words_left words.entry) }
{
    while let Some(word) = words.next() {
        read_field(fields, word)?;
    }
    Some(())
}

ghost use Rattle.command_line.specs.CommandSaid.{recur_said};
ghost use Rattle.command_line.specs.Asked.{recur_of};

/// Reads the arguments of `recur`, which are all remaining words. `None` exactly if they don't have this form.
#[tactic(auto, unfolding(crate::specs::Asked::recur_of))]
pub(crate) fn read_recur<'a>(mut words: CommandWords<'a>) -> Option<RecurWords<'a>>
    ensures { option_map recur_said result ≡ recur_of (words_left words.entry) }
{
    let header = read_header(&mut words)?;
    let mut fields = DateFields::default();
    read_fields(&mut fields, words)?;
    Some(RecurWords { header, fields })
}
