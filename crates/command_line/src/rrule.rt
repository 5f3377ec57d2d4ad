//! The words of `rrule`.
ghost use Rattle.std.specs.Prelude.{◌≡◌, Some};
ghost use Rattle.std.specs.Option.{option_map};
ghost use Rattle.cal_types.specs.Bag.{bag_of};
ghost use Rattle.request_lines.specs.Reading.{IsReading};
ghost use Rattle.command_line.specs.RruleAsked.{day_before, fields_before, of_fields, rrule_header_read, rrule_of, start_and_rule};
ghost use Rattle.request_lines.specs.Bags.{no_fields};
ghost use Rattle.command_line.specs.CommandWordsLeft.{words_left};

use crate::command_words::{CommandWords, next_int, next_kind};
use cal_kinds::AnyCalendarKind;
use cal_types::DateFields;
use request_lines::read_field;
use word_values::read_int;

/// The arguments of `rrule` before the start: `CAL SHOWN FIRST LAST`.
#[derive(Clone, Copy, Debug)]
pub struct RruleHeader {
    /// The calendar of the rule and of its start.
    pub calendar: AnyCalendarKind,
    /// The second calendar, in which each day is shown too.
    pub shown: AnyCalendarKind,
    /// The first day of the list, as a day number (rata die).
    pub first: i32,
    /// The last day of the list, as a day number.
    pub last: i32,
}

/// The start of a rule.
#[derive(Clone, Copy, Debug)]
pub enum RruleStart<'a> {
    /// A day number.
    Day(i32),
    /// The fields of a date.
    Fields(DateFields<'a>),
}

/// The arguments of `rrule`.
#[derive(Clone, Copy, Debug)]
pub struct RruleWords<'a> {
    /// The arguments before the start.
    pub header: RruleHeader,
    /// The start.
    pub start: RruleStart<'a>,
    /// The text of the rule.
    pub rule: &'a [u8],
}

ghost use Rattle.command_line.specs.RruleSaid.{rrule_header_said, rrule_said, start_said};

/// Reads the arguments before the start. `None` exactly if the next words don't have their form.
#[tactic(auto, unfolding(crate::specs::RruleAsked::rrule_header_read))]
fn read_header(words: &mut CommandWords) -> Option<RruleHeader>
    ensures { let reading = rrule_header_read (words_left words.old) in
        IsReading reading (option_map rrule_header_said result) (words_left words.new) }
{
    let calendar = next_kind(words)?;
    let shown = next_kind(words)?;
    let first = next_int(words)?;
    let last = next_int(words)?;
    Some(RruleHeader {
        calendar,
        shown,
        first,
        last,
    })
}

/// Sets the fields of all words but the last one, from a word on, and returns the last one. `None` if one of them isn't
/// `KEY=VALUE` with a known key and a valid value, or a key occurs twice.
fn read_fields_before<'a>(
    fields: &mut DateFields<'a>,
    first: &'a [u8],
    mut words: CommandWords<'a>,
) -> Option<&'a [u8]>
    ensures { option_map (λ rule. (bag_of fields.new, rule.now)) result
        ≡ fields_before (Some (bag_of fields.old)) first.now (words_left words.entry) }
{
    let mut last = first;
    while let Some(word) = words.next() {
        read_field(fields, last)?;
        last = word;
    }
    Some(last)
}

/// Reads a start of a day, and the rule. `None` if the word is no day number, or not exactly one word is left.
fn read_day<'a>(word: &'a [u8], mut words: CommandWords<'a>) -> Option<(RruleStart<'a>, &'a [u8])>
    ensures { option_map (λ read. (start_said read.0, read.1.now)) result
        ≡ day_before word.now (words_left words.entry) }
{
    let rule = words.next()?;
    if !words.is_done() {
        return None;
    }
    let day = read_int(word)?;
    Some((RruleStart::Day(day), rule))
}

/// Reads a start of fields, and the rule.
fn read_fields<'a>(word: &'a [u8], words: CommandWords<'a>) -> Option<(RruleStart<'a>, &'a [u8])>
    ensures { option_map (λ read. (start_said read.0, read.1.now)) result
        ≡ option_map of_fields (fields_before (Some no_fields) word.now (words_left words.entry)) }
{
    let mut fields = DateFields::default();
    let rule = read_fields_before(&mut fields, word, words)?;
    Some((RruleStart::Fields(fields), rule))
}

/// Reads the start and the rule, which are all remaining words.
fn read_start<'a>(mut words: CommandWords<'a>) -> Option<(RruleStart<'a>, &'a [u8])>
    ensures { option_map (λ read. (start_said read.0, read.1.now)) result ≡ start_and_rule (words_left words.entry) }
{
    let word = words.next()?;
    match read_day(word, words) {
        Some(read) => Some(read),
        None => read_fields(word, words),
    }
}

/// Reads the arguments of `rrule`, which are all remaining words. `None` exactly if they don't have this form.
#[tactic(auto, unfolding(crate::specs::RruleAsked::rrule_of))]
pub(crate) fn read_rrule<'a>(mut words: CommandWords<'a>) -> Option<RruleWords<'a>>
    ensures { option_map rrule_said result ≡ rrule_of (words_left words.entry) }
{
    let header = read_header(&mut words)?;
    let (start, rule) = read_start(words)?;
    Some(RruleWords {
        header,
        start,
        rule,
    })
}
