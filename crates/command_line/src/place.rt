//! The places of a command line, and what a word makes of each.
ghost use Rattle.std.specs.Prelude.{◌≡◌, Some, None, if◌then◌else◌};
ghost use Rattle.std.specs.Option.{is_some, option_map};
ghost use Rattle.cal_types.specs.Bag.{bag_of};
ghost use Rattle.cal_types.specs.Month.{month_read};
ghost use Rattle.request_lines.specs.Bags.{no_fields, with_whole_word};
ghost use Rattle.word_values.specs.Numbers.{int_of};
ghost use Rattle.command_line.specs.Forms.{form_of, is_argument as is_argument_by};
ghost use Rattle.command_line.specs.Places.{AtEnd, AtHolidays, InFields, behind_field, behind_start, form_place, may_end as may_end_at, part_of, place_of, step as step_by};

use crate::anniversary::read_leaping;
use crate::command::read_count;
use crate::convert::read_overflow;
use crate::part::{Argument, Behind, CommandPart};
use crate::recur::{read_every, read_missing, read_unit};
use cal_kinds::AnyCalendarKind;
use cal_types::DateFields;
use request_lines::read_field;
use word_values::{read_byte, read_int, read_month_code};

/// A place of a command line, with what is known of the words before it.
#[derive(Clone, Copy)]
pub(crate) enum Place<'a> {
    /// Before the first word.
    First,
    /// Before an argument, and what follows it.
    Before(Argument, &'static [Argument], Behind),
    /// Before another field, behind these.
    Fields(DateFields<'a>),
    /// Before the start of a rule.
    Start,
    /// Behind a word that is the rule if it is the last one.
    BehindStart(&'a [u8]),
    /// Behind fields and a word that is the rule if it is the last one.
    BehindField(DateFields<'a>, &'a [u8]),
    /// Behind `explain`.
    Holidays,
    /// Behind all words.
    End,
}

ghost use Rattle.command_line.specs.PlaceSaid.{place_said};

/// Returns the arguments of a command, and what stands behind them.
fn form(name: &[u8]) -> Option<(&'static [Argument], Behind)>
    ensures { option_map (λ form. (form.0.now, form.1)) result ≡ form_of name.now }
{
    if name == b"span".as_slice() {
        return Some((&[], Behind::End));
    }
    if name == b"gen".as_slice() {
        return Some((&[Argument::Count], Behind::End));
    }
    if name == b"anniversary".as_slice() {
        return Some((
            &[
                Argument::Calendar,
                Argument::Calendar,
                Argument::Leaping,
                Argument::MonthCode,
                Argument::DayOfMonth,
                Argument::DayNumber,
                Argument::DayNumber,
            ],
            Behind::End,
        ));
    }
    if name == b"recur".as_slice() {
        return Some((
            &[
                Argument::Calendar,
                Argument::Calendar,
                Argument::Unit,
                Argument::Every,
                Argument::Missing,
                Argument::DayNumber,
                Argument::DayNumber,
            ],
            Behind::Fields,
        ));
    }
    if name == b"rrule".as_slice() {
        return Some((
            &[
                Argument::Calendar,
                Argument::Calendar,
                Argument::DayNumber,
                Argument::DayNumber,
            ],
            Behind::StartAndRule,
        ));
    }
    if name == b"holidays".as_slice() {
        return Some((&[Argument::DayNumber, Argument::DayNumber], Behind::End));
    }
    if name == b"convert".as_slice() {
        return Some((
            &[Argument::Calendar, Argument::Calendar, Argument::Overflow],
            Behind::End,
        ));
    }
    if name == b"explain".as_slice() {
        return Some((&[], Behind::Holidays));
    }
    None
}

/// Returns whether a word is a month code.
fn is_month_code(word: &[u8]) -> bool
    ensures { result ≡ is_some (month_read word.now) }
{
    match read_month_code(word) {
        Some(_) => true,
        None => false,
    }
}

/// Returns whether a word may be an argument.
fn is_argument(argument: Argument, word: &[u8]) -> bool
    ensures { result ≡ is_argument_by argument word.now }
{
    match argument {
        Argument::Count => read_count(word).is_some(),
        Argument::Calendar => AnyCalendarKind::from_program_name(word).is_some(),
        Argument::Leaping => read_leaping(word).is_some(),
        Argument::MonthCode => is_month_code(word),
        Argument::DayOfMonth => read_byte(word).is_some(),
        Argument::DayNumber => read_int(word).is_some(),
        Argument::Unit => read_unit(word).is_some(),
        Argument::Every => read_every(word).is_some(),
        Argument::Missing => read_missing(word).is_some(),
        Argument::Overflow => read_overflow(word).is_some(),
    }
}

/// Returns the place before these arguments and what stands behind them.
fn before<'a>(arguments: &'static [Argument], behind: Behind) -> Place<'a>
    ensures { place_said result ≡ place_of arguments.now behind }
{
    match arguments.split_first() {
        Some((argument, rest)) => Place::Before(*argument, rest, behind),
        None => match behind {
            Behind::End => Place::End,
            Behind::Fields => Place::Fields(none_yet()),
            Behind::StartAndRule => Place::Start,
            Behind::Holidays => Place::Holidays,
        },
    }
}

/// Returns the place behind the name of a command.
fn after_name<'a>(name: &'a [u8]) -> Option<Place<'a>>
    ensures { option_map place_said result ≡ option_map form_place (form_of name.now) }
{
    let (arguments, behind) = form(name)?;
    Some(before(arguments, behind))
}

/// Returns the place behind an argument.
fn after_argument<'a>(
    argument: Argument,
    arguments: &'static [Argument],
    behind: Behind,
    word: &'a [u8],
) -> Option<Place<'a>>
    ensures { option_map place_said result
        ≡ (if is_argument_by argument word.now then Some (place_of arguments.now behind) else None) }
{
    if is_argument(argument, word) {
        Some(before(arguments, behind))
    } else {
        None
    }
}

/// Returns fields with the field of one more word. `None` if the word is no field, or an earlier word has its key.
fn with_field<'a>(fields: &DateFields<'a>, word: &'a [u8]) -> Option<DateFields<'a>>
    ensures { option_map bag_of result ≡ with_whole_word (bag_of fields.now) word.now }
{
    let mut fields = *fields;
    read_field(&mut fields, word)?;
    Some(fields)
}

/// Returns the place behind a field.
fn after_field<'a>(fields: &DateFields<'a>, word: &'a [u8]) -> Option<Place<'a>>
    ensures { option_map place_said result ≡ option_map InFields (with_whole_word (bag_of fields.now) word.now) }
{
    Some(Place::Fields(with_field(fields, word)?))
}

/// Returns no fields.
fn none_yet<'a>() -> DateFields<'a>
    ensures { bag_of result ≡ no_fields }
{
    DateFields::default()
}

/// Returns the field of a word.
fn first_field<'a>(word: &'a [u8]) -> Option<DateFields<'a>>
    ensures { option_map bag_of result ≡ with_whole_word no_fields word.now }
{
    with_field(&none_yet(), word)
}

/// Returns the place behind a start and a rule, if the start is a day number.
fn after_day<'a>(start: &'a [u8]) -> Option<Place<'a>>
    ensures { option_map place_said result ≡ (if is_some (int_of start.now) then Some AtEnd else None) }
{
    if read_int(start).is_some() {
        Some(Place::End)
    } else {
        None
    }
}

/// Returns the place behind the second word from a start on.
fn after_start<'a>(start: &'a [u8], word: &'a [u8]) -> Option<Place<'a>>
    ensures { let start_field = with_whole_word no_fields start.now in
        option_map place_said result ≡ behind_start start_field (is_some (int_of start.now)) word.now }
{
    match first_field(start) {
        Some(fields) => Some(Place::BehindField(fields, word)),
        None => after_day(start),
    }
}

/// Returns the place behind a word that follows a field of a start.
fn after_last<'a>(fields: &DateFields<'a>, last: &'a [u8], word: &'a [u8]) -> Option<Place<'a>>
    ensures { option_map place_said result
        ≡ option_map (behind_field word.now) (with_whole_word (bag_of fields.now) last.now) }
{
    Some(Place::BehindField(with_field(fields, last)?, word))
}

/// Returns the place behind a word that follows `explain`.
fn after_explain<'a>(word: &'a [u8]) -> Option<Place<'a>>
    ensures { option_map place_said result ≡ step_by AtHolidays word.now }
{
    if word == b"holidays".as_slice() {
        Some(Place::End)
    } else {
        None
    }
}

/// Returns the place behind a word. `None` if the word can't stand at the place.
pub(crate) fn step<'a>(place: &Place<'a>, word: &'a [u8]) -> Option<Place<'a>>
    ensures { option_map place_said result ≡ step_by (place_said place.now) word.now }
{
    match place {
        Place::First => after_name(word),
        Place::Before(argument, arguments, behind) => after_argument(
            *argument, arguments, *behind, word,
        ),
        Place::Fields(fields) => after_field(fields, word),
        Place::Start => Some(Place::BehindStart(word)),
        Place::BehindStart(start) => after_start(start, word),
        Place::BehindField(fields, last) => after_last(fields, last, word),
        Place::Holidays => after_explain(word),
        Place::End => None,
    }
}

/// Returns whether a command line may end at a place.
pub(crate) fn may_end(place: &Place) -> bool
    ensures { result ≡ may_end_at (place_said place.now) }
{
    match place {
        Place::First => false,
        Place::Before(_, _, _) => false,
        Place::Fields(_) => true,
        Place::Start => false,
        Place::BehindStart(_) => true,
        Place::BehindField(_, _) => true,
        Place::Holidays => true,
        Place::End => true,
    }
}

/// Returns what may stand at a place.
pub(crate) fn part(place: &Place) -> CommandPart
    ensures { result ≡ part_of (place_said place.now) }
{
    match place {
        Place::First => CommandPart::Command,
        Place::Before(argument, _, _) => CommandPart::Argument(*argument),
        Place::Fields(_) => CommandPart::Field,
        Place::Start => CommandPart::StartOrRule,
        Place::BehindStart(_) => CommandPart::BehindRule,
        Place::BehindField(_, _) => CommandPart::BehindRule,
        Place::Holidays => CommandPart::Holidays,
        Place::End => CommandPart::End,
    }
}
