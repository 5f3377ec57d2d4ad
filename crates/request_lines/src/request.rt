//! Requests.
ghost use Rattle.std.specs.Prelude.{◌≡◌};
ghost use Rattle.std.specs.Option.{option_map};
ghost use Rattle.cal_kinds.specs.KindNames.{kind_named};
ghost use Rattle.cal_types.specs.Bag.{bag_of};
ghost use Rattle.request_lines.specs.Bags.{no_fields};
ghost use Rattle.request_lines.specs.Words.{words_of};
ghost use Rattle.request_lines.specs.WordsLeft.{words_left};
ghost use Rattle.request_lines.specs.Reading.{IsReading, next_word};
ghost use Rattle.request_lines.specs.Requests.{unit_named, overflow_named, missing_fields_named, header_read, request_of, request_read};

use crate::bag::{read_bag, read_bag_to};
use crate::reading::next_is;
use crate::words::Words;
use cal_kinds::AnyCalendarKind;
use cal_types::{
    DateDifferenceOptions, DateDurationUnit, DateFields, DateFromFieldsOptions,
    MissingFieldsStrategy, Overflow,
};

/// The part of a request before its two bags of fields.
#[derive(Clone, Copy, Debug)]
pub struct Header {
    /// The calendar of both bags.
    pub calendar: AnyCalendarKind,
    /// The calendar in which the two dates are shown.
    pub shown: AnyCalendarKind,
    /// The largest unit of the difference.
    pub difference: DateDifferenceOptions,
    /// The options for resolving the bags.
    pub options: DateFromFieldsOptions,
}

/// A request for two dates, the same days in a second calendar, and their difference.
#[derive(Clone, Copy, Debug)]
pub struct Request<'a> {
    /// The calendars, the largest unit and the options.
    pub header: Header,
    /// The fields of the first date.
    pub from: DateFields<'a>,
    /// The fields of the second date.
    pub to: DateFields<'a>,
}

ghost use Rattle.request_lines.specs.RequestSaid.{header_said, request_said};

fn next_calendar(words: &mut Words) -> Option<AnyCalendarKind>
    ensures { IsReading (next_word kind_named (words_left words.old)) result (words_left words.new) }
{
    if words.take_known(b"iso") {
        return Some(AnyCalendarKind::Iso);
    }
    if words.take_known(b"gregorian") {
        return Some(AnyCalendarKind::Gregorian);
    }
    AnyCalendarKind::from_program_name(words.next()?)
}

fn next_unit(words: &mut Words) -> Option<Option<DateDurationUnit>>
    ensures { IsReading (next_word unit_named (words_left words.old)) result (words_left words.new) }
{
    if words.take_known(b"years") {
        return Some(Some(DateDurationUnit::Years));
    }
    if words.take_known(b"months") {
        return Some(Some(DateDurationUnit::Months));
    }
    if words.take_known(b"weeks") {
        return Some(Some(DateDurationUnit::Weeks));
    }
    if words.take_known(b"days") {
        return Some(Some(DateDurationUnit::Days));
    }
    if words.take_known(b"none") {
        Some(None)
    } else {
        None
    }
}

fn next_overflow(words: &mut Words) -> Option<Option<Overflow>>
    ensures { IsReading (next_word overflow_named (words_left words.old)) result (words_left words.new) }
{
    if words.take_known(b"reject") {
        return Some(Some(Overflow::Reject));
    }
    if words.take_known(b"none") {
        return Some(None);
    }
    if words.take_known(b"constrain") {
        Some(Some(Overflow::Constrain))
    } else {
        None
    }
}

fn next_missing_fields(words: &mut Words) -> Option<Option<MissingFieldsStrategy>>
    ensures { IsReading (next_word missing_fields_named (words_left words.old)) result (words_left words.new) }
{
    if words.take_known(b"reject") {
        return Some(Some(MissingFieldsStrategy::Reject));
    }
    if words.take_known(b"ecma") {
        return Some(Some(MissingFieldsStrategy::Ecma));
    }
    if words.take_known(b"none") {
        Some(None)
    } else {
        None
    }
}

#[tactic(auto, unfolding(crate::specs::Requests::header_read))]
fn read_header(words: &mut Words) -> Option<Header>
    ensures { IsReading (header_read (words_left words.old)) (option_map header_said result) (words_left words.new) }
{
    next_is(words, b"span")?;
    let calendar = next_calendar(words)?;
    let shown = next_calendar(words)?;
    let largest_unit = next_unit(words)?;
    let overflow = next_overflow(words)?;
    let missing_fields_strategy = next_missing_fields(words)?;
    next_is(words, b"from")?;
    Some(Header {
        calendar,
        shown,
        difference: DateDifferenceOptions { largest_unit },
        options: DateFromFieldsOptions {
            overflow,
            missing_fields_strategy,
        },
    })
}

/// Reads a request from the words of a line into two bags, which must have no fields before, and returns its header.
/// `None` exactly if the words don't have the form in [`read_request`].
#[tactic(auto, unfolding(crate::specs::Requests::request_read))]
pub fn read_into<'a>(
    from: &mut DateFields<'a>,
    to: &mut DateFields<'a>,
    line: &'a [u8],
) -> Option<Header>
    requires from { bag_of from.old ≡ no_fields }
    requires to { bag_of to.old ≡ no_fields }
    ensures { option_map (λ h. request_of (header_said h) (bag_of from.new) (bag_of to.new)) result
        ≡ request_read (words_of line.now) }
{
    let mut words = Words::new(line);
    let header = read_header(&mut words)?;
    read_bag_to(from, &mut words)?;
    read_bag(to, &mut words)?;
    Some(header)
}

/// Reads a request from all words of a line. `None` exactly if they don't have the form
/// `span CAL SHOWN UNIT OVERFLOW MISSING from FIELDS to FIELDS`:
///
/// - `CAL` and `SHOWN` are names of calendars.
/// - `UNIT` is `years`, `months`, `weeks`, `days` or `none`.
/// - `OVERFLOW` is `constrain`, `reject` or `none`.
/// - `MISSING` is `reject`, `ecma` or `none`.
/// - `FIELDS` are zero or more words, each key at most once and in any order: `era=BYTES`, `era-year=INT`, `year=INT`,
///   `month=CODE`, `month-code=BYTES`, `ordinal=BYTE` and `day=BYTE`.
pub fn read_request<'a>(line: &'a [u8]) -> Option<Request<'a>>
    ensures { option_map request_said result ≡ request_read (words_of line.now) }
{
    let mut from = DateFields::default();
    let mut to = DateFields::default();
    let header = read_into(&mut from, &mut to, line)?;
    Some(Request { header, from, to })
}
