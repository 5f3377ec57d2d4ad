//! Generated requests.
ghost use Rattle.std.specs.Prelude.{◌≡◌, ◌<◌, ◌≤◌, Some};
ghost use Rattle.cal_types.specs.Bag.{bag_of};
ghost use Rattle.calspan_run.specs.Generator.{calendar_of, generated_bag, generated_request, near_year, unit_of};
ghost use Rattle.request_lines.specs.RequestSaid.{request_said};

use cal_kinds::AnyCalendarKind;
use cal_types::{
    DateDifferenceOptions, DateDurationUnit, DateFields, DateFromFieldsOptions,
    MissingFieldsStrategy, Overflow,
};
use request_lines::{Header, Request};

/// Returns the calendar with a number, in a fixed order.
fn calendar_of(number: u32) -> AnyCalendarKind
    requires { number < 18 }
    ensures { result ≡ calendar_of number }
{
    match number {
        0 => AnyCalendarKind::Buddhist,
        1 => AnyCalendarKind::Chinese,
        2 => AnyCalendarKind::Coptic,
        3 => AnyCalendarKind::Dangi,
        4 => AnyCalendarKind::Ethiopian,
        5 => AnyCalendarKind::EthiopianAmeteAlem,
        6 => AnyCalendarKind::Gregorian,
        7 => AnyCalendarKind::Hebrew,
        8 => AnyCalendarKind::Indian,
        9 => AnyCalendarKind::HijriTabularTypeIIFriday,
        10 => AnyCalendarKind::HijriSimulatedMecca,
        11 => AnyCalendarKind::HijriTabularTypeIIThursday,
        12 => AnyCalendarKind::HijriUmmAlQura,
        13 => AnyCalendarKind::Iso,
        14 => AnyCalendarKind::Japanese,
        15 => AnyCalendarKind::Julian,
        16 => AnyCalendarKind::Persian,
        _ => AnyCalendarKind::Roc,
    }
}

/// Returns the largest unit with a number, in a fixed order. The last number has no unit.
fn unit_of(number: u32) -> Option<DateDurationUnit>
    requires { number < 5 }
    ensures { result ≡ unit_of number }
{
    match number {
        0 => Some(DateDurationUnit::Years),
        1 => Some(DateDurationUnit::Months),
        2 => Some(DateDurationUnit::Weeks),
        3 => Some(DateDurationUnit::Days),
        _ => None,
    }
}

/// Returns a year from -2000 to 2000.
fn near_year(number: u64) -> i32
    ensures { result ≡ near_year number }
{
    (number % 4001) as i32 - 2000
}

/// Creates a bag from an extended year, an ordinal month and a day.
fn bag(extended_year: i32, ordinal_month: u8, day: u8) -> DateFields<'static>
    ensures { bag_of result ≡ generated_bag extended_year ordinal_month day }
{
    DateFields {
        era: None,
        era_year: None,
        extended_year: Some(extended_year),
        month: None,
        month_code: None,
        ordinal_month: Some(ordinal_month),
        day: Some(day),
    }
}

/// Returns the options of the request with an index.
fn options_of(index: u32) -> DateFromFieldsOptions
    ensures overflow { result.overflow ≡ (generated_request index).overflow }
    ensures missing { result.missing_fields_strategy ≡ (generated_request index).missing_fields }
{
    let overflow = if index % 2 == 0 {
        Overflow::Constrain
    } else {
        Overflow::Reject
    };
    DateFromFieldsOptions {
        overflow: Some(overflow),
        missing_fields_strategy: Some(MissingFieldsStrategy::Reject),
    }
}

/// Returns the first bag of the request with an index.
fn first_bag(index: u32) -> DateFields<'static>
    requires { index ≤ 100000 }
    ensures { bag_of result ≡ (generated_request index).from }
{
    let extended_year = near_year(48271 * u64::from(index) + 11);
    bag(extended_year, (index % 14) as u8, (7 * index % 32) as u8)
}

/// Returns the second bag of the request with an index.
fn second_bag(index: u32) -> DateFields<'static>
    requires { index ≤ 100000 }
    ensures { bag_of result ≡ (generated_request index).to }
{
    let extended_year = near_year(69621 * u64::from(index) + 7);
    bag(
        extended_year,
        ((index + 5) % 14) as u8,
        ((11 * index + 3) % 32) as u8,
    )
}

/// Returns the generated request with an index, 0 to 100000. Its calendars, largest unit and overflow option follow
/// fixed orders. Its two dates have extended years from -2000 to 2000, ordinal months from 0 to 13 and days from 0 to
/// 31.
pub fn generated_request(index: u32) -> Request<'static>
    requires { index ≤ 100000 }
    ensures { request_said result ≡ generated_request index }
{
    Request {
        header: Header {
            calendar: calendar_of(index % 18),
            shown: calendar_of((index + index / 18) % 18),
            difference: DateDifferenceOptions {
                largest_unit: unit_of(index % 5),
            },
            options: options_of(index),
        },
        from: first_bag(index),
        to: second_bag(index),
    }
}
