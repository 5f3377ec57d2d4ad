//! Texts of dates (RFC 9557): the text of a day's date in a calendar.

ghost use Rattle.std.specs.Prelude.{◌≡◌, ◌<◌, ◌≤◌, ◌++◌, ◌∷◌, length, pos, neg_ℤ};
ghost use Rattle.std.specs.Result.{result_map_both};
ghost use Rattle.cal_base.specs.IsoSystem.{iso_system};
ghost use Rattle.cal_days.specs.Day.{IsBetween};
ghost use Rattle.date_calls.specs.Dates.{IsShown};
ghost use Rattle.date_calls.specs.DayTexts.{PutsText, WritesText, behind_date, plain_text, text_name};
ghost use Rattle.icu_calendar.specs.DateText.{four_digits, six_digits, two_digits};

use crate::dates::{CalendarDate, OfDay};
use crate::days::ValidDay;
use crate::outcomes::{DONE, INVALID_DAY_NUMBER, INVALID_TEXT, NO_ROOM, UNKNOWN_CALENDAR};
use crate::questions::Question;
use icu_calendar::Iso;

/// Returns what follows the ISO date in the texts of a calendar's dates, or the code of the error. The simulated
/// calendar has no name there: a part of its own is longer than eight letters.
fn annotation_of(calendar: u8) -> Result<&'static [u8], u8>
    ensures { result_map_both (λ text. text.now) (λ why. why) result ≡ behind_date (text_name calendar) }
{
    match calendar {
        0 => Ok(b"[u-ca=buddhist]"),
        1 => Ok(b"[u-ca=chinese]"),
        2 => Ok(b"[u-ca=coptic]"),
        3 => Ok(b"[u-ca=dangi]"),
        4 => Ok(b"[u-ca=ethiopic]"),
        5 => Ok(b"[u-ca=ethioaa]"),
        6 => Ok(b"[u-ca=gregory]"),
        7 => Ok(b"[u-ca=hebrew]"),
        8 => Ok(b"[u-ca=indian]"),
        9 => Ok(b"[u-ca=islamic-civil]"),
        10 => Err(INVALID_TEXT),
        11 => Ok(b"[u-ca=islamic-tbla]"),
        12 => Ok(b"[u-ca=islamic-umalqura]"),
        13 => Ok(b""),
        14 => Ok(b"[u-ca=japanese]"),
        15 => Ok(b"[u-ca=julian]"),
        16 => Ok(b"[u-ca=persian]"),
        17 => Ok(b"[u-ca=roc]"),
        18 => Ok(b"[u-ca=islamic-type1-friday]"),
        19 => Ok(b"[u-ca=islamic-type1-thursday]"),
        _ => Err(UNKNOWN_CALENDAR),
    }
}

/// Returns the date of a day in the ISO calendar.
fn iso_date(day: ValidDay) -> CalendarDate
    ensures shown { IsShown iso_system day.day result }
    ensures year { IsBetween (neg_ℤ (pos 999999)) (pos 999999) result.extended_year }
{
    let question = OfDay { day };
    question.ask(&Iso)
}

/// Returns the two digits of a number.
fn two_digits(number: u8) -> [u8; 2]
    ensures { result ≡ two_digits number }
{
    [b'0' + number / 10, b'0' + number % 10]
}

/// Returns the four digits of a number.
fn four_digits(number: u16) -> [u8; 4]
    requires { number < 10000 }
    ensures { result ≡ four_digits number }
{
    let [a, b] = two_digits((number / 100) as u8);
    let [c, d] = two_digits((number % 100) as u8);
    [a, b, c, d]
}

/// Returns the text of a date in a year of four digits.
fn short_text(year: u16, month: u8, day: u8) -> [u8; 10]
    requires { year < 10000 }
    ensures { result ≡ four_digits year ++ (45 ∷ two_digits month ++ (45 ∷ two_digits day)) }
{
    let [a, b, c, d] = four_digits(year);
    let [e, f] = two_digits(month);
    let [g, h] = two_digits(day);
    [a, b, c, d, b'-', e, f, b'-', g, h]
}

/// Returns the text of a date in a year of a sign and six digits.
fn long_text(sign: u8, year: u32, month: u8, day: u8) -> [u8; 13]
    requires { year < 1000000 }
    ensures { result ≡ sign ∷ six_digits year ++ (45 ∷ two_digits month ++ (45 ∷ two_digits day)) }
{
    let [a, b] = two_digits((year / 10000) as u8);
    let [c, d, e, f] = four_digits((year % 10000) as u16);
    let [g, h] = two_digits(month);
    let [i, j] = two_digits(day);
    [sign, a, b, c, d, e, f, b'-', g, h, b'-', i, j]
}

/// Writes two texts to the start of `room`, one behind the other, and their length to `written`.
fn put_both(first: &[u8], second: &[u8], room: &mut [u8], written: &mut usize) -> u8
    requires { length first.now ≤ 13 }
    ensures { PutsText (first.now ++ second.now) result written.new room.old room.new }
{
    let start = first.len();
    let count = start + second.len();
    *written = count;
    if count > room.len() {
        return NO_ROOM;
    }
    room[..start].copy_from_slice(first);
    room[start..count].copy_from_slice(second);
    DONE
}

/// Writes the text of an ISO date and what follows it to the start of `room`.
fn put_date(date: &CalendarDate, behind: &[u8], room: &mut [u8], written: &mut usize) -> u8
    requires { IsBetween (neg_ℤ (pos 999999)) (pos 999999) date.now.extended_year }
    ensures { PutsText (plain_text date.now.extended_year date.now.ordinal_month date.now.day ++ behind.now) result
        written.new room.old room.new }
{
    let (year, month, day) = (date.extended_year, date.ordinal_month, date.day);
    if year < 0 {
        let text = long_text(b'-', year.unsigned_abs(), month, day);
        put_both(&text, behind, room, written)
    } else if year <= 9999 {
        let text = short_text(year as u16, month, day);
        put_both(&text, behind, room, written)
    } else {
        let text = long_text(b'+', year as u32, month, day);
        put_both(&text, behind, room, written)
    }
}

/// Writes the text of a day's date in a calendar (RFC 9557) to the start of `room`, and its number of bytes, at most 42,
/// to `written`: the ISO date and, unless the calendar is ISO, the calendar's name, as in `2024-03-01[u-ca=hebrew]`.
///
/// Years from 0 to 9999 have four digits, all others a sign and six. The name is CLDR's, such as `gregory`, or, if it
/// has none, the program's, such as `julian`. [`day_of_text`](crate::day_of_text) reads the text back.
///
/// # Errors
///
/// The code is 0 if the text is written. Otherwise `room` is unchanged, and the code is the first of:
///
/// - 1 if no calendar has the code, with 0 in `written`.
/// - 21 if the calendar is `islamic-simulated`, with 0 in `written`: names in texts have parts of at most eight letters.
/// - 4 if `day` isn't from -365242499 to 365242134, with 0 in `written`.
/// - 8 if `room` is too short; `written` is the number of bytes needed.
pub fn text_of_day(calendar: u8, day: i64, room: &mut [u8], written: &mut usize) -> u8
    ensures { WritesText calendar day result written.new room.old room.new }
{
    *written = 0;
    let behind = match annotation_of(calendar) {
        Ok(behind) => behind,
        Err(code) => return code,
    };
    let Some(day) = ValidDay::of(day) else {
        return INVALID_DAY_NUMBER;
    };
    put_date(&iso_date(day), behind, room, written)
}
