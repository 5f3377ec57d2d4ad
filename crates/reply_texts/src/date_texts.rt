//! The texts of dates, durations and errors.
ghost use Rattle.std.specs.Prelude.{◌≡◌, ◌+◌, ◌≤◌, ◌<◌, ◌++◌, ◌∷◌, [], ◌↔◌, IsTrue, if◌then◌else◌};
ghost use Rattle.arrayvec.specs.ArrayVec.{array_vec_len};
ghost use Rattle.cal_types.specs.CalendarList.{Date};
ghost use Rattle.cal_types.specs.CalendarSystem.{CalendarSystem};
ghost use Rattle.cal_types.specs.Month.{code_text};
ghost use Rattle.cal_types.specs.MonthParts.{month_parts};
ghost use Rattle.reply_texts.specs.DateTexts.{year_text, date_text, day_text, part_text, parts_text, duration_text, cause_text, side_text, error_text};
ghost use Rattle.reply_texts.specs.DateParts.{IsDayParts};

use crate::day_parts::DayParts;
use crate::text::{
    Pending, push_all, push_day_number, push_number, push_two_digits, push_year_number,
};
use cal_types::{BagSide, DateDuration, DateFromFieldsError, Month, SpanError, YearInfo};

/// Appends a year of an era or of a cycle.
fn push_year(text: &mut Pending, year: &YearInfo)
    requires { array_vec_len text.old + 40 ≤ 8192 }
    ensures items { text.new.items ≡ text.old.items ++ year_text year.now }
    ensures len { array_vec_len text.new ≤ array_vec_len text.old + 40 }
{
    match year {
        YearInfo::Era(era) => {
            push_all(text, era.era.as_bytes());
            text.push(b'.');
            push_year_number(text, era.year);
        }
        YearInfo::Cyclic(cyclic) => {
            push_all(text, b"cycle.");
            push_number(text, u64::from(cyclic.year));
        }
    }
}

/// Appends a part of a duration unless it is 0.
fn push_part(text: &mut Pending, count: u32, letter: u8)
    requires { array_vec_len text.old + 21 ≤ 8192 }
    ensures items { text.new.items ≡ text.old.items ++ part_text count letter }
    ensures len { array_vec_len text.new ≤ array_vec_len text.old + 21 }
{
    if count != 0 {
        push_number(text, u64::from(count));
        text.push(letter);
    }
}

/// Appends the parts of a duration that aren't 0, in the order of their units.
fn push_parts(text: &mut Pending, duration: &DateDuration)
    requires { array_vec_len text.old + 84 ≤ 8192 }
    ensures items { text.new.items ≡ text.old.items ++ parts_text duration.now }
    ensures len { array_vec_len text.new ≤ array_vec_len text.old + 84 }
{
    push_part(text, duration.years, b'Y');
    push_part(text, duration.months, b'M');
    push_part(text, duration.weeks, b'W');
    push_part(text, duration.days, b'D');
}

/// Returns whether all parts of a duration are 0.
fn is_zero(duration: &DateDuration) -> bool
    ensures { IsTrue result ↔ (parts_text duration.now ≡ []) }
{
    duration.years == 0 && duration.months == 0 && duration.weeks == 0 && duration.days == 0
}

/// Appends the sign of a duration.
fn push_sign(text: &mut Pending, is_negative: bool)
    requires { array_vec_len text.old + 1 ≤ 8192 }
    ensures items { text.new.items ≡ text.old.items ++ (if is_negative then 45 ∷ [] else []) }
    ensures len { array_vec_len text.new ≤ array_vec_len text.old + 1 }
{
    if is_negative {
        text.push(b'-');
    }
}

/// Appends a duration, at most 90 bytes.
pub fn push_duration(text: &mut Pending, duration: &DateDuration)
    requires { array_vec_len text.old + 90 ≤ 8192 }
    ensures items { text.new.items ≡ text.old.items ++ duration_text duration.now }
    ensures len { array_vec_len text.new ≤ array_vec_len text.old + 90 }
{
    if is_zero(duration) {
        push_all(text, b"P0D");
        return;
    }
    push_sign(text, duration.is_negative);
    text.push(b'P');
    push_parts(text, duration);
}

/// Appends the error of a bag of fields, at most 50 bytes.
pub fn push_cause(text: &mut Pending, cause: DateFromFieldsError)
    requires { array_vec_len text.old + 50 ≤ 8192 }
    ensures items { text.new.items ≡ text.old.items ++ cause_text cause }
    ensures len { array_vec_len text.new ≤ array_vec_len text.old + 50 }
{
    match cause {
        DateFromFieldsError::NotEnoughFields => push_all(text, b"NotEnoughFields"),
        DateFromFieldsError::TooManyFields => push_all(text, b"TooManyFields"),
        DateFromFieldsError::Overflow => push_all(text, b"Overflow"),
        DateFromFieldsError::InvalidEra => push_all(text, b"InvalidEra"),
        DateFromFieldsError::InconsistentYear => push_all(text, b"InconsistentYear"),
        DateFromFieldsError::MonthCodeInvalidSyntax => push_all(text, b"MonthCodeInvalidSyntax"),
        DateFromFieldsError::MonthNotInCalendar => push_all(text, b"MonthNotInCalendar"),
        DateFromFieldsError::MonthNotInYear => push_all(text, b"MonthNotInYear"),
        DateFromFieldsError::InconsistentMonth => push_all(text, b"InconsistentMonth"),
        DateFromFieldsError::InvalidOrdinalMonth { max } => {
            push_all(text, b"InvalidOrdinalMonth ");
            push_number(text, u64::from(max));
        }
        DateFromFieldsError::InvalidDay { max } => {
            push_all(text, b"InvalidDay ");
            push_number(text, u64::from(max));
        }
    }
}

/// Appends the side of the invalid bag.
fn push_side(text: &mut Pending, side: BagSide)
    requires { array_vec_len text.old + 4 ≤ 8192 }
    ensures items { text.new.items ≡ text.old.items ++ side_text side }
    ensures len { array_vec_len text.new ≤ array_vec_len text.old + 4 }
{
    match side {
        BagSide::From => push_all(text, b"from"),
        BagSide::To => push_all(text, b"to"),
    }
}

/// Appends the line for an invalid bag: its side and its error.
pub fn push_error(text: &mut Pending, error: SpanError)
    requires { array_vec_len text.old + 60 ≤ 8192 }
    ensures { text.new.items ≡ text.old.items ++ error_text error }
{
    push_all(text, b"err ");
    push_side(text, error.side);
    text.push(b' ');
    push_cause(text, error.cause);
    text.push(b'\n');
}

/// Appends a month code, at most 4 bytes.
pub fn push_month(text: &mut Pending, month: Month)
    requires { array_vec_len text.old + 4 ≤ 8192 }
    ensures items { text.new.items ≡ text.old.items ++ code_text (month_parts month) }
    ensures len { array_vec_len text.new ≤ array_vec_len text.old + 4 }
{
    text.push(b'M');
    push_two_digits(text, month.number());
    if month.is_leap() {
        text.push(b'L');
    }
}

/// Appends a date, at most 92 bytes: its extended year, its year of an era or cycle, its month code, its day of the
/// month and its day number (rata die).
pub fn push_date(text: &mut Pending, parts: &DayParts)
    requires room { array_vec_len text.old + 92 ≤ 8192 }
    requires day { parts.now.day < 100 }
    ensures items { (s : CalendarSystem) (t : Date) → IsDayParts s t parts.now
        → text.new.items ≡ text.old.items ++ date_text s t }
    ensures len { array_vec_len text.new ≤ array_vec_len text.old + 92 }
{
    push_year_number(text, parts.year.extended_year());
    text.push(b'/');
    push_year(text, &parts.year);
    text.push(b'/');
    push_month(text, parts.month);
    text.push(b'/');
    push_two_digits(text, parts.day);
    text.push(b'@');
    push_day_number(text, parts.rata_die.to_i64_date());
}

/// Appends a date and the same day in a second calendar, at most 185 bytes.
pub fn push_day(text: &mut Pending, parts: &DayParts, shown: &DayParts)
    requires room { array_vec_len text.old + 185 ≤ 8192 }
    requires day { parts.now.day < 100 }
    requires shown { shown.now.day < 100 }
    ensures items { (c other : CalendarSystem) (t u : Date) → IsDayParts c t parts.now → IsDayParts other u shown.now
        → text.new.items ≡ text.old.items ++ day_text c other t u }
    ensures len { array_vec_len text.new ≤ array_vec_len text.old + 185 }
{
    push_date(text, parts);
    text.push(b' ');
    push_date(text, shown);
}
