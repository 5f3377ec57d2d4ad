//! The day of a date in the calendar of a kind.
ghost use Rattle.std.specs.Prelude.{◌≡◌, ⊤, IfOk};
ghost use Rattle.cal_days.specs.Day.{IsValidDay};
ghost use Rattle.cal_types.specs.Bag.{bag_of};
ghost use Rattle.cal_tables.specs.Kinds.{kind_system, table_contents};
ghost use Rattle.date_lines.specs.DatesSaid.{date_said};
ghost use Rattle.calspan_run.specs.Converted.{day_of, day_resolved, valid_day};

use cal_base::Calendar;
use cal_days::RataDie;
use cal_days::ranges::is_valid_day;
use cal_tables::Tables;
use cal_types::{DateFields, DateFromFieldsError, DateFromFieldsOptions};
use command_line::ConvertWords;
use date_lines::DateText;
use kind_calls::{CalendarTask, run_in_kind};

/// Returns the day of a bag of fields in a calendar.
// Kept out of line so that a branch over calendars stays small.
#[inline(never)]
fn find_in<C: Calendar>(
    calendar: &C,
    fields: &DateFields<'_>,
    options: DateFromFieldsOptions,
) -> Result<RataDie, DateFromFieldsError>
    ensures day { result ≡ day_resolved (C.system calendar.now) (bag_of fields.now) options }
    ensures valid { IfOk result IsValidDay }
{
    match calendar.from_fields(*fields, options) {
        Ok(date) => Ok(calendar.to_rata_die(&date)),
        Err(cause) => Err(cause),
    }
}

/// The task of finding the day of a bag of fields.
#[derive(Drop)]
struct FindDay<'a, 'f> {
    fields: &'a DateFields<'f>,
    options: DateFromFieldsOptions,
}

impl<'a, 'f> CalendarTask<()> for FindDay<'a, 'f> {
    type Answer = Result<RataDie, DateFromFieldsError>;

    ghost asks = { λ _ _ _. ⊤ };

    ghost done = { λ t s _ _ answer. (answer ≡ day_resolved s (bag_of t.fields.now) t.options)
        × (IfOk answer IsValidDay) };

    fn run<C: Calendar + Copy>(
        &self,
        _: &mut (),
        calendar: C,
    ) -> Result<RataDie, DateFromFieldsError> {
        find_in(&calendar, self.fields, self.options)
    }
}

/// Returns the day with a day number.
fn day_numbered(number: i32) -> Result<RataDie, DateFromFieldsError>
    ensures day { result ≡ valid_day number }
    ensures valid { IfOk result IsValidDay }
{
    let day = i64::from(number);
    if is_valid_day(day) {
        Ok(RataDie::new(day))
    } else {
        Err(DateFromFieldsError::Overflow)
    }
}

/// Returns the day of the date of a line.
///
/// # Errors
///
/// - [`DateFromFieldsError::Overflow`] if a day number isn't from -365242499 to 365242134.
/// - The error of the date's first invalid field.
pub(crate) fn find_day(
    date: &DateText<'_>,
    words: &ConvertWords,
    tables: &Tables<'_>,
) -> Result<RataDie, DateFromFieldsError>
    ensures day { let calendar = kind_system (table_contents tables.now) words.now.calendar in
        result ≡ day_of calendar words.now.overflow (date_said date.now) }
    ensures valid { IfOk result IsValidDay }
{
    match date {
        DateText::Day(number) => day_numbered(*number),
        DateText::Fields(fields) => {
            let options = DateFromFieldsOptions {
                overflow: Some(words.overflow),
                missing_fields_strategy: None,
            };
            run_in_kind(
                &FindDay { fields, options },
                &mut (),
                words.calendar,
                tables,
            )
        }
    }
}
