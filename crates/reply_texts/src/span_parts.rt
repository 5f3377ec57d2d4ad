//! The dates of two bags of fields, and the dates of days, in a calendar of any type.

ghost use Rattle.std.specs.Prelude.{IfOk, IfErr};
ghost use Rattle.cal_days.specs.Day.{IsValidDay};
ghost use Rattle.cal_types.specs.Bag.{bag_of};
ghost use Rattle.cal_types.specs.Difference.{largest_unit_of};
ghost use Rattle.reply_texts.specs.DateParts.{AreNamed, AreRefused, IsShown};

use crate::day_parts::{DayParts, parts_of};
use cal_base::Calendar;
use cal_days::RataDie;
use cal_types::{
    BagSide, DateDifferenceOptions, DateDuration, DateFields, DateFromFieldsOptions, SpanError,
};

/// Two dates and the difference from the first to the second.
#[derive(Clone, Copy, Debug)]
pub struct SpanParts {
    /// The first date.
    pub from: DayParts,
    /// The second date.
    pub to: DayParts,
    /// The greatest duration in the requested units from the first date that doesn't surpass the second.
    pub duration: DateDuration,
}

impl SpanParts {
    /// Creates the parts of a span before a calendar fills them in: day 0 twice, and no difference.
    pub fn unnamed() -> SpanParts {
        SpanParts {
            from: DayParts::unnamed(RataDie::new(0)),
            to: DayParts::unnamed(RataDie::new(0)),
            duration: DateDuration::for_days(0),
        }
    }
}

/// Fills in the dates of two bags of fields in a calendar, and the difference from the first date to the second.
/// Adding the difference to the first date, with [`Overflow::Constrain`](cal_types::Overflow::Constrain), returns the
/// second date.
///
/// # Errors
///
/// - [`SpanError`] for the first invalid bag, with its side and its first invalid field.
// Kept out of line so that a branch over calendars stays small.
#[inline(never)]
pub fn name_in<C: Calendar>(
    parts: &mut SpanParts,
    calendar: &C,
    from: &DateFields<'_>,
    to: &DateFields<'_>,
    options: DateFromFieldsOptions,
    difference: DateDifferenceOptions,
) -> Result<(), SpanError>
    ensures named { let unit = largest_unit_of difference.largest_unit in
        IfOk result (λ _. AreNamed (C.system calendar.now) (bag_of from.now) (bag_of to.now) options unit parts.new) }
    ensures refused { IfErr result (AreRefused (C.system calendar.now) (bag_of from.now) (bag_of to.now) options) }
{
    let first = match calendar.from_fields(*from, options) {
        Ok(date) => date,
        Err(cause) => return Err(SpanError {
            side: BagSide::From,
            cause,
        }),
    };
    let second = match calendar.from_fields(*to, options) {
        Ok(date) => date,
        Err(cause) => return Err(SpanError {
            side: BagSide::To,
            cause,
        }),
    };
    parts.from = parts_of(calendar, &first, calendar.to_rata_die(&first));
    parts.to = parts_of(calendar, &second, calendar.to_rata_die(&second));
    parts.duration = calendar.until(&first, &second, difference);
    Ok(())
}

/// Fills in the date of a day in a calendar. The day number has to be in the valid range, -365242499 to 365242134.
pub fn show_in<C: Calendar>(parts: &mut DayParts, calendar: &C)
    requires { IsValidDay parts.old.rata_die }
    ensures { IsShown (C.system calendar.now) parts.old.rata_die parts.new }
{
    let date = calendar.from_rata_die(parts.rata_die);
    *parts = parts_of(calendar, &date, parts.rata_die);
}

/// Fills in the dates of two days in a calendar. The day numbers have to be in the valid range, -365242499 to
/// 365242134.
// Kept out of line, as `name_in` is.
#[inline(never)]
pub fn show_both_in<C: Calendar>(from: &mut DayParts, to: &mut DayParts, calendar: &C)
    requires from { IsValidDay from.old.rata_die }
    requires to { IsValidDay to.old.rata_die }
    ensures from { IsShown (C.system calendar.now) from.old.rata_die from.new }
    ensures to { IsShown (C.system calendar.now) to.old.rata_die to.new }
{
    show_in(from, calendar);
    show_in(to, calendar);
}
