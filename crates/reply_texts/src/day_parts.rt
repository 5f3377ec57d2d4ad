//! The parts of a date that its text shows.

ghost use Rattle.std.specs.Prelude.{◌≡◌, IsTrue};
ghost use Rattle.cal_types.specs.CalendarList.{day_number};
ghost use Rattle.reply_texts.specs.DateParts.{IsDayParts};

use cal_base::Calendar;
use cal_days::RataDie;
use cal_types::{CyclicYear, IntoYearInfo, Month, YearInfo};

/// The year, the month and the day of a date, and its day number.
#[derive(Clone, Copy, Debug)]
pub struct DayParts {
    /// The year, in its era or cycle.
    pub year: YearInfo,
    /// The day number (rata die).
    pub rata_die: RataDie,
    /// The month.
    pub month: Month,
    /// The day of the month, from 1.
    pub day: u8,
}

impl DayParts {
    /// Creates the parts of a day before a calendar fills them in: the first day of the first month of the first year
    /// of a cycle.
    pub fn unnamed(rata_die: RataDie) -> DayParts
        ensures { result.rata_die ≡ rata_die }
    {
        let year = CyclicYear {
            year: 1,
            related_iso: 0,
        };
        DayParts {
            year: YearInfo::Cyclic(year),
            rata_die,
            month: Month::new(1),
            day: 1,
        }
    }
}

/// Returns the parts of an inner date with this day number.
pub(crate) fn parts_of<C: Calendar>(
    calendar: &C,
    date: &C::DateInner,
    rata_die: RataDie,
) -> DayParts
    requires belongs { IsTrue (C.belongs calendar.now date.now) }
    requires day { rata_die ≡ day_number (C.system calendar.now).list (C.date_of calendar.now date.now) }
    ensures { IsDayParts (C.system calendar.now) (C.date_of calendar.now date.now) result }
{
    DayParts {
        year: calendar.year_info(date).into_year_info(),
        rata_die,
        month: calendar.month(date).to_input(),
        day: calendar.day_of_month(date).0,
    }
}
