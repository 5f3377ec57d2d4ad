//! The code of the era of a day's year.

ghost use Rattle.std.specs.Prelude.{◌≡◌};
ghost use Rattle.date_calls.specs.Eras.{era_text};

use crate::days::ValidDay;
use crate::questions::Question;
use cal_base::Calendar;
use cal_types::{IntoYearInfo, TinyAsciiStr, YearInfo};

/// Returns the code of a year's era, or an empty text for a year of a cycle.
fn era_of(year: YearInfo) -> TinyAsciiStr<16>
    ensures { result ≡ era_text year }
{
    match year {
        YearInfo::Era(era) => era.era,
        YearInfo::Cyclic(_) => TinyAsciiStr::of_text(b""),
    }
}

/// The task of finding the era of a day's year.
#[derive(Clone, Copy)]
pub(crate) struct EraOf {
    pub(crate) day: ValidDay,
}

impl Question for EraOf {
    ghost use Rattle.date_calls.specs.Eras.{IsEraOf};

    type Answer = TinyAsciiStr<16>;

    ghost answers = { λ q s era. IsEraOf s q.day.day era };

    fn ask<C: Calendar>(&self, calendar: &C) -> TinyAsciiStr<16>
        ensures { IsEraOf (C.system calendar.now) self.now.day.day result }
    {
        let date = calendar.from_rata_die(self.day.rata_die());
        era_of(calendar.year_info(&date).into_year_info())
    }
}
