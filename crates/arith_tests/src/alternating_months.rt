//! A calendar whose years have twelve months of 30 and 29 days in turn.

ghost use Rattle.std.specs.Prelude.{◌≡◌, ◌≤◌, ◌+◌, ◌-◌, ◌*◌, ◌/◌, pos, refl};
ghost use Rattle.cal_types.specs.MonthParts.{month_parts};
ghost use Rattle.arith_tests.specs.AlternatingMonths.{is_plain};
ghost use Rattle.arith_tests.specs.laws.AlternatingMonthLaws.{alternating-lawful, alternating-near, alternating-ranged, alternating-apart, alternating-covered};

use cal_arith::eras::year_in_only_era;
use cal_arith::{DateFieldsResolver, PackWithMD, Steps, YearShapes, Years, Ymd};
use cal_days::RataDie;
use cal_types::{EcmaReferenceYearError, Month, MonthError, Overflow, UnknownEraError};
use std::sync::ledger::Ledger;

/// The calendar.
#[derive(Clone, Copy, Debug)]
pub struct AlternatingMonths;

/// A year of the calendar.
#[derive(Clone, Copy, Debug, PartialEq, Eq, PartialOrd, Ord, Hash)]
pub struct AlternatingYear {
    /// Its number.
    pub number: i32,
}

ghost use Rattle.arith_tests.specs.AlternatingYears.{alternating_years};
ghost use Rattle.arith_tests.specs.laws.AlternatingYearLaws.{stored-year};

/// Returns whether a month is a plain month from 1 to 12.
fn is_plain_month(month: Month) -> bool
    ensures { result ≡ is_plain (month_parts month) }
{
    !month.is_leap() && 1 <= month.number() && month.number() <= 12
}

impl PackWithMD for AlternatingYear {
    type Packed = Ymd<AlternatingYear>;

    ghost stored = { λ y. y.number };

    ghost unpacked = { λ p. p };

    fn pack(self, month: u8, day: u8) -> Ymd<AlternatingYear> {
        Ymd {
            year: self,
            month,
            day,
        }
    }

    fn unpack_year(packed: Ymd<AlternatingYear>) -> AlternatingYear {
        packed.year
    }

    fn unpack_month(packed: Ymd<AlternatingYear>) -> u8 {
        packed.month
    }

    fn unpack_day(packed: Ymd<AlternatingYear>) -> u8 {
        packed.day
    }
}

/// Returns the number of a day in its year, from 1.
fn day_of_year(month: u8, day: u8) -> u16
    requires { (1 ≤ month) × (month ≤ 12) }
    ensures { result ≡ 29 * (month - 1) + month / 2 + day }
{
    29 * (u16::from(month) - 1) + u16::from(month) / 2 + u16::from(day)
}

impl YearShapes for AlternatingMonths {
    type YearInfo = AlternatingYear;

    ghost years = { λ _. alternating_years };

    fn year_counted<L: Ledger>(&self, extended_year: i32, steps: &mut Steps<L>) -> AlternatingYear {
        steps.tick();
        AlternatingYear {
            number: extended_year,
        }
    }

    fn extended_from_year_info(&self, year: AlternatingYear) -> i32 {
        year.number
    }

    fn months_in_provided_year(&self, _year: AlternatingYear) -> u8 {
        12
    }

    fn days_in_provided_month(&self, _year: AlternatingYear, month: u8) -> u8 {
        29 + month % 2
    }

    fn to_rata_die_inner(&self, year: AlternatingYear, month: u8, day: u8) -> RataDie {
        let in_year = i64::from(day_of_year(month, day));
        let before = 354 * (i64::from(year.number) - 1);
        RataDie::new(before + in_year)
    }

    fn min_months_from(&self, _start: AlternatingYear, years: i32) -> i32 {
        12 * years
    }

    fn ordinal_from_month(
        &self,
        _year: AlternatingYear,
        month: Month,
        _overflow: Overflow,
    ) -> Result<u8, MonthError> {
        if is_plain_month(month) {
            Ok(month.number())
        } else {
            Err(MonthError::NotInCalendar)
        }
    }

    fn month_from_ordinal(&self, _year: AlternatingYear, ordinal_month: u8) -> Month {
        Month::new(ordinal_month)
    }

    ghost numbered = { λ s y h. refl };

    ghost lawful = { λ s. alternating-lawful };

    ghost equal = { λ a b. refl };

    ghost ordered = { λ a b. refl };

    ghost stored_from = { λ s y h. stored-year y.number };

    ghost near = { λ s t. alternating-near t };

    ghost ranged = { λ s t. alternating-ranged t };

    ghost apart = { λ s t u. alternating-apart t u };

    ghost covered = { λ s t. alternating-covered t };
}

impl Years for AlternatingMonths {
    fn year_info_from_extended(&self, extended_year: i32) -> AlternatingYear {
        AlternatingYear {
            number: extended_year,
        }
    }

    fn year_containing_rd(&self, rd: RataDie) -> AlternatingYear {
        let years = (rd.to_i64_date() - 1).div_euclid(354);
        AlternatingYear {
            number: years as i32 + 1,
        }
    }
}

impl DateFieldsResolver for AlternatingMonths {
    ghost use Rattle.arith_tests.specs.AlternatingMonths.{alternating_names};
    ghost use Rattle.arith_tests.specs.laws.AlternatingMonthLaws.{alternating_reference-kind};
    ghost use Rattle.std.specs.Prelude.{codes};
    ghost use Rattle.cal_types.proofs.EraLemmas.{only_era_reads-in_range, only_era_reads-near};
    ghost use Rattle.cal_types.proofs.YearNameLemmas.{reference_of_known-stands};

    ghost names = { λ _. alternating_names };

    fn extended_year_from_era_year_unchecked(
        &self,
        era: &[u8],
        era_year: i32,
    ) -> Result<i32, UnknownEraError> {
        year_in_only_era(b"am", era, era_year)
    }

    fn reference_year_from_month_day(
        &self,
        month: Month,
        _day: u8,
    ) -> Result<AlternatingYear, EcmaReferenceYearError> {
        if is_plain_month(month) {
            Ok(AlternatingYear { number: 1 })
        } else {
            Err(EcmaReferenceYearError::MonthNotInCalendar)
        }
    }

    ghost era_in_range = { λ _ era n y. only_era_reads-in_range (codes "am") era n y };

    ghost era_near = { λ _ era n y. only_era_reads-near (codes "am") era n y };

    ghost reference_of_kind = { λ _ m d. alternating_reference-kind m d };

    ghost reference_of_leap_month = { λ _ m d e. reference_of_known-stands (is_plain m) (pos 1) e };
}
