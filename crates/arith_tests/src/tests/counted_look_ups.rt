//! A calendar that counts how its years are looked up.

ghost use Rattle.std.specs.Prelude.{◌≡◌, ◌<◌, refl};
ghost use Rattle.cal_days.specs.Day.{IsValidDay};
ghost use Rattle.arith_tests.specs.laws.AlternatingMonthLaws.{alternating-lawful, alternating-near, alternating-ranged, alternating-apart, alternating-covered};
ghost use Rattle.arith_tests.specs.AlternatingYears.{alternating_years};
ghost use Rattle.arith_tests.specs.laws.AlternatingYearLaws.{stored-year};

use crate::alternating_months::{AlternatingMonths, AlternatingYear};
use crate::tests::expected::{assert_at, assert_holds};
use cal_arith::{ArithmeticDate, DateFieldsResolver, Steps, YearShapes, Years};
use cal_days::RataDie;
use cal_types::{
    DateDifferenceOptions, DateDuration, DateDurationUnit, EcmaReferenceYearError, Month,
    MonthError, Overflow, UnknownEraError,
};
use std::cell::Cell;
use std::marker::Brand;
use std::sync::ledger::{Blank, Ledger};

/// The calendar of alternating months, with how many years were looked up at a tick, and how many without one.
#[derive(Drop)]
struct CountedLookUps {
    counted: Cell<u32>,
    others: Cell<u32>,
}

/// Counts one more.
fn count(number: &Cell<u32>) {
    number.set(number.get().saturating_add(1));
}

impl YearShapes for CountedLookUps {
    type YearInfo = AlternatingYear;

    ghost years = { λ _. alternating_years };

    fn year_counted<L: Ledger>(&self, extended_year: i32, steps: &mut Steps<L>) -> AlternatingYear {
        count(&self.counted);
        AlternatingMonths.year_counted(extended_year, steps)
    }

    fn extended_from_year_info(&self, year: AlternatingYear) -> i32 {
        year.number
    }

    fn months_in_provided_year(&self, year: AlternatingYear) -> u8 {
        AlternatingMonths.months_in_provided_year(year)
    }

    fn days_in_provided_month(&self, year: AlternatingYear, month: u8) -> u8 {
        AlternatingMonths.days_in_provided_month(year, month)
    }

    fn to_rata_die_inner(&self, year: AlternatingYear, month: u8, day: u8) -> RataDie {
        AlternatingMonths.to_rata_die_inner(year, month, day)
    }

    fn min_months_from(&self, start: AlternatingYear, years: i32) -> i32 {
        AlternatingMonths.min_months_from(start, years)
    }

    fn ordinal_from_month(
        &self,
        year: AlternatingYear,
        month: Month,
        overflow: Overflow,
    ) -> Result<u8, MonthError> {
        AlternatingMonths.ordinal_from_month(year, month, overflow)
    }

    fn month_from_ordinal(&self, year: AlternatingYear, ordinal_month: u8) -> Month {
        AlternatingMonths.month_from_ordinal(year, ordinal_month)
    }

    ghost numbered = { λ s y h. refl };

    ghost lawful = { λ s. alternating-lawful };

    ghost equal = { λ a b. refl };

    ghost ordered = { λ a b. refl };

    ghost stored_from = { λ s y h. stored-year y.number };

    ghost near = { λ s t. alternating-near t };

    ghost ranged = { λ s t. alternating-ranged t };

    ghost apart = { λ s t u. alternating-apart t u };

    ghost covered = { λ s t. alternating-covered t };
}

impl Years for CountedLookUps {
    fn year_info_from_extended(&self, extended_year: i32) -> AlternatingYear {
        count(&self.others);
        AlternatingYear {
            number: extended_year,
        }
    }

    fn year_containing_rd(&self, rd: RataDie) -> AlternatingYear {
        count(&self.others);
        AlternatingMonths.year_containing_rd(rd)
    }
}

impl DateFieldsResolver for CountedLookUps {
    ghost use Rattle.std.specs.Prelude.{codes, pos};
    ghost use Rattle.cal_types.proofs.EraLemmas.{only_era_reads-in_range, only_era_reads-near};
    ghost use Rattle.cal_types.proofs.YearNameLemmas.{reference_of_known-stands};
    ghost use Rattle.arith_tests.specs.AlternatingMonths.{alternating_names, is_plain};
    ghost use Rattle.arith_tests.specs.laws.AlternatingMonthLaws.{alternating_reference-kind};

    ghost names = { λ _. alternating_names };

    fn extended_year_from_era_year_unchecked(
        &self,
        era: &[u8],
        era_year: i32,
    ) -> Result<i32, UnknownEraError> {
        AlternatingMonths.extended_year_from_era_year_unchecked(era, era_year)
    }

    fn reference_year_from_month_day(
        &self,
        month: Month,
        day: u8,
    ) -> Result<AlternatingYear, EcmaReferenceYearError> {
        AlternatingMonths.reference_year_from_month_day(month, day)
    }

    ghost era_in_range = { λ _ era n y. only_era_reads-in_range (codes "am") era n y };

    ghost era_near = { λ _ era n y. only_era_reads-near (codes "am") era n y };

    ghost reference_of_kind = { λ _ m d. alternating_reference-kind m d };

    ghost reference_of_leap_month = { λ _ m d e. reference_of_known-stands (is_plain m) (pos 1) e };
}

/// Returns the difference of two dates by a counter that starts at 0.
fn difference<L: Ledger>(
    from: i64,
    to: i64,
    options: DateDifferenceOptions,
    cal: &CountedLookUps,
    blank: Blank,
) -> DateDuration
    requires from { IsValidDay from }
    requires to { IsValidDay to }
    requires name { blank.name ≡ L.name }
    requires parts { blank.parts ≡ L.parts }
    requires some { 0 < blank.parts }
{
    let first = ArithmeticDate::from_rata_die(RataDie::new(from), cal);
    let second = ArithmeticDate::from_rata_die(RataDie::new(to), cal);
    cal.counted.set(0);
    cal.others.set(0);
    let mut steps = Steps::<L>::new(blank);
    first.until_counted(&second, cal, options, &mut steps)
}

#[test]
fn a_counted_difference_makes_no_other_look_ups(rt: HostRuntime) {
    use DateDurationUnit::{Days, Months, Weeks, Years};
    let cal = CountedLookUps {
        counted: Cell::new(0),
        others: Cell::new(0),
    };
    // From year 1 to year 1001 of 354 days, and back.
    for &(from, to) in &[(1, 354001), (354001, 1)] {
        for &(unit, most) in &[(Days, 8), (Weeks, 8), (Months, 1008), (Years, 8)] {
            let options = DateDifferenceOptions {
                largest_unit: Some(unit),
            };
            let _ = difference::<Brand>(from, to, options, &cal, Blank::new(1));
            assert_at(&rt, unit, cal.others.get(), 0);
            assert_holds(&rt, unit, cal.counted.get() <= most);
        }
    }
}
