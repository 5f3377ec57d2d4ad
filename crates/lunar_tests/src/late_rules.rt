//! Rules whose years start as late as rules may have them.

ghost use Rattle.std.specs.Prelude.{◌≡◌, pos, neg_ℤ, ◌+ℤ◌};
ghost use Rattle.cal_days.specs.Day.{IsBetween};
ghost use Rattle.lunar_tests.specs.LateYears.{late_month_starts};
ghost use Rattle.lunar_tests.specs.LateStarts.{late_start};

use cal_base::scaffold::UnstableSealed;
use cal_days::{RataDie, islamic};
use cal_hijri::{HijriYear, Rules};
use cal_types::{CalendarAlgorithm, EcmaReferenceYearError, Month};
use std::convert::Infallible;

/// Rules by which a year starts 5 days after its mean start.
#[derive(Clone, Copy, Debug)]
pub struct Late;

/// The first day of a year.
#[tactic(auto, using(cal_days::proofs::Signed::signed))]
fn late_start(year: i32) -> i64
    requires { IsBetween (neg_ℤ (pos 8000001)) (pos 8000001) year }
    ensures day { result ≡ late_start year }
    ensures near { IsBetween (neg_ℤ (pos 4000000000)) (pos 4000000000) result }
{
    let thirtieths = (i64::from(year) - 1) * 10631;
    islamic::FRIDAY_EPOCH + thirtieths / 30 + 5
}

/// The day some days after another.
fn day_after(first: i64, days: i64) -> RataDie
    requires first { IsBetween (neg_ℤ (pos 4000000000)) (pos 4000000000) first }
    requires days { IsBetween (pos 0) (pos 360) days }
    ensures { result ≡ first +ℤ days }
{
    RataDie::new(first + days)
}

/// The first days of the months of a year, and of the next year.
fn month_starts(first: i64, next: i64) -> [RataDie; 13]
    requires first { IsBetween (neg_ℤ (pos 4000000000)) (pos 4000000000) first }
    requires next { IsBetween (neg_ℤ (pos 4000000000)) (pos 4000000000) next }
    ensures { result ≡ late_month_starts first next }
{
    [
        day_after(first, 0),
        day_after(first, 30),
        day_after(first, 59),
        day_after(first, 89),
        day_after(first, 118),
        day_after(first, 148),
        day_after(first, 177),
        day_after(first, 207),
        day_after(first, 236),
        day_after(first, 266),
        day_after(first, 295),
        day_after(first, 325),
        day_after(next, 0),
    ]
}

impl UnstableSealed for Late {}

impl Rules for Late {
    ghost use Rattle.std.specs.Prelude.{true, refl};
    ghost use Rattle.cal_base.specs.laws.Compatibility.{all_alike, never_refused};
    ghost use Rattle.cal_hijri.specs.laws.HijriNameLaws.{no-references};
    ghost use Rattle.lunar_tests.specs.LateYears.{late_year};
    ghost use Rattle.lunar_tests.specs.laws.LateYearLaws.{late-numbered, late-joins};

    type DateCompatibilityError = Infallible;

    ghost year_of = { λ _ y. late_year y };

    ghost compatible = { λ _ _. true };

    fn year(&self, extended_year: i32) -> HijriYear {
        let starts = month_starts(late_start(extended_year), late_start(extended_year + 1));
        match HijriYear::try_new(extended_year, starts) {
            Some(year) => year,
            None => unreachable!(),
        }
    }

    fn ecma_reference_year(&self, _month: Month, _day: u8) -> Result<i32, EcmaReferenceYearError> {
        Err(EcmaReferenceYearError::Unimplemented)
    }

    fn check_date_compatibility(&self, _other: &Self) -> Result<(), Infallible> {
        Ok(())
    }

    fn calendar_algorithm(&self) -> Option<CalendarAlgorithm> {
        None
    }

    fn debug_name(&self) -> &'static str {
        "Hijri (custom rules)"
    }

    ghost numbered = { λ _. late-numbered };

    ghost joins = { λ _. late-joins };

    ghost references = { λ _. no-references };

    ghost refusal = { λ _ _ h. never_refused h };

    ghost alike = { all_alike };

    ghost shared = { λ _ _ _ _ _. refl };

    ghost shared_references = { λ _ _ _ _ _. refl };

    ghost shared_names = { λ _ _ _. (refl, refl) };
}
