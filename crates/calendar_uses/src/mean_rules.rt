//! Rules of a caller's own: a Chinese calendar of mean moons and terms, at one offset for all time.

ghost use Rattle.std.specs.Prelude.{◌≡◌, Err};
ghost use Rattle.icu_calendar.specs.MeanYears.{IsOffset};
ghost use Rattle.icu_calendar.specs.declared.EcmaReferenceYearError.TheVariants.{Unimplemented};

use icu_calendar::east_asian::{EastAsianTraditionalYear, Rules};
use icu_calendar::{CalendarAlgorithm, EcmaReferenceYearError, Month, UnstableSealed, mean_year};

/// Mean years at an offset from Greenwich, in milliseconds.
#[derive(Clone, Copy, Debug)]
pub struct MeanRules {
    utc_offset: i64,
    ghost offset: { IsOffset utc_offset },
}

/// Two offsets differ.
#[derive(Clone, Copy, Debug)]
pub struct OtherOffset;

impl MeanRules {
    /// Creates the rules for an offset from 27940000 to 32400000.
    pub fn new(utc_offset: i64) -> MeanRules
        requires { IsOffset utc_offset }
        ensures { result.utc_offset ≡ utc_offset }
    {
        MeanRules { utc_offset }
    }
}

impl UnstableSealed for MeanRules {}

impl Rules for MeanRules {
    ghost use Rattle.std.specs.Prelude.{None, codes, refl};
    ghost use Rattle.std.specs.Ordering.{int_eq};
    ghost use Rattle.std.specs.Cmp.{on_equiv, int_eq_equiv};
    ghost use Rattle.icu_calendar.specs.MeanTraditionalYears.{mean_traditional_year};
    ghost use Rattle.icu_calendar.specs.MeanTraditionalLaws.{mean-years};
    ghost use Rattle.icu_calendar.specs.RuleLaws.{mean-shared, unimplemented-year, unimplemented-kind, unimplemented-leap_month};

    type DateCompatibilityError = OtherOffset;

    ghost year_of = { λ s y. mean_traditional_year s.utc_offset s.offset y };

    ghost reference = { λ _ _ _. Err Unimplemented };

    ghost compatible = { λ s t. int_eq s.utc_offset t.utc_offset };

    ghost algorithm = { λ _. None };

    ghost name = { λ _. codes "mean years" };

    fn year(&self, related_iso: i32) -> EastAsianTraditionalYear {
        mean_year(self.utc_offset, related_iso)
    }

    fn ecma_reference_year(&self, _month: Month, _day: u8) -> Result<i32, EcmaReferenceYearError> {
        Err(EcmaReferenceYearError::Unimplemented)
    }

    fn check_date_compatibility(&self, other: &Self) -> Result<(), OtherOffset> {
        if self.utc_offset == other.utc_offset {
            Ok(())
        } else {
            Err(OtherOffset)
        }
    }

    fn calendar_algorithm(&self) -> Option<CalendarAlgorithm> {
        None
    }

    fn debug_name(&self) -> &'static str {
        "mean years"
    }

    ghost lawful = { λ s. mean-years s.utc_offset s.offset };

    ghost reference_in_range = { λ _ _ _ y e. unimplemented-year y e };

    ghost reference_of_kind = { λ _ _ _ e. unimplemented-kind e };

    ghost reference_of_leap_month = { λ _ _ _ e. unimplemented-leap_month e };

    ghost refusal = { λ _ _ _. record {} };

    ghost alike = { on_equiv (λ s. s.utc_offset) int_eq_equiv };

    ghost shared = { λ s t y h _. mean-shared s.utc_offset t.utc_offset s.offset t.offset h y };

    ghost shared_references = { λ _ _ _ _ _. refl };

    ghost shared_names = { λ _ _ _. (refl, refl) };
}
