//! A calendar that counts its years from ISO year 1911.

ghost use Rattle.cal_base.specs.OffsetList.{IsOffset};

use cal_arith::eras::year_in_only_era;
use cal_base::{AbstractGregorian, GregorianYears};
use cal_types::{CalendarAlgorithm, EraYear, TinyAsciiStr, UnknownEraError, YearAmbiguity};

/// Years that are counted from an ISO year.
#[derive(Clone, Copy, Debug)]
pub(crate) struct CountedFrom {
    iso_year: i32,
    ghost small: { IsOffset iso_year },
}

impl GregorianYears for CountedFrom {
    ghost use Rattle.std.specs.Prelude.{codes, refl, None};
    ghost use Rattle.cal_types.specs.Eras.{only_era_reads};
    ghost use Rattle.cal_types.proofs.EraLemmas.{only_era_reads-in_range, only_era_reads-near};
    ghost use Rattle.cal_base.specs.IsoEra.{iso_era_year};

    ghost offset = { λ s. s.iso_year };

    ghost reads = { λ _. only_era_reads (codes "default") };

    ghost era_year = { λ _ t. iso_era_year t };

    ghost algorithm = { λ _. None };

    ghost name = { λ _. codes "counted" };

    fn year_offset(&self) -> i32 {
        self.iso_year
    }

    fn extended_from_era_year(&self, era: &[u8], year_of_era: i32) -> Result<i32, UnknownEraError> {
        year_in_only_era(b"default", era, year_of_era)
    }

    fn era_year_from_extended(&self, extended_year: i32, _month: u8, _day: u8) -> EraYear {
        EraYear {
            year: extended_year,
            extended_year,
            era: TinyAsciiStr::of_text(b"default"),
            era_index: Some(0),
            ambiguity: YearAmbiguity::Unambiguous,
        }
    }

    fn calendar_algorithm(&self) -> Option<CalendarAlgorithm> {
        None
    }

    fn debug_name(&self) -> &'static str {
        "counted"
    }

    ghost offset_bound = { λ s. s.small };

    ghost era_in_range = { λ _ era n y. only_era_reads-in_range (codes "default") era n y };

    ghost era_near = { λ _ era n y. only_era_reads-near (codes "default") era n y };

    ghost named = { λ _ t. refl };
}

/// Returns the calendar of the Republic of China.
pub(crate) fn minguo() -> AbstractGregorian<CountedFrom> {
    AbstractGregorian(CountedFrom { iso_year: 1911 })
}
