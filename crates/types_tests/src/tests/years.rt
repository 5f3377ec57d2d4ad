//! Years in an era and in the cycle, and numbers as years.

use crate::tests::expected::{assert_holds, assert_same};
use cal_types::{
    CyclicYear, EraYear, IntoYearInfo, TinyAsciiStr, YearAmbiguity, YearInfo, YearInput,
};

fn five_bce(era: TinyAsciiStr<16>) -> EraYear {
    EraYear {
        year: 5,
        extended_year: -4,
        era,
        era_index: Some(0),
        ambiguity: YearAmbiguity::EraAndCenturyRequired,
    }
}

#[test]
fn a_year_in_an_era_is_shown(rt: HostRuntime) {
    let Ok(era) = TinyAsciiStr::try_from_utf8(b"bce") else {
        assert_holds(&rt, "bce", false);
        return;
    };
    let year = &five_bce(era);
    let info = &YearInfo::from(*year);
    assert_same(&rt, info.era_year_or_related_iso(), 5);
    assert_same(&rt, info.extended_year(), -4);
    assert_same(&rt, info.era(), Some(*year));
    assert_same(&rt, info.cyclic(), None);
    assert_same(&rt, year.into_year_info(), *info);
    assert_same(&rt, info.into_year_info(), *info);
}

#[test]
fn a_year_of_the_cycle_is_shown(rt: HostRuntime) {
    let year = &CyclicYear {
        year: 37,
        related_iso: 1900,
    };
    let info = &YearInfo::from(*year);
    assert_same(&rt, info.era_year_or_related_iso(), 1900);
    assert_same(&rt, info.extended_year(), 1900);
    assert_same(&rt, info.era(), None);
    assert_same(&rt, info.cyclic(), Some(*year));
    assert_same(&rt, year.into_year_info(), *info);
}

#[test]
fn a_number_is_an_extended_year(rt: HostRuntime) {
    let input = YearInput::from(-7);
    assert_same(&rt, input, YearInput::Extended(-7));
    assert_same(&rt, input == YearInput::EraYear("ce", -7), false);
}
