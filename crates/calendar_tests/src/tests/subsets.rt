//! Which subsets of seven Gregorian fields, that agree with one another, name a date.

use super::*;
use DateFromFieldsError::{NotEnoughFields, TooManyFields};
use MissingFieldsStrategy::{Ecma, Reject};

/// Which of the fields a subset has, by the seven bits of its number.
#[derive(Clone, Copy)]
struct Subset {
    era: bool,
    era_year: bool,
    extended_year: bool,
    month: bool,
    month_code: bool,
    ordinal_month: bool,
    day: bool,
}

fn of_number(number: u8) -> Subset {
    Subset {
        era: number & 1 != 0,
        era_year: number & 2 != 0,
        extended_year: number & 4 != 0,
        month: number & 8 != 0,
        month_code: number & 16 != 0,
        ordinal_month: number & 32 != 0,
        day: number & 64 != 0,
    }
}

/// The subset's fields, each of which fits 2000-04-20.
fn fields_of(has: Subset) -> DateFields<'static> {
    let year = (
        if has.era { Some("ad") } else { None },
        if has.era_year { Some(2000) } else { None },
        if has.extended_year { Some(2000) } else { None },
    );
    let month = (
        if has.month { Some(Month::new(4)) } else { None },
        if has.month_code { Some("M04") } else { None },
        if has.ordinal_month { Some(4) } else { None },
    );
    bag(year, month, if has.day { Some(20) } else { None })
}

/// A year is named by an era with its year, by the extended year, or by all three.
fn names_year(has: Subset) -> bool {
    has.era == has.era_year && (has.era || has.extended_year)
}

/// A month is named by month or month code, each with or without its place, or by its place alone.
fn names_month(has: Subset) -> bool {
    has.month != has.month_code || (has.ordinal_month && !has.month)
}

/// The fault of a subset that names no date. Too few fields come before too many, and too many before a year
/// that isn't named.
fn fault_of(has: Subset, missing: MissingFieldsStrategy) -> DateFromFieldsError {
    let may_lack_day = missing == Ecma && (has.era_year || has.extended_year);
    if has.month && has.month_code && (has.day || may_lack_day) {
        TooManyFields
    } else {
        NotEnoughFields
    }
}

/// The day that a subset names: 2000-04-20, 2000-04-01 where it lacks the day, and 1972-04-20 where it has the
/// day with month or month code alone.
fn wanted(has: Subset, missing: MissingFieldsStrategy) -> Result<i64, DateFromFieldsError> {
    let is_ecma = missing == Ecma;
    let lacks_year = !has.era && !has.era_year && !has.extended_year;
    if names_year(has) && names_month(has) && has.day {
        Ok(730230)
    } else if names_year(has) && names_month(has) && is_ecma {
        Ok(730211)
    } else if lacks_year
        && has.month != has.month_code
        && !has.ordinal_month
        && has.day
        && is_ecma
    {
        Ok(720003)
    } else {
        Err(fault_of(has, missing))
    }
}

#[test]
fn subsets_that_name_year_month_and_day_are_dates(rt: HostRuntime) {
    for &(name, options, missing) in &[
        ("strict", STRICT, Reject),
        ("clamps", CLAMPS, Reject),
        ("fills", FILLS, Ecma),
        ("lenient", LENIENT, Ecma),
        ("default", DateFromFieldsOptions::default(), Reject),
    ] {
        for number in 0u8..128 {
            let has = of_number(number);
            let want = wanted(has, missing);
            let holds = is_day(fields_of(has), options, GREGORIAN, want);
            assert_holds(&rt, (number, name), holds);
        }
    }
}
