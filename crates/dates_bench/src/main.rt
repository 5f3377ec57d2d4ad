//! Repeats an operation on dates of a calendar, so that it can be measured from outside.
//!
//! The words are an operation, a calendar and a count. The answer is a checksum of all results.
#![tactic(auto)]

mod days;
mod lists;
mod measure;
mod words;

use anyhow::{Context, Result};
use cal_base::Iso;
use cal_coptic::{Coptic, Ethiopian};
use cal_east_asian::{
    ChineseTraditional, EastAsianTable, EastAsianTraditional, KoreanTraditional,
    Rules as EastAsianRules, Side,
};
use cal_gregory::{Buddhist, Gregorian, Japanese, Roc};
use cal_hebrew::Hebrew;
use cal_hijri::{
    Hijri, HijriTable, Rules as HijriRules, TabularAlgorithm, TabularAlgorithmEpoch,
    TabularAlgorithmLeapYears, UmmAlQura,
};
use cal_julian::{Indian, Julian, Persian, PersianCorrections};
use measure::measure;
use published_years::{chinese, korean, umm_al_qura};
use std::env;
use std::process::ExitCode;
use words::{CalendarName, Operation, Work, Years, read_words};

/// Returns the tabular Hijri calendar with these leap years, from Friday on.
fn tabular(leap_years: TabularAlgorithmLeapYears) -> Hijri<TabularAlgorithm> {
    Hijri::new_tabular(leap_years, TabularAlgorithmEpoch::Friday)
}

/// Returns the Umm al-Qura calendar over these years.
fn umm_al_qura_over(years: Years) -> Hijri<UmmAlQura<'static>> {
    match years {
        Years::Computed => Hijri::new_umm_al_qura(HijriTable::none()),
        Years::Published => umm_al_qura(),
    }
}

/// Returns the Chinese calendar over these years.
fn chinese_over(years: Years) -> ChineseTraditional<'static> {
    match years {
        Years::Computed => ChineseTraditional::new(EastAsianTable::none(Side::China)),
        Years::Published => chinese(),
    }
}

/// Returns the Korean calendar over these years.
fn korean_over(years: Years) -> KoreanTraditional<'static> {
    match years {
        Years::Computed => KoreanTraditional::new(EastAsianTable::none(Side::Korea)),
        Years::Published => korean(),
    }
}

/// Returns the checksum of the work in a Hijri calendar.
fn measure_in_hijri<R: HijriRules + Copy>(
    operation: Operation,
    count: u32,
    calendar: Hijri<R>,
) -> i64 {
    measure(operation, count, calendar)
}

/// Returns the checksum of the work in the Chinese or the Korean calendar.
fn measure_in_east_asian<R: EastAsianRules + Copy>(
    operation: Operation,
    count: u32,
    calendar: EastAsianTraditional<R>,
) -> i64 {
    measure(operation, count, calendar)
}

/// Returns the checksum of the work.
fn checksum(work: Work) -> i64 {
    let Work {
        operation,
        calendar,
        count,
    } = work;
    match calendar {
        CalendarName::Iso => measure(operation, count, Iso),
        CalendarName::Gregorian => measure(operation, count, Gregorian),
        CalendarName::Buddhist => measure(operation, count, Buddhist),
        CalendarName::Roc => measure(operation, count, Roc),
        CalendarName::Japanese => measure(operation, count, Japanese::new()),
        CalendarName::Julian => measure(operation, count, Julian),
        CalendarName::Coptic => measure(operation, count, Coptic),
        CalendarName::Ethiopian => measure(operation, count, Ethiopian::new()),
        CalendarName::Indian => measure(operation, count, Indian),
        CalendarName::Persian => {
            measure(operation, count, Persian::new(PersianCorrections::none()))
        }
        CalendarName::Hebrew => measure(operation, count, Hebrew),
        CalendarName::HijriTabular(leap_years) => {
            measure_in_hijri(operation, count, tabular(leap_years))
        }
        CalendarName::HijriUmmAlQura(years) => {
            measure_in_hijri(operation, count, umm_al_qura_over(years))
        }
        CalendarName::Chinese(years) => {
            measure_in_east_asian(operation, count, chinese_over(years))
        }
        CalendarName::Dangi(years) => {
            measure_in_east_asian(operation, count, korean_over(years))
        }
    }
}

/// Does what the words of the command line ask for. The status is 2 where they ask for nothing.
fn run(rt: &HostRuntime) -> Result<u8> {
    let words = env::args(rt)
        .context("reading the words")?
        .skip(1)
        .collect::<Vec<String>>(rt.alloc())?;
    match read_words(&words) {
        Some(work) => {
            println!(rt; "{}", checksum(work))?;
            Ok(0)
        }
        None => {
            eprintln!(rt;
                "usage: dates_bench OPERATION CALENDAR COUNT, as day iso 1000; bench/operations.py names all"
            )?;
            Ok(2)
        }
    }
}

fn main(rt: HostRuntime) -> Result<ExitCode> {
    Ok(ExitCode::from(run(&rt)?))
}
