//! What the words of the command line ask for.

use cal_hijri::TabularAlgorithmLeapYears;

/// What is done to each date.
#[derive(Clone, Copy)]
pub enum Operation {
    /// From the day number to the year, the month and the day, and back to the day number.
    Day,
    /// The addition of a year.
    AddYear,
    /// The addition of a month.
    AddMonth,
    /// The addition of a day.
    AddDay,
    /// The addition of twelve months.
    AddMonthsOfAYear,
    /// The addition of the months of about two million years.
    AddFarMonths,
    /// The dates of two day numbers, some centuries apart.
    Pair,
    /// The difference in years between two such dates.
    Difference,
    /// The difference in months between two dates a year apart.
    MonthsOverAYear,
    /// The difference in months between two dates about two million years apart.
    FarMonths,
    /// A plain ISO date text read into the calendar, and its day number.
    Text,
    /// As `Day`, in published years alone.
    PublishedDay,
    /// The next first day of a year, of a list of some eight centuries.
    Anniversary,
    /// The next first day of a year, of a list of published years.
    PublishedAnniversary,
    /// An occurrence of every month from a date on, by its index.
    Occurrence,
    /// The first index of every month that isn't before a day, some two million years after the start.
    FirstIndex,
}

/// Where the years of a calendar over a table come from.
#[derive(Clone, Copy)]
pub enum Years {
    /// All years are computed.
    Computed,
    /// Published years stand in place of computed ones.
    Published,
}

/// A calendar's name.
#[derive(Clone, Copy)]
pub enum CalendarName {
    /// The ISO calendar.
    Iso,
    /// The Gregorian calendar.
    Gregorian,
    /// The Buddhist calendar.
    Buddhist,
    /// The ROC calendar.
    Roc,
    /// The Japanese calendar.
    Japanese,
    /// The Julian calendar.
    Julian,
    /// The Coptic calendar.
    Coptic,
    /// The Ethiopian calendar.
    Ethiopian,
    /// The Indian calendar.
    Indian,
    /// The Persian calendar.
    Persian,
    /// The Hebrew calendar.
    Hebrew,
    /// The tabular Hijri calendar with these leap years, from Friday on.
    HijriTabular(TabularAlgorithmLeapYears),
    /// The Umm al-Qura calendar.
    HijriUmmAlQura(Years),
    /// The Chinese calendar.
    Chinese(Years),
    /// The Korean calendar.
    Dangi(Years),
}

/// An operation, the calendar of its dates, and how often it is done.
#[derive(Clone, Copy)]
pub struct Work {
    /// What is done to each date.
    pub operation: Operation,
    /// The calendar of the dates.
    pub calendar: CalendarName,
    /// How often it is done.
    pub count: u32,
}

fn read_operation(word: &str) -> Option<Operation> {
    match word {
        "day" => Some(Operation::Day),
        "year" => Some(Operation::AddYear),
        "month" => Some(Operation::AddMonth),
        "add-day" => Some(Operation::AddDay),
        "add-months" => Some(Operation::AddMonthsOfAYear),
        "add-far-months" => Some(Operation::AddFarMonths),
        "pair" => Some(Operation::Pair),
        "difference" => Some(Operation::Difference),
        "months" => Some(Operation::MonthsOverAYear),
        "far-months" => Some(Operation::FarMonths),
        "text" => Some(Operation::Text),
        "published-day" => Some(Operation::PublishedDay),
        "anniversary" => Some(Operation::Anniversary),
        "published-anniversary" => Some(Operation::PublishedAnniversary),
        "occurrence" => Some(Operation::Occurrence),
        "first-index" => Some(Operation::FirstIndex),
        _ => None,
    }
}

fn read_calendar(word: &str) -> Option<CalendarName> {
    match word {
        "iso" => Some(CalendarName::Iso),
        "gregorian" => Some(CalendarName::Gregorian),
        "buddhist" => Some(CalendarName::Buddhist),
        "roc" => Some(CalendarName::Roc),
        "japanese" => Some(CalendarName::Japanese),
        "julian" => Some(CalendarName::Julian),
        "coptic" => Some(CalendarName::Coptic),
        "ethiopic" => Some(CalendarName::Ethiopian),
        "indian" => Some(CalendarName::Indian),
        "persian" => Some(CalendarName::Persian),
        "hebrew" => Some(CalendarName::Hebrew),
        "islamic-civil" => Some(CalendarName::HijriTabular(TabularAlgorithmLeapYears::TypeII)),
        "islamic-type1-friday" => Some(CalendarName::HijriTabular(
            TabularAlgorithmLeapYears::TypeI,
        )),
        "islamic-umalqura" => Some(CalendarName::HijriUmmAlQura(Years::Computed)),
        "chinese" => Some(CalendarName::Chinese(Years::Computed)),
        "dangi" => Some(CalendarName::Dangi(Years::Computed)),
        "islamic-umalqura-published" => Some(CalendarName::HijriUmmAlQura(Years::Published)),
        "chinese-published" => Some(CalendarName::Chinese(Years::Published)),
        "dangi-published" => Some(CalendarName::Dangi(Years::Published)),
        _ => None,
    }
}

/// Returns the number that a word of one to nine decimal digits spells.
fn read_count(word: &[u8]) -> Option<u32> {
    if word.is_empty() || word.len() > 9 {
        return None;
    }
    let mut value = 0u32;
    for byte in word {
        if !byte.is_ascii_digit() {
            return None;
        }
        value = value.wrapping_mul(10).wrapping_add(u32::from(*byte - b'0'));
    }
    Some(value)
}

/// Returns the work that the words name: an operation, a calendar, and a count of one to nine digits.
pub fn read_words(words: &[String]) -> Option<Work> {
    match words {
        [first, second, third] => Some(Work {
            operation: read_operation(first.as_str())?,
            calendar: read_calendar(second.as_str())?,
            count: read_count(third.as_bytes())?,
        }),
        _ => None,
    }
}
