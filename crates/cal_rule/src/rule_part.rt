//! The parts of a rule, and their names.

ghost use Rattle.std.specs.Prelude.{◌≡◌, ◌<◌};
ghost use Rattle.cal_rule.specs.RuleNames.{part_name, part_named, part_place};

use crate::words::is_word;
use std::fmt;

/// A part of a recurrence rule: what stands before the `=` (RFC 5545, 3.3.10; RFC 7529, 4).
#[derive(Clone, Copy, Debug, PartialEq, Eq)]
pub enum RulePart {
    /// `FREQ`: how often the rule recurs.
    Freq,
    /// `UNTIL`: the last day on which an occurrence may fall.
    Until,
    /// `COUNT`: the number of occurrences.
    Count,
    /// `INTERVAL`: from how many periods one is taken.
    Interval,
    /// `BYSECOND`, which no rule over dates may have.
    BySecond,
    /// `BYMINUTE`, which no rule over dates may have.
    ByMinute,
    /// `BYHOUR`, which no rule over dates may have.
    ByHour,
    /// `BYDAY`: weekdays, all of them or by their place in the month or year.
    ByDay,
    /// `BYMONTHDAY`: days of the month.
    ByMonthDay,
    /// `BYYEARDAY`: days of the year.
    ByYearDay,
    /// `BYWEEKNO`: weeks of the year.
    ByWeekNo,
    /// `BYMONTH`: months.
    ByMonth,
    /// `BYSETPOS`: places among the days of a period.
    BySetPos,
    /// `WKST`: the first day of a week.
    Wkst,
    /// `RSCALE`: the calendar.
    Rscale,
    /// `SKIP`: how to handle a month or day that doesn't exist.
    Skip,
}

/// All parts.
const PARTS: [RulePart; 16] = [
    RulePart::Freq,
    RulePart::Until,
    RulePart::Count,
    RulePart::Interval,
    RulePart::BySecond,
    RulePart::ByMinute,
    RulePart::ByHour,
    RulePart::ByDay,
    RulePart::ByMonthDay,
    RulePart::ByYearDay,
    RulePart::ByWeekNo,
    RulePart::ByMonth,
    RulePart::BySetPos,
    RulePart::Wkst,
    RulePart::Rscale,
    RulePart::Skip,
];

impl RulePart {
    /// Returns the part's name in capitals, such as `BYDAY`.
    ///
    /// # Examples
    ///
    /// ```
    /// assert!(rt; RulePart::ByDay.name() == "BYDAY");
    /// ```
    pub const fn name(self) -> &'static str
        ensures { result.now ≡ part_name self }
    {
        match self {
            RulePart::Freq => "FREQ",
            RulePart::Until => "UNTIL",
            RulePart::Count => "COUNT",
            RulePart::Interval => "INTERVAL",
            RulePart::BySecond => "BYSECOND",
            RulePart::ByMinute => "BYMINUTE",
            RulePart::ByHour => "BYHOUR",
            RulePart::ByDay => "BYDAY",
            RulePart::ByMonthDay => "BYMONTHDAY",
            RulePart::ByYearDay => "BYYEARDAY",
            RulePart::ByWeekNo => "BYWEEKNO",
            RulePart::ByMonth => "BYMONTH",
            RulePart::BySetPos => "BYSETPOS",
            RulePart::Wkst => "WKST",
            RulePart::Rscale => "RSCALE",
            RulePart::Skip => "SKIP",
        }
    }

    /// Returns the part with a name.
    pub(crate) fn named(text: &[u8]) -> Option<RulePart>
        ensures { result ≡ part_named text.now }
    {
        PARTS
            .iter()
            .copied()
            .find(|part| is_word(text, part.name()))
    }

    /// Returns the part's place among all parts, from 0.
    pub(crate) const fn place(self) -> usize
        ensures value { result ≡ part_place self }
        ensures bound { result < 16 }
    {
        match self {
            RulePart::Freq => 0,
            RulePart::Until => 1,
            RulePart::Count => 2,
            RulePart::Interval => 3,
            RulePart::BySecond => 4,
            RulePart::ByMinute => 5,
            RulePart::ByHour => 6,
            RulePart::ByDay => 7,
            RulePart::ByMonthDay => 8,
            RulePart::ByYearDay => 9,
            RulePart::ByWeekNo => 10,
            RulePart::ByMonth => 11,
            RulePart::BySetPos => 12,
            RulePart::Wkst => 13,
            RulePart::Rscale => 14,
            RulePart::Skip => 15,
        }
    }
}

/// Writes the part's name, such as `BYDAY`.
impl fmt::Display for RulePart {
    ghost use Rattle.std.specs.Prelude.{Some};
    ghost use Rattle.cal_rule.specs.RuleNames.{part_name};

    ghost output = { λ part. Some (part_name part) };

    fn fmt<W: fmt::Write>(&self, f: &mut fmt::Formatter<W>) -> fmt::Result {
        f.write_str(self.name())
    }
}
