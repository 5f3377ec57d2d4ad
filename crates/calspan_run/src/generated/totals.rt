//! Counts and sums over the answers to requests.
ghost use Rattle.std.specs.Prelude.{◌≡◌, ◌+◌, ◌<◌, ◌≤◌, ◌++◌};
ghost use Rattle.arrayvec.specs.ArrayVec.{array_vec_len};
ghost use Rattle.cal_days.specs.Day.{IsValidDay};
ghost use Rattle.reply_texts.specs.DateParts.{IsDay};
ghost use Rattle.calspan_run.specs.Generator.{AreTotals, IsCounted, no_totals, parts_text, totals_text, with_refusal, with_span};
ghost use Rattle.request_lines.specs.RequestSaid.{request_said};
ghost use Rattle.calspan_run.specs.TotalBounds.{AreBounded, counted};

use crate::generated::generator::generated_request;
use crate::kinds::name_dates;
use cal_tables::Tables;
use reply_texts::{DayParts, Pending, SpanParts, push_all, push_number, push_signed};
use request_lines::Request;

/// Counts and sums over the answers to requests. The sums over durations ignore their signs.
#[derive(Clone, Copy, Debug, PartialEq, Eq)]
pub struct Totals {
    /// The number of requests answered `ok`.
    pub answered: u32,
    /// The number of requests answered `err`.
    pub refused: u32,
    /// The sum of the day numbers (rata die) of both dates of each answer.
    pub day_numbers: i64,
    /// The sum of the durations' years.
    pub years: u64,
    /// The sum of the durations' months.
    pub months: u64,
    /// The sum of the durations' weeks.
    pub weeks: u64,
    /// The sum of the durations' days.
    pub days: u64,
}

impl Totals {
    /// Creates the totals over no requests.
    pub fn new() -> Totals
        ensures { result ≡ no_totals }
    {
        Totals {
            answered: 0,
            refused: 0,
            day_numbers: 0,
            years: 0,
            months: 0,
            weeks: 0,
            days: 0,
        }
    }
}

/// Returns the day number of a date.
fn day_number_of(parts: &DayParts) -> i64
    requires { IsDay parts.now }
    ensures value { result ≡ parts.now.rata_die }
    ensures valid { IsValidDay result }
{
    parts.rata_die.to_i64_date()
}

/// Adds a part of a duration to a sum.
fn added(sum: u64, part: u32) -> u64
    requires { sum ≤ 429496729500000 }
    ensures value { result ≡ sum + part }
    ensures bound { result ≤ sum + 4294967295 }
{
    sum + u64::from(part)
}

/// Adds an `ok` answer to the totals.
fn with_span(totals: Totals, parts: &SpanParts) -> Totals
    requires few { counted totals < 100000 }
    requires bounded { AreBounded totals }
    requires from { IsDay parts.now.from }
    requires to { IsDay parts.now.to }
    ensures value { let p = parts.now in result ≡ with_span totals p.from.rata_die p.to.rata_die p.duration }
    ensures bounded { AreBounded result }
    ensures one { counted result ≡ counted totals + 1 }
{
    let days = day_number_of(&parts.from) + day_number_of(&parts.to);
    Totals {
        answered: totals.answered + 1,
        refused: totals.refused,
        day_numbers: totals.day_numbers + days,
        years: added(totals.years, parts.duration.years),
        months: added(totals.months, parts.duration.months),
        weeks: added(totals.weeks, parts.duration.weeks),
        days: added(totals.days, parts.duration.days),
    }
}

/// Adds an `err` answer to the totals.
fn with_refusal(totals: Totals) -> Totals
    requires few { counted totals < 100000 }
    requires bounded { AreBounded totals }
    ensures value { result ≡ with_refusal totals }
    ensures bounded { AreBounded result }
    ensures one { counted result ≡ counted totals + 1 }
{
    Totals {
        refused: totals.refused + 1,
        ..totals
    }
}

/// Adds the answer to a request, over tables without rows, to the totals.
fn with_request(totals: Totals, request: &Request) -> Totals
    requires few { counted totals < 100000 }
    requires bounded { AreBounded totals }
    ensures counted { IsCounted (request_said request.now) totals result }
    ensures bounded { AreBounded result }
    ensures one { counted result ≡ counted totals + 1 }
{
    let header = &request.header;
    let tables = Tables::none();
    let mut parts = SpanParts::unnamed();
    match name_dates(
        &mut parts,
        header.calendar,
        &tables,
        &request.from,
        &request.to,
        header.options,
        header.difference,
    ) {
        Ok(()) => with_span(totals, &parts),
        Err(_) => with_refusal(totals),
    }
}

/// Returns the totals over the first `count` generated requests.
pub fn totals_over(count: u32) -> Totals
    requires { count ≤ 100000 }
    ensures { AreTotals count result }
{
    let mut totals = Totals::new();
    let mut index = 0;
    'requests: while index < count {
        totals = with_request(totals, &generated_request(index));
        index += 1;
    }
    totals
}

/// Appends the line of `gen`: the number of requests and their totals.
pub fn push_totals(text: &mut Pending, count: u32, totals: &Totals)
    requires { array_vec_len text.old + 200 ≤ 8192 }
    ensures { text.new.items ≡ text.old.items ++ totals_text count totals.now }
{
    push_all(text, b"gen ");
    push_number(text, u64::from(count));
    push_all(text, b" ok ");
    push_number(text, u64::from(totals.answered));
    push_all(text, b" err ");
    push_number(text, u64::from(totals.refused));
    push_all(text, b" sum ");
    push_signed(text, totals.day_numbers);
    push_parts(text, totals);
    text.push(b'\n');
}

/// Appends the sums of the durations' parts.
fn push_parts(text: &mut Pending, totals: &Totals)
    requires { array_vec_len text.old + 91 ≤ 8192 }
    ensures items { let t = totals.now in
        text.new.items ≡ text.old.items ++ parts_text t }
    ensures len { array_vec_len text.new ≤ array_vec_len text.old + 91 }
{
    push_all(text, b" parts ");
    push_number(text, totals.years);
    text.push(b' ');
    push_number(text, totals.months);
    text.push(b' ');
    push_number(text, totals.weeks);
    text.push(b' ');
    push_number(text, totals.days);
}
