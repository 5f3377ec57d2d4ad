//! Recurrence rules of iCalendar (RFC 5545; RFC 7529), in a caller's column.

ghost use Rattle.std.specs.Prelude.{◌≡◌};
ghost use Rattle.cal_tables.specs.Kinds.{kind_system, table_contents};
ghost use Rattle.date_calls.specs.Codes.{contents_of_code, kind_of_code};
ghost use Rattle.recurrence_sets.specs.Occurrences.{IsOfSome};
ghost use Rattle.date_calls.specs.Rules.{AnswersRule, AreRuleListed, FillsRule, ListsRule, ListsRuleOver, fault_told, occurrence_of, part_number};

use crate::codes::{kind_of, tables_of};
use crate::days::ValidDay;
use crate::lists::{Listed, next_day, tell_list, window_of};
use crate::outcomes::{
    INVALID_DAY_NUMBER, INVALID_RULE, INVALID_WINDOW, UNKNOWN_CALENDAR, UNKNOWN_YEARS,
};
use crate::repeated::CalendarOccurrence;
use cal_any::AnyCalendar;
use cal_kinds::AnyCalendarKind;
use cal_rrule::{Listing, Occurrence, rule_occurrences};
use cal_rule::{RecurrenceRule, RuleError, RulePart};
use cal_tables::Tables;
use cal_types::Window;
use icu_calendar::rules::RuleCalendar;
use recurrence_sets::Periods;

/// Why a text is no recurrence rule.
#[repr(C)]
#[derive(Clone, Copy, Debug, PartialEq, Eq, Drop)]
pub struct CalendarRuleFault {
    /// The number of the cause, from 1 to 13.
    pub cause: u8,
    /// The number of the part that the cause is about, from 1 to 16; 0 if it is about none.
    pub part: u8,
}

/// Returns the number of a part.
const fn part_number(part: RulePart) -> u8
    ensures { result ≡ part_number part }
{
    match part {
        RulePart::Freq => 1,
        RulePart::Until => 2,
        RulePart::Count => 3,
        RulePart::Interval => 4,
        RulePart::BySecond => 5,
        RulePart::ByMinute => 6,
        RulePart::ByHour => 7,
        RulePart::ByDay => 8,
        RulePart::ByMonthDay => 9,
        RulePart::ByYearDay => 10,
        RulePart::ByWeekNo => 11,
        RulePart::ByMonth => 12,
        RulePart::BySetPos => 13,
        RulePart::Wkst => 14,
        RulePart::Rscale => 15,
        RulePart::Skip => 16,
    }
}

/// Returns a fault that is about no part.
const fn whole(cause: u8) -> CalendarRuleFault
    ensures cause { result.cause ≡ cause }
    ensures part { result.part ≡ 0 }
{
    CalendarRuleFault { cause, part: 0 }
}

/// Returns a fault that is about a part.
const fn of_part(cause: u8, part: RulePart) -> CalendarRuleFault
    ensures cause { result.cause ≡ cause }
    ensures part { result.part ≡ part_number part }
{
    CalendarRuleFault {
        cause,
        part: part_number(part),
    }
}

/// Returns a fault in the form that a caller receives.
fn fault_told(error: RuleError) -> CalendarRuleFault
    ensures { result ≡ fault_told error }
{
    match error {
        RuleError::BadPart => whole(1),
        RuleError::UnknownPart => whole(2),
        RuleError::RepeatedPart(part) => of_part(3, part),
        RuleError::TimeNotSupported(part) => of_part(4, part),
        RuleError::BadValue(part) => of_part(5, part),
        RuleError::ValueOutOfRange(part) => of_part(6, part),
        RuleError::UnknownCalendar => whole(7),
        RuleError::MismatchedCalendar => whole(8),
        RuleError::MissingPart(part) => of_part(9, part),
        RuleError::CountWithUntil => whole(10),
        RuleError::PartNotAllowed(part) => of_part(11, part),
        RuleError::OrdinalNotAllowed => whole(12),
        RuleError::SetPosAlone => whole(13),
    }
}

/// Returns an occurrence in the form that a caller receives.
fn told(item: Occurrence) -> CalendarOccurrence
    ensures { occurrence_of result ≡ item }
{
    CalendarOccurrence {
        day: item.day.to_i64_date(),
        index: item.index,
    }
}

/// Writes the first occurrences of a list to a column, and returns how many.
fn fill_rule<S: Periods>(list: &mut Listing<S>, items: &mut [CalendarOccurrence]) -> usize
    ensures { FillsRule (IsOfSome (S.has list.old.periods)) list.old.bounds list.old.rest list.new.rest items.old
        items.new result }
{
    let mut written = 0;
    'given: while written < items.len() {
        match list.next() {
            Some(item) => {
                items[written] = told(item);
                written += 1;
            }
            None => return written,
        }
    }
    written
}

/// A start, a rule and a window whose occurrences are asked.
#[derive(Clone, Copy)]
struct RuleDays {
    start: ValidDay,
    rule: RecurrenceRule,
    window: Window,
}

/// Writes the first occurrences in a calendar to a column.
fn list_in<C: RuleCalendar + Copy>(
    calendar: C,
    asked: &RuleDays,
    items: &mut [CalendarOccurrence],
) -> Listed
    ensures { AreRuleListed (C.system calendar) asked.now.start.day asked.now.rule asked.now.window.first
        asked.now.window.last items.old items.new result }
{
    let start = calendar.from_rata_die(asked.start.rata_die());
    let mut list = rule_occurrences(calendar, &start, asked.rule, asked.window);
    let written = fill_rule(&mut list, items);
    Listed {
        written,
        next: next_day(list.rest(), asked.window.last()),
    }
}

/// Writes the first occurrences in the calendar of a kind to a column.
fn list_chosen(
    kind: AnyCalendarKind,
    tables: Tables<'static>,
    asked: &RuleDays,
    items: &mut [CalendarOccurrence],
) -> Listed
    ensures { AreRuleListed (kind_system (table_contents tables.entry) kind) asked.now.start.day asked.now.rule
        asked.now.window.first asked.now.window.last items.old items.new result }
{
    list_in(AnyCalendar::new(kind, tables), asked, items)
}

/// Lists occurrences, and stores how many were written and where the list goes on.
fn list_read(
    kind: AnyCalendarKind,
    tables: Tables<'static>,
    start: ValidDay,
    rule: &[u8],
    window: Window,
    items: &mut [CalendarOccurrence],
    written: &mut usize,
    next: &mut i64,
    fault: &mut CalendarRuleFault,
) -> u8
    requires { written.old ≡ 0 }
    ensures { AnswersRule kind (kind_system (table_contents tables.entry) kind) start.day rule.now window.first
        window.last result items.old items.new written.new next.old next.new fault.old fault.new }
{
    match RecurrenceRule::try_from_utf8(rule, kind) {
        Ok(rule) => {
            let asked = RuleDays {
                start,
                rule,
                window,
            };
            let listed = list_chosen(kind, tables, &asked, items);
            tell_list(Ok(listed), written, next)
        }
        Err(error) => {
            *fault = fault_told(error);
            INVALID_RULE
        }
    }
}

/// Does the same as `list_read`, from the numbers of the days.
fn list_from(
    kind: AnyCalendarKind,
    tables: Tables<'static>,
    start: i64,
    rule: &[u8],
    first: i64,
    last: i64,
    items: &mut [CalendarOccurrence],
    written: &mut usize,
    next: &mut i64,
    fault: &mut CalendarRuleFault,
) -> u8
    requires { written.old ≡ 0 }
    ensures { ListsRule kind (kind_system (table_contents tables.entry) kind) start rule.now first last result
        items.old items.new written.new next.old next.new fault.old fault.new }
{
    let Some(start) = ValidDay::of(start) else {
        return INVALID_DAY_NUMBER;
    };
    let Some(window) = window_of(first, last) else {
        return INVALID_WINDOW;
    };
    list_read(
        kind, tables, start, rule, window, items, written, next, fault,
    )
}

/// Lists the occurrences of a recurrence rule of iCalendar (RFC 5545, RRULE; RFC 7529) from `first` to `last`: `rule` is
/// its text, such as `FREQ=MONTHLY;BYDAY=-1FR`, and `start` the day that it starts on. As many of them as `items` has
/// places are written to its start, in order, and their number to `written`. An item's index is how many occurrences
/// come before it from the start on, whatever the window is. The start is an occurrence only if the rule has it.
///
/// The list goes on from the day `next`: the same call with `next` in place of `first` writes the items that follow,
/// with their indices. If `next` comes after `last`, none do. Each call counts from the start.
///
/// # Errors
///
/// The code is 0 if occurrences are listed. Otherwise `items` and `next` are unchanged, `written` is 0, and the code is
/// the first of:
///
/// - 1 or 2 for an unknown calendar or an unknown source of years.
/// - 4 if `start` isn't from -365242499 to 365242134.
/// - 5 if a day of the window isn't from -365242499 to 365242134, or if `last` comes before `first`.
/// - 22 if the text is no rule of the calendar. Then `fault` says why; otherwise it is unchanged.
///
/// The causes are numbered in the order of [`RuleError`], from 1, and the parts in the order of [`RulePart`], from 1.
pub fn rule_days(
    calendar: u8,
    years: u8,
    start: i64,
    rule: &[u8],
    first: i64,
    last: i64,
    items: &mut [CalendarOccurrence],
    written: &mut usize,
    next: &mut i64,
    fault: &mut CalendarRuleFault,
) -> u8
    ensures { ListsRuleOver (kind_of_code calendar) (contents_of_code years) start rule.now first last result items.old
        items.new written.new next.old next.new fault.old fault.new }
{
    *written = 0;
    let Some(kind) = kind_of(calendar) else {
        return UNKNOWN_CALENDAR;
    };
    let Some(tables) = tables_of(years) else {
        return UNKNOWN_YEARS;
    };
    list_from(
        kind, tables, start, rule, first, last, items, written, next, fault,
    )
}
