//! Recurrences, in a caller's column.

ghost use Rattle.std.specs.Prelude.{◌≡◌, map, MatchResult};
ghost use Rattle.std.specs.Option.{option_map};
ghost use Rattle.date_calls.specs.Calendars.{calendar_of, choice_system};
ghost use Rattle.date_calls.specs.Codes.{overflow_of_code, unit_of_code};
ghost use Rattle.date_calls.specs.Lists.{IsUnlisted};
ghost use Rattle.date_calls.specs.Recurrences.{AreListed, ListsOccurrences, RecursIn, TellsOccurrences, missing_for, occurrence_told, occurrences_told, parts_if, rule_given, rule_parts};

use crate::calendars::{Chosen, choose, run};
use crate::codes::{overflow_of, unit_of};
use crate::days::ValidDay;
use crate::lists::{Listed, WindowList, list_items, tell_list, window_of};
use crate::outcomes::{INVALID_DAY_NUMBER, INVALID_WINDOW, UNKNOWN_OPTION};
use cal_base::Calendar;
use cal_recur::{Missing, Occurrence, Recurrence, Rule, recur};
use cal_types::{DateDurationUnit, Overflow, Window};
use kind_calls::CalendarTask;

/// An occurrence of a recurrence.
#[repr(C)]
#[derive(Clone, Copy, Debug, PartialEq, Eq, Drop)]
pub struct CalendarOccurrence {
    /// The day number (rata die).
    pub day: i64,
    /// How many times the step was added to the start: 0 is the start itself. Of a rule, how many come before it.
    pub index: u32,
}

/// Returns an occurrence in the form that a caller receives.
fn told(item: Occurrence) -> CalendarOccurrence
    ensures { result ≡ occurrence_told item }
{
    CalendarOccurrence {
        day: item.day.to_i64_date(),
        index: item.index,
    }
}

/// Returns how occurrences that lead to no date are handled.
fn missing_for(overflow: Option<Overflow>) -> Missing
    ensures { result ≡ missing_for overflow }
{
    match overflow {
        Some(Overflow::Constrain) => Missing::Constrain,
        _ => Missing::Skip,
    }
}

/// Returns the rule of a unit and a number of it, which isn't 0.
fn rule_if(unit: DateDurationUnit, every: u32, overflow: Option<Overflow>) -> Option<Rule>
    ensures { option_map rule_parts result ≡ parts_if unit every overflow }
{
    Rule::try_new(unit, every, missing_for(overflow))
}

/// Returns the rule for the codes of a unit and of an option.
fn rule_of(unit: u8, every: u32, overflow: u8) -> Option<Rule>
    ensures { option_map rule_parts result ≡ rule_given (unit_of_code unit) every (overflow_of_code overflow) }
{
    let Some(Some(unit)) = unit_of(unit) else {
        return None;
    };
    let Some(overflow) = overflow_of(overflow) else {
        return None;
    };
    rule_if(unit, every, overflow)
}

impl<C: Calendar + Copy> WindowList<CalendarOccurrence> for Recurrence<C> {
    ghost between = { λ a first last.
        occurrences_told (C.system a.calendar) (C.date_of a.calendar a.start) a.rule first last };

    ghost left = { λ a. a.rest };

    fn next_item(&mut self) -> Option<CalendarOccurrence> {
        match self.next() {
            Some(item) => Some(told(item)),
            None => None,
        }
    }

    fn rest(&self) -> Option<Window> {
        Recurrence::rest(self)
    }
}

/// A start, a rule and a window whose occurrences are asked.
#[derive(Clone, Copy)]
struct Repeats {
    start: ValidDay,
    rule: Rule,
    window: Window,
}

/// Writes the first occurrences to a column.
fn list_in<C: Calendar + Copy>(
    asked: &Repeats,
    calendar: C,
    items: &mut [CalendarOccurrence],
) -> Listed
    ensures { AreListed (C.system calendar) asked.now.start.day asked.now.rule asked.now.window.first
        asked.now.window.last items.old items.new result }
{
    let start = calendar.from_rata_die(asked.start.rata_die());
    let mut list = recur(calendar, start, asked.rule, asked.window);
    list_items(&mut list, asked.window, items)
}

/// The column that is filled in.
#[derive(Drop)]
struct Items<'c> {
    items: &'c mut [CalendarOccurrence],
}

impl<'c> CalendarTask<Items<'c>> for Repeats {
    ghost use Rattle.std.specs.Prelude.{⊤};

    type Answer = Listed;

    ghost asks = { λ _ _ _. ⊤ };

    ghost done = { λ t s before column listed. (column.items.ghost_name ≡ before.items.ghost_name)
        × AreListed s t.start.day t.rule t.window.first t.window.last before.items.now column.items.now listed };

    fn run<C: Calendar + Copy>(&self, column: &mut Items<'c>, calendar: C) -> Listed {
        list_in(self, calendar, column.items)
    }
}

/// Writes the first occurrences in the chosen calendar to a column.
fn list_chosen(asked: &Repeats, chosen: &Chosen, items: &mut [CalendarOccurrence]) -> Listed
    ensures { AreListed (choice_system chosen.now) asked.now.start.day asked.now.rule asked.now.window.first
        asked.now.window.last items.old items.new result }
{
    let mut column = Items { items };
    run(asked, &mut column, chosen)
}

/// Lists occurrences, and stores how many were written and where the list goes on.
fn list_told(
    chosen: &Chosen,
    asked: &Repeats,
    items: &mut [CalendarOccurrence],
    written: &mut usize,
    next: &mut i64,
) -> u8
    requires { written.old ≡ 0 }
    ensures { TellsOccurrences (choice_system chosen.now) asked.now.start.day (rule_parts asked.now.rule)
        asked.now.window.first asked.now.window.last result items.old items.new written.new next.new }
{
    let listed = list_chosen(asked, chosen, items);
    tell_list(Ok(listed), written, next)
}

/// Does the same as `list_told`, from the numbers of the days.
fn list_from(
    chosen: &Chosen,
    start: i64,
    rule: Rule,
    first: i64,
    last: i64,
    items: &mut [CalendarOccurrence],
    written: &mut usize,
    next: &mut i64,
) -> u8
    requires { written.old ≡ 0 }
    ensures { RecursIn (choice_system chosen.now) start (rule_parts rule) first last result items.old items.new
        written.new next.old next.new }
{
    let Some(start) = ValidDay::of(start) else {
        return INVALID_DAY_NUMBER;
    };
    let Some(window) = window_of(first, last) else {
        return INVALID_WINDOW;
    };
    let asked = Repeats {
        start,
        rule,
        window,
    };
    list_told(chosen, &asked, items, written, next)
}

/// Does the same as `list_from`, from the codes of the rule.
fn list_by(
    chosen: &Chosen,
    start: i64,
    unit: u8,
    every: u32,
    overflow: u8,
    first: i64,
    last: i64,
    items: &mut [CalendarOccurrence],
    written: &mut usize,
    next: &mut i64,
) -> u8
    requires { written.old ≡ 0 }
    ensures { ListsOccurrences (choice_system chosen.now) start
        (rule_given (unit_of_code unit) every (overflow_of_code overflow)) first last result items.old items.new
        written.new next.old next.new }
{
    let Some(rule) = rule_of(unit, every, overflow) else {
        return UNKNOWN_OPTION;
    };
    list_from(chosen, start, rule, first, last, items, written, next)
}

/// Lists the occurrences from `first` to `last`: the date of a start with 0, 1, 2, .. times `every` years (`unit` 1),
/// months (2), weeks (3) or days (4) added in a calendar. As many of them as `items` has places are written to its
/// start, in order, and their number to `written`. Each counts from the start itself, and none is before it.
///
/// The list goes on from the day `next`: the same call with `next` in place of `first` writes the items that follow,
/// with their indices. If `next` comes after `last`, none do.
///
/// `overflow` says what happens to a step that leads to a month or day that doesn't exist: 0 or 2 skips it, 1 takes the
/// nearest date.
///
/// # Errors
///
/// The code is 0 if occurrences are listed. Otherwise `items` and `next` are unchanged, `written` is 0, and the code is
/// the first of:
///
/// - 1, 2 or 3 for an unknown calendar, an unknown source of years, or an unknown option or unit, also if `every` is 0.
/// - 4 if `start` isn't from -365242499 to 365242134.
/// - 5 if a day of the window isn't from -365242499 to 365242134, or if `last` comes before `first`.
pub fn recurrences(
    calendar: u8,
    years: u8,
    start: i64,
    unit: u8,
    every: u32,
    overflow: u8,
    first: i64,
    last: i64,
    items: &mut [CalendarOccurrence],
    written: &mut usize,
    next: &mut i64,
) -> u8
    ensures { MatchResult (calendar_of calendar years)
        (λ s. ListsOccurrences s start (rule_given (unit_of_code unit) every (overflow_of_code overflow)) first last
        result items.old items.new written.new next.old next.new)
        (λ why. IsUnlisted why result items.old items.new written.new next.old next.new) }
{
    *written = 0;
    match choose(calendar, years) {
        Ok(chosen) => list_by(
            &chosen, start, unit, every, overflow, first, last, items, written, next,
        ),
        Err(code) => code,
    }
}
