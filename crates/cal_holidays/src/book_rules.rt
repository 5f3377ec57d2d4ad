//! The rules of a book, in calendars over tables.

ghost use Rattle.std.specs.Prelude.{◌≡◌, true};
ghost use Rattle.cal_days.specs.Day.{IsValidDay};
ghost use Rattle.cal_tables.specs.Kinds.{table_contents};
ghost use Rattle.cal_holidays.specs.Merging.{IsFirstDay};
ghost use Rattle.cal_holidays.specs.Books.{entry_said};
ghost use Rattle.cal_holidays.specs.Moving.{IsLeast};
ghost use Rattle.cal_holidays.specs.Naming.{names_by, names_day, names_in};
ghost use Rattle.cal_holidays.specs.Observing.{are_proper_moves, are_proper_years};
ghost use Rattle.cal_holidays.specs.RepeatedDays.{RepeatsOn, repeated_said};
ghost use Rattle.cal_rrule.specs.NearDays.{IsNearList};
ghost use Rattle.cal_holidays.specs.OwnDays.{has_month};
ghost use Rattle.cal_holidays.specs.Rules.{Recurring, Yearly, easter_calendar, is_proper_observed, observed, rule_calendar, rule_said};

use crate::book::Book;
use crate::entry::{Entry, EntryRule};
use crate::first_observed::first_observed;
use crate::first_repeated::first_repeated;
use crate::holiday_rule::HolidayRule;
use crate::moves::Moves;
use crate::observance::Observance;
use crate::recurring_rule::RecurringRule;
use crate::rule_years::RuleYears;
use crate::rules::NumberedRules;
use cal_base::Calendar;
use cal_days::RataDie;
use cal_kinds::AnyCalendarKind;
use cal_tables::Tables;
use kind_calls::{CalendarTask, run_in_kind};

/// The rules of a book, in calendars over tables.
#[derive(Clone, Copy)]
pub struct BookRules<'b, 't> {
    pub(crate) book: &'b Book,
    pub(crate) tables: Tables<'t>,
}

/// The task of finding the first day from `first` to `last` that a rule names.
#[derive(Clone, Copy)]
struct FirstObserved {
    observance: Observance,
    first: RataDie,
    last: RataDie,
}

impl CalendarTask<()> for FirstObserved {
    type Answer = Option<RataDie>;

    ghost asks = { λ t s _. (is_proper_observed (observed t.observance) ≡ true)
        × (has_month s.list (rule_said t.observance.rule) ≡ true) × (IsValidDay t.first) × (IsValidDay t.last) };

    ghost done = { λ t s _ _ day. IsFirstDay (names_in s.list (observed t.observance)) t.first t.last day };

    fn run<C: Calendar + Copy>(&self, _nothing: &mut (), calendar: C) -> Option<RataDie> {
        first_observed(&calendar, self.observance, self.first, self.last)
    }
}

/// Returns the calendar of Easter.
fn easter_calendar(julian: bool) -> AnyCalendarKind
    ensures { result ≡ easter_calendar julian }
{
    if julian {
        AnyCalendarKind::Julian
    } else {
        AnyCalendarKind::Gregorian
    }
}

/// Returns the calendar whose years a rule counts.
fn calendar_of(rule: HolidayRule) -> AnyCalendarKind
    ensures { result ≡ rule_calendar (rule_said rule) }
{
    match rule {
        HolidayRule::Fixed { calendar, .. } => calendar,
        HolidayRule::Easter { julian, .. } => easter_calendar(julian),
        HolidayRule::Nth { calendar, .. } => calendar,
        HolidayRule::Span { calendar, .. } => calendar,
    }
}

/// Returns the first day from `first` to `last` that a rule names.
fn first_named(
    tables: &Tables<'_>,
    observance: Observance,
    first: RataDie,
    last: RataDie,
) -> Option<RataDie>
    requires proper { is_proper_observed (observed observance) ≡ true }
    requires from { IsValidDay first }
    requires to { IsValidDay last }
    ensures { let names = names_by (table_contents tables.now) (Yearly (rule_said observance.rule)) in
        IsFirstDay (names observance.years observance.moves.days) first last result }
{
    let task = FirstObserved {
        observance,
        first,
        last,
    };
    run_in_kind(&task, &mut (), calendar_of(observance.rule), tables)
}

/// The task of finding the first day from `first` to `last` that a recurrence rule names.
#[derive(Drop)]
struct FirstRepeated<'r> {
    repeated: &'r RecurringRule,
    years: RuleYears,
    moves: Moves,
    first: RataDie,
    last: RataDie,
}

impl<'r> CalendarTask<()> for FirstRepeated<'r> {
    type Answer = Option<RataDie>;

    ghost asks = { λ t s _. (IsNearList s.list) × (are_proper_years t.years ≡ true)
        × (are_proper_moves t.moves.days ≡ true) × (IsValidDay t.first) × (IsValidDay t.last) };

    ghost done = { λ t s _ _ day.
        IsLeast (RepeatsOn s.list (repeated_said t.repeated.now) t.years t.moves.days) t.first t.last day };

    fn run<C: Calendar + Copy>(&self, _nothing: &mut (), calendar: C) -> Option<RataDie> {
        first_repeated(
            calendar,
            self.repeated,
            self.years,
            self.moves,
            self.first,
            self.last,
        )
    }
}

/// Returns the first day from `first` to `last` that a recurrence rule names.
fn first_recurring(
    tables: &Tables<'_>,
    repeated: &RecurringRule,
    years: RuleYears,
    moves: Moves,
    first: RataDie,
    last: RataDie,
) -> Option<RataDie>
    requires years { are_proper_years years ≡ true }
    requires moves { are_proper_moves moves.days ≡ true }
    requires from { IsValidDay first }
    requires to { IsValidDay last }
    ensures { let rule = Recurring (repeated_said repeated.now) in
        IsFirstDay (names_by (table_contents tables.now) rule years moves.days) first last result }
{
    let task = FirstRepeated {
        repeated,
        years,
        moves,
        first,
        last,
    };
    run_in_kind(&task, &mut (), repeated.calendar, tables)
}

/// Returns the first day from `first` to `last` that the rule of an entry names.
fn first_of_entry(
    tables: &Tables<'_>,
    entry: &Entry,
    first: RataDie,
    last: RataDie,
) -> Option<RataDie>
    requires from { IsValidDay first }
    requires to { IsValidDay last }
    ensures { IsFirstDay (names_day (table_contents tables.now) (entry_said entry.now).kept) first last result }
{
    let (years, moves) = (entry.years, entry.moves);
    match &entry.rule {
        EntryRule::Yearly(rule) => {
            let observance = Observance {
                rule: *rule,
                years,
                moves,
            };
            first_named(tables, observance, first, last)
        }
        EntryRule::Recurring(repeated) => {
            first_recurring(tables, repeated, years, moves, first, last)
        }
    }
}

impl<'b, 't> NumberedRules for BookRules<'b, 't> {
    ghost use Rattle.std.specs.Prelude.{length};
    ghost use Rattle.cal_holidays.specs.BookNames.{names_in_book};
    ghost use Rattle.cal_holidays.specs.Books.{named_rules};

    ghost names = { λ b. names_in_book (table_contents b.tables) (named_rules b.book.now) };

    ghost count_of = { λ b. length (named_rules b.book.now) };

    fn count(&self) -> usize {
        self.book.len()
    }

    fn first_day(&self, rule: usize, first: RataDie, last: RataDie) -> Option<RataDie> {
        first_of_entry(&self.tables, self.book.entry(rule), first, last)
    }
}
