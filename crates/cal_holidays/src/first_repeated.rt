//! The first day of a window that a recurrence rule names.

ghost use Rattle.std.specs.Prelude.{◌≡◌, ◌<◌, IfSome, pos, true};
ghost use Rattle.cal_days.specs.Day.{IsBetween, IsValidDay};
ghost use Rattle.cal_rrule.specs.NearDays.{IsNearList};
ghost use Rattle.recurrence_sets.specs.Listing.{GoesOn, days_left};
ghost use Rattle.recurrence_sets.specs.Occurrences.{IsOfSome};
ghost use Rattle.cal_holidays.specs.FirstRepeated.{IsAround, MovesFrom, OccursOn};
ghost use Rattle.cal_holidays.specs.Moving.{IsLeast};
ghost use Rattle.cal_holidays.specs.Observing.{are_proper_moves, are_proper_years};
ghost use Rattle.cal_holidays.specs.RepeatedDays.{RepeatsOn, repeated_said};

use crate::first_observed::{earlier_day, is_settled};
use crate::moves::Moves;
use crate::own_days::year_on;
use crate::recurring_rule::RecurringRule;
use crate::rule_years::RuleYears;
use crate::valid_days::{first_valid, last_valid};
use cal_base::Calendar;
use cal_days::RataDie;
use cal_rrule::{Listing, Occurrence, occurrence_days};
use cal_types::Window;
use recurrence_sets::Periods;

/// Returns the valid days from so many days before a day to so many behind another, if there are any.
fn days_around(first: RataDie, last: RataDie, reach: i64) -> Option<Window>
    requires from { IsValidDay first }
    requires to { IsValidDay last }
    requires reach { IsBetween (pos 0) (pos 6) reach }
    ensures { IsAround first last reach result }
{
    let from = first_valid(first.to_i64_date() - reach);
    let to = last_valid(last.to_i64_date() + reach);
    Window::try_new(from, to)
}

/// Returns the next occurrence of a list.
fn next_of<S: Periods>(items: &mut Listing<S>) -> Option<Occurrence>
    ensures gives { GoesOn (IsOfSome (S.has items.old.periods)) items.old.bounds items.old.rest result items.new.rest
        × (items.new.periods ≡ items.old.periods) × (items.new.bounds ≡ items.old.bounds) }
    ensures fewer { IfSome result (λ _. days_left items.new.rest < days_left items.old.rest) }
{
    items.next()
}

/// Returns the day to which a day moves, if a rule is kept in the day's year, and if it is from `first` to `last`.
fn moved_if_kept<C: Calendar>(
    calendar: &C,
    own: RataDie,
    years: RuleYears,
    moves: Moves,
    first: RataDie,
    last: RataDie,
) -> Option<RataDie>
    requires own { IsValidDay own }
    requires years { are_proper_years years ≡ true }
    requires moves { are_proper_moves moves.days ≡ true }
    ensures { IsLeast (MovesFrom (C.system calendar.now).list (λ n. n ≡ own) years moves.days) first last result }
{
    if years.keeps(year_on(calendar, own)) {
        moves.moved_between(&Some(own), first, last)
    } else {
        None
    }
}

/// Returns the first day from `first` to `last` to which an occurrence moves that a list has left.
fn first_of<C: Calendar, S: Periods>(
    calendar: &C,
    items: &mut Listing<S>,
    years: RuleYears,
    moves: Moves,
    first: RataDie,
    last: RataDie,
) -> Option<RataDie>
    requires years { are_proper_years years ≡ true }
    requires moves { are_proper_moves moves.days ≡ true }
    requires from { IsValidDay first }
    requires to { IsValidDay last }
    ensures { let Own = OccursOn (IsOfSome (S.has items.old.periods)) items.old.bounds items.old.rest in
        IsLeast (MovesFrom (C.system calendar.now).list Own years moves.days) first last result }
{
    let reach = moves.reach();
    let mut best = None;
    'items: while let Some(item) = next_of(items) {
        let moved = moved_if_kept(calendar, item.day, years, moves, first, last);
        best = earlier_day(best, moved);
        if is_settled(&best, &Some(item.day), reach) {
            return best;
        }
    }
    best
}

/// Returns the first day from `first` to `last` to which an occurrence of a recurrence rule moves.
///
/// The rule's periods are passed one after another, from its start on and up to the day that is found, or if days move,
/// up to the first occurrence that comes six days later or more.
pub(crate) fn first_repeated<C: Calendar + Copy>(
    calendar: C,
    repeated: &RecurringRule,
    years: RuleYears,
    moves: Moves,
    first: RataDie,
    last: RataDie,
) -> Option<RataDie>
    requires near { IsNearList (C.system calendar).list }
    requires years { are_proper_years years ≡ true }
    requires moves { are_proper_moves moves.days ≡ true }
    requires from { IsValidDay first }
    requires to { IsValidDay last }
    ensures { IsLeast (RepeatsOn (C.system calendar).list (repeated_said repeated.now) years moves.days) first last
        result }
{
    let window = days_around(first, last, moves.reach())?;
    let start = calendar.from_rata_die(repeated.start);
    let mut items = occurrence_days(calendar, &start, repeated.rule, window);
    first_of(&calendar, &mut items, years, moves, first, last)
}
