//! The first occurrence in a window.

ghost use Rattle.std.specs.Prelude.{◌≡◌, ◌*◌, ◌≤◌, ℕ, IsTrue, IfSome, MatchOption, Some, None, cond};
ghost use Rattle.cal_recur.specs.Occurrence.{occurrence};
ghost use Rattle.cal_recur.specs.Rule.{overflow_of};
ghost use Rattle.cal_recur.specs.FirstIndex.{AreBefore, constrained};
ghost use Rattle.cal_recur.specs.Listing.{IsFirstListed, listed};

use crate::occurrences::occurrence;
use crate::recurrence::Occurrence;
use crate::rule::Rule;
use cal_base::Calendar;
use cal_days::RataDie;
use cal_types::{Overflow, Window};

/// Returns the first occurrence in a window whose index is at least `from`. The search ends at the first occurrence
/// under [`Overflow::Constrain`] that is past the window or out of range, even if the rule skips all occurrences
/// before it.
pub(crate) fn first_within<C: Calendar>(
    calendar: &C,
    start: &C::DateInner,
    rule: Rule,
    from: u32,
    window: &Window,
) -> Option<Occurrence>
    requires belongs { IsTrue (C.belongs calendar.now start.now) }
    requires before { AreBefore (C.system calendar.now) (C.date_of calendar.now start.now) rule window.now.first from }
    ensures first { let s = C.system calendar.now in let t = C.date_of calendar.now start.now in
        MatchOption result ((k : ℕ) → listed s t rule window.now.first window.now.last k ≡ None)
        (IsFirstListed s t rule window.now.first window.now.last) }
    ensures few { IfSome result (λ x. x.index ≤ 838240000) }
{
    let (first, last) = window.ends();
    let mut index = from;
    'indices: loop {
        let (day, is_kept) = constrained_at(calendar, start, rule, index)?;
        if day > last {
            return None;
        }
        if is_kept && day >= first {
            return Some(Occurrence { index, day });
        }
        index += 1;
    }
}

/// Returns the day of an occurrence under [`Overflow::Constrain`], and whether the rule keeps it.
fn constrained_at<C: Calendar>(
    calendar: &C,
    start: &C::DateInner,
    rule: Rule,
    index: u32,
) -> Option<(RataDie, bool)>
    requires { IsTrue (C.belongs calendar.now start.now) }
    ensures day { let s = C.system calendar.now in let t = C.date_of calendar.now start.now in
        MatchOption result (constrained s t rule index ≡ None) (λ r. constrained s t rule index ≡ Some r.0) }
    ensures kept { let s = C.system calendar.now in let t = C.date_of calendar.now start.now in
        IfSome result (λ r. occurrence s.list s.year_shift t rule.unit (overflow_of rule.missing)
        (index * rule.every) ≡ cond r.1 (Some r.0) None) }
    ensures few { IfSome result (λ _. index ≤ 838240000) }
{
    if let Some(day) = occurrence(calendar, start, rule, rule.overflow(), index) {
        return Some((day, true));
    }
    let day = occurrence(calendar, start, rule, Overflow::Constrain, index)?;
    Some((day, false))
}
