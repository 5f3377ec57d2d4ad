//! The days of a rule's blocks.

ghost use Rattle.std.specs.Prelude.{◌≡◌, ◌<◌, IfSome, MatchOption};
ghost use Rattle.cal_days.specs.Day.{IsValidDay};
ghost use Rattle.cal_rule.specs.declared.frequency.Frequency.TheVariants.{Monthly, Yearly};
ghost use Rattle.cal_rrule.specs.Asking.{IsAsked};
ghost use Rattle.cal_rrule.specs.Blocks.{IsOfBlock, start_of};
ghost use Rattle.cal_rrule.specs.NearDays.{IsNearList};
ghost use Rattle.cal_rrule.specs.Periods.{NoWeeks};
ghost use Rattle.recurrence_sets.specs.Periods.{HaveEnded, Holds};

use crate::asked::Asked;
use crate::daily::daily_block;
use crate::looks::year_of;
use crate::monthly::month_block;
use crate::plain_years::plain_block;
use crate::weekly::weekly_block;
use crate::weeks_block::weeks_block;
use crate::yearly::year_block;
use cal_base::Calendar;
use cal_days::RataDie;
use cal_rule::Frequency;
use recurrence_sets::PeriodDays;

/// Returns the days that are kept of a year if the rule has no BYWEEKNO.
fn named_block<C: Calendar>(
    calendar: &C,
    asked: &Asked,
    block: u32,
    last: RataDie,
) -> Option<PeriodDays>
    requires is_asked { IsAsked (C.system calendar.now).list (start_of asked.now) asked.now }
    requires yearly { asked.now.rule.frequency ≡ Yearly }
    requires weeks { NoWeeks asked.now.rule }
    requires last { IsValidDay last }
    requires nearby { IsNearList (C.system calendar.now).list }
    ensures days { let Has = IsOfBlock (C.system calendar.now).list asked.now.rule (start_of asked.now) in
        MatchOption result (HaveEnded Has block last) (Holds (Has block)) }
    ensures few { IfSome result (λ _. block < 4294967295) }
{
    let year = year_of(calendar, asked.day);
    year_block(calendar, asked, &year, block, last)
}

/// Returns the days that are kept of a year, or of its weeks if BYWEEKNO is there.
fn yearly_block<C: Calendar>(
    calendar: &C,
    asked: &Asked,
    block: u32,
    last: RataDie,
) -> Option<PeriodDays>
    requires is_asked { IsAsked (C.system calendar.now).list (start_of asked.now) asked.now }
    requires yearly { asked.now.rule.frequency ≡ Yearly }
    requires last { IsValidDay last }
    requires nearby { IsNearList (C.system calendar.now).list }
    ensures days { let Has = IsOfBlock (C.system calendar.now).list asked.now.rule (start_of asked.now) in
        MatchOption result (HaveEnded Has block last) (Holds (Has block)) }
    ensures few { IfSome result (λ _. block < 4294967295) }
{
    if !asked.missing.weeks {
        return weeks_block(calendar, asked, block, last);
    }
    match plain_block(calendar, asked, block, last) {
        Some(days) => Some(days),
        None => named_block(calendar, asked, block, last),
    }
}

/// Returns the days that are kept of a month.
fn monthly_block<C: Calendar>(
    calendar: &C,
    asked: &Asked,
    block: u32,
    last: RataDie,
) -> Option<PeriodDays>
    requires is_asked { IsAsked (C.system calendar.now).list (start_of asked.now) asked.now }
    requires monthly { asked.now.rule.frequency ≡ Monthly }
    requires last { IsValidDay last }
    requires nearby { IsNearList (C.system calendar.now).list }
    ensures days { let Has = IsOfBlock (C.system calendar.now).list asked.now.rule (start_of asked.now) in
        MatchOption result (HaveEnded Has block last) (Holds (Has block)) }
    ensures few { IfSome result (λ _. block < 4294967295) }
{
    month_block(calendar, asked, block, last)
}

/// Returns the days that are kept of a block's periods, or `None` if no block from this one on has a valid day up to a
/// last one.
pub(crate) fn block_days<C: Calendar>(
    calendar: &C,
    asked: &Asked,
    block: u32,
    last: RataDie,
) -> Option<PeriodDays>
    requires is_asked { IsAsked (C.system calendar.now).list (start_of asked.now) asked.now }
    requires last { IsValidDay last }
    requires nearby { IsNearList (C.system calendar.now).list }
    ensures days { let Has = IsOfBlock (C.system calendar.now).list asked.now.rule (start_of asked.now) in
        MatchOption result (HaveEnded Has block last) (Holds (Has block)) }
    ensures few { IfSome result (λ _. block < 4294967295) }
{
    match asked.rule.frequency() {
        Frequency::Yearly => yearly_block(calendar, asked, block, last),
        Frequency::Monthly => monthly_block(calendar, asked, block, last),
        Frequency::Weekly => weekly_block(calendar, asked, block, last),
        Frequency::Daily => daily_block(calendar, asked, block, last),
    }
}
