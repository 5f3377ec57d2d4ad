//! Calendars whose days recurrence rules can be counted in.

ghost use Rattle.cal_rrule.specs.NearDays.{IsNearList};

use cal_any::AnyCalendar;
use cal_base::{Calendar, Iso};
use cal_coptic::{Coptic, Ethiopian};
use cal_east_asian::EastAsianTraditional;
use cal_gregory::{Buddhist, Gregorian, Japanese, Roc};
use cal_hebrew::Hebrew;
use cal_hijri::Hijri;
use cal_julian::{Indian, Julian, Persian};

/// A calendar in which recurrence rules are counted: every calendar here is one.
///
/// It has no method of its own. It promises that fields can name the years of days near the valid ones, that months
/// have numbers up to 13, and that valid dates lie at most 27040000 months apart.
pub trait RuleCalendar: Calendar {
    /// What recurrence rules ask of the calendar's list of years.
    ghost near: { (s : Self) → IsNearList (Self.system s).list };
}

impl RuleCalendar for Iso {
    ghost use Rattle.near_years.proofs.NearLists.{gregorian_near};

    ghost near = { λ _. gregorian_near };
}

impl RuleCalendar for Gregorian {
    ghost use Rattle.near_years.proofs.NearLists.{gregorian_near};

    ghost near = { λ _. gregorian_near };
}

impl RuleCalendar for Japanese {
    ghost use Rattle.near_years.proofs.NearLists.{gregorian_near};

    ghost near = { λ _. gregorian_near };
}

impl RuleCalendar for Buddhist {
    ghost use Rattle.near_years.proofs.NearLists.{buddhist_near};

    ghost near = { λ _. buddhist_near };
}

impl RuleCalendar for Roc {
    ghost use Rattle.near_years.proofs.NearLists.{roc_near};

    ghost near = { λ _. roc_near };
}

impl RuleCalendar for Julian {
    ghost use Rattle.near_years.proofs.NearLists.{julian_near};

    ghost near = { λ _. julian_near };
}

impl RuleCalendar for Coptic {
    ghost use Rattle.near_years.proofs.NearLists.{coptic_near};

    ghost near = { λ _. coptic_near };
}

impl RuleCalendar for Ethiopian {
    ghost use Rattle.near_years.proofs.NearLists.{ethiopian_near};

    ghost near = { λ s. ethiopian_near s.era_style };
}

impl RuleCalendar for Indian {
    ghost use Rattle.near_years.proofs.NearLists.{indian_near};

    ghost near = { λ _. indian_near };
}

impl<'t> RuleCalendar for Persian<'t> {
    ghost use Rattle.near_years.proofs.NearLists.{persian_near};

    ghost near = { λ s. persian_near s.corrections.years.now s.corrections.known };
}

impl RuleCalendar for Hebrew {
    ghost use Rattle.near_years.proofs.NearLists.{hebrew_near};

    ghost near = { λ _. hebrew_near };
}

impl<R: cal_hijri::Rules> RuleCalendar for Hijri<R> {
    ghost use Rattle.near_years.proofs.NearLists.{hijri_near};

    ghost near = { λ s. hijri_near (R.year_of s.0) (R.numbered s.0) (R.joins s.0) };
}

impl<R: cal_east_asian::Rules> RuleCalendar for EastAsianTraditional<R> {
    ghost use Rattle.near_years.proofs.NearLists.{east_asian_near};

    ghost near = { λ s. east_asian_near (R.year_of s.0) (R.lawful s.0) };
}

impl<'t> RuleCalendar for AnyCalendar<'t> {
    ghost use Rattle.icu_calendar.specs.laws.AnyNear.{any_near};

    ghost near = { any_near };
}
