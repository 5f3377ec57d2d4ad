//! Rules with the years in which they are kept.

use crate::holiday_rule::HolidayRule;
use crate::moves::Moves;
use crate::rule_years::RuleYears;

/// A rule, the years in which it is kept, and the moves of its days.
#[derive(Clone, Copy)]
pub(crate) struct Observance {
    pub(crate) rule: HolidayRule,
    pub(crate) years: RuleYears,
    pub(crate) moves: Moves,
}
