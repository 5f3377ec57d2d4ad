//! Laws of two bags of fields, each proved as the contract of a function that does nothing.
ghost use Rattle.cal_types.specs.SpanLaws.{AnswersAreUnique, TwoBagsHaveAnAnswer};

/// Proves that two bags have a result in lawful calendars whose valid dates are within the limits of adding: both
/// dates, the same days in the second calendar and a difference that leads back; or the first invalid field.
pub fn two_bags_have_an_answer()
    ensures { TwoBagsHaveAnAnswer }
{}

/// Proves that two bags have at most one result.
pub fn answers_are_unique()
    ensures { AnswersAreUnique }
{}
