//! Reads rules from texts.

ghost use Rattle.std.specs.Prelude.{◌≡◌, IfErr, IfOk, Some, option_map};
ghost use Rattle.std.specs.Option.{is_some};
ghost use Rattle.cal_rule.specs.RuleText.{IsRuleText, IsWhole, SaysRule, end_fault, error_if, fault_beside, frequency_fault, has_long_item, has_ordinals, is_daily, is_weekly, is_yearly, names_days, ordinal_fault, position_fault, rule_fault, said_with};
ghost use Rattle.cal_rule.specs.declared.rule_part.RulePart.TheVariants.{Freq};
ghost use Rattle.cal_rule.specs.TextTable.{text_of};
ghost use Rattle.cal_rule.specs.Words.{frequency_read};

use crate::frequency::Frequency;
use crate::pieces::cut;
use crate::rule::RecurrenceRule;
use crate::rule_error::RuleError;
use crate::rule_part::RulePart;
use crate::said_values::{
    count_in, frequency_in, interval_in, month_days_in, months_in, skip_in, until_in, weekday_in,
    weekdays_in, weeks_in, year_days_in,
};
use crate::skip::Skip;
use crate::text_table::RuleTexts;
use cal_kinds::AnyCalendarKind;
use cal_types::Weekday;

/// Returns an error if a test says so.
fn error_if(is_fault: bool, error: RuleError) -> Option<RuleError>
    ensures { result ≡ error_if is_fault error }
{
    if is_fault { Some(error) } else { None }
}

/// Returns whether a frequency is yearly.
const fn is_yearly(frequency: Frequency) -> bool
    ensures { result ≡ is_yearly frequency }
{
    matches!(frequency, Frequency::Yearly)
}

/// Returns whether a frequency is weekly.
const fn is_weekly(frequency: Frequency) -> bool
    ensures { result ≡ is_weekly frequency }
{
    matches!(frequency, Frequency::Weekly)
}

/// Returns whether a frequency is daily.
const fn is_daily(frequency: Frequency) -> bool
    ensures { result ≡ is_daily frequency }
{
    matches!(frequency, Frequency::Daily)
}

/// Returns whether an item of a list has more than two bytes.
fn has_long_item(text: &[u8]) -> bool
    ensures { result ≡ has_long_item text.now }
{
    let mut rest = Some(text);
    'items: while let Some(left) = rest {
        let (item, others) = cut(left, b',');
        if item.len() > 2 {
            return true;
        }
        rest = others;
    }
    false
}

/// Returns whether a list of weekdays has an ordinal.
fn has_ordinals(text: Option<&[u8]>) -> bool
    ensures { result ≡ has_ordinals (option_map (λ text. text.now) text.entry) }
{
    match text {
        None => false,
        Some(text) => has_long_item(text),
    }
}

impl<'t> RuleTexts<'t> {
    /// Returns whether a part is there.
    fn has(&self, part: RulePart) -> bool
        ensures { result ≡ is_some (text_of self.now part) }
    {
        self.text(part).is_some()
    }

    /// Returns an error if the rule has two ends.
    fn end_fault(&self) -> Option<RuleError>
        ensures { result ≡ end_fault (text_of self.now) }
    {
        error_if(
            self.has(RulePart::Count) && self.has(RulePart::Until),
            RuleError::CountWithUntil,
        )
    }

    /// Returns an error for the first part that may not stand beside a frequency.
    fn frequency_fault(&self, frequency: Frequency) -> Option<RuleError>
        ensures { result ≡ frequency_fault frequency (text_of self.now) }
    {
        let weeks = error_if(
            self.has(RulePart::ByWeekNo) && !is_yearly(frequency),
            RuleError::PartNotAllowed(RulePart::ByWeekNo),
        );
        let year_days = error_if(
            self.has(RulePart::ByYearDay) && !is_yearly(frequency),
            RuleError::PartNotAllowed(RulePart::ByYearDay),
        );
        let month_days = error_if(
            self.has(RulePart::ByMonthDay) && is_weekly(frequency),
            RuleError::PartNotAllowed(RulePart::ByMonthDay),
        );
        weeks.or(year_days.or(month_days))
    }

    /// Returns an error if weekdays have ordinals that the rule may not have.
    fn ordinal_fault(&self, frequency: Frequency) -> Option<RuleError>
        ensures { result ≡ ordinal_fault frequency (text_of self.now) }
    {
        error_if(
            has_ordinals(self.text(RulePart::ByDay))
                && (is_daily(frequency) || is_weekly(frequency) || self.has(RulePart::ByWeekNo)),
            RuleError::OrdinalNotAllowed,
        )
    }

    /// Returns whether a part but BYSETPOS names days.
    fn names_days(&self) -> bool
        ensures { result ≡ names_days (text_of self.now) }
    {
        self.has(RulePart::ByMonth)
            || self.has(RulePart::ByWeekNo)
            || self.has(RulePart::ByYearDay)
            || self.has(RulePart::ByMonthDay)
            || self.has(RulePart::ByDay)
    }

    /// Returns an error if BYSETPOS is alone.
    fn position_fault(&self) -> Option<RuleError>
        ensures { result ≡ position_fault (text_of self.now) }
    {
        error_if(
            self.has(RulePart::BySetPos) && !self.names_days(),
            RuleError::SetPosAlone,
        )
    }

    /// Returns the first error of the whole rule, if its frequency is this one.
    fn fault_beside(&self, frequency: Frequency) -> Option<RuleError>
        ensures { result ≡ fault_beside frequency (text_of self.now) }
    {
        let ordinal = self.ordinal_fault(frequency);
        let behind = self
            .frequency_fault(frequency)
            .or(ordinal.or(self.position_fault()));
        self.end_fault().or(behind)
    }

    /// Returns the rule that the values say, if its frequency is this one.
    fn rule(&self, kind: AnyCalendarKind, frequency: Frequency) -> RecurrenceRule
        requires { said_with frequency_read (text_of self.now Freq) ≡ Some frequency }
        ensures { SaysRule kind (text_of self.now) result }
    {
        RecurrenceRule {
            frequency,
            interval: interval_in(self.text(RulePart::Interval)),
            count: count_in(self.text(RulePart::Count)),
            until: until_in(self.text(RulePart::Until)),
            months: months_in(self.text(RulePart::ByMonth), kind),
            month_days: month_days_in(self.text(RulePart::ByMonthDay), kind),
            year_days: year_days_in(self.text(RulePart::ByYearDay), kind),
            weeks: weeks_in(self.text(RulePart::ByWeekNo), kind),
            weekdays: weekdays_in(self.text(RulePart::ByDay), kind),
            positions: year_days_in(self.text(RulePart::BySetPos), kind),
            week_start: weekday_in(self.text(RulePart::Wkst)).unwrap_or(Weekday::Monday),
            skip: skip_in(self.text(RulePart::Skip)).unwrap_or(Skip::Omit),
        }
    }

    /// Returns the rule that the values say, or the first error of the whole rule.
    fn whole(&self, kind: AnyCalendarKind) -> Result<RecurrenceRule, RuleError>
        ensures { IsWhole kind (text_of self.now) result }
    {
        let Some(frequency) = frequency_in(self.text(RulePart::Freq)) else {
            return Err(RuleError::MissingPart(RulePart::Freq));
        };
        match self.fault_beside(frequency) {
            Some(error) => Err(error),
            None => Ok(self.rule(kind, frequency)),
        }
    }
}

impl RecurrenceRule {
    /// Reads a rule for a kind of calendar (RFC 5545, 3.3.10; RFC 7529, 4): parts `NAME=VALUE` that semicolons join, in
    /// any order. Lists are values that commas join. ASCII letters of either case are the same.
    ///
    /// Numbers are in the range of the calendar, whatever its tables are: `BYMONTHDAY=31` is out of range in the Hebrew
    /// calendar. RSCALE has to be missing or name the calendar, by CLDR's name or the program's.
    ///
    /// # Errors
    ///
    /// The first invalid part decides:
    ///
    /// - [`RuleError::BadPart`] if it has no `=`.
    /// - [`RuleError::UnknownPart`] if neither RFC has its name.
    /// - [`RuleError::RepeatedPart`] if its name came before.
    /// - [`RuleError::TimeNotSupported`] if it is about times of day.
    /// - [`RuleError::BadValue`] if its value isn't of its form.
    /// - [`RuleError::ValueOutOfRange`] if its value is of the form, but out of range.
    /// - [`RuleError::UnknownCalendar`] if it is an RSCALE that names no calendar.
    /// - [`RuleError::MismatchedCalendar`] if it is an RSCALE that names another calendar.
    ///
    /// If all parts are valid:
    ///
    /// - [`RuleError::MissingPart`] if FREQ is missing.
    /// - [`RuleError::CountWithUntil`] if COUNT and UNTIL occur together.
    /// - [`RuleError::PartNotAllowed`] for BYWEEKNO or BYYEARDAY if FREQ isn't YEARLY, and for BYMONTHDAY if it is
    ///   WEEKLY.
    /// - [`RuleError::OrdinalNotAllowed`] if a weekday of BYDAY has an ordinal, and FREQ is WEEKLY or DAILY or BYWEEKNO
    ///   occurs.
    /// - [`RuleError::SetPosAlone`] if BYSETPOS occurs without BYMONTH, BYWEEKNO, BYYEARDAY, BYMONTHDAY and BYDAY.
    ///
    /// # Examples
    ///
    /// ```
    /// let rule = RecurrenceRule::try_from_utf8(b"FREQ=MONTHLY;BYDAY=-1FR", AnyCalendarKind::Iso)?;
    /// assert!(rt; rule.frequency() == Frequency::Monthly);
    /// ```
    pub fn try_from_utf8(bytes: &[u8], kind: AnyCalendarKind) -> Result<RecurrenceRule, RuleError>
        ensures read { IfOk result (λ rule. IsRuleText kind bytes.now rule) }
        ensures refused { IfErr result (λ error. rule_fault kind bytes.now ≡ Some error) }
    {
        match RuleTexts::read(kind, bytes) {
            Ok(texts) => texts.whole(kind),
            Err(error) => Err(error),
        }
    }

    /// Reads a rule for a kind of calendar, as [`RecurrenceRule::try_from_utf8`].
    ///
    /// # Errors
    ///
    /// - Those of [`RecurrenceRule::try_from_utf8`].
    ///
    /// # Examples
    ///
    /// ```
    /// let rule = RecurrenceRule::try_from_str("FREQ=DAILY;COUNT=3", AnyCalendarKind::Iso)?;
    /// assert!(rt; rule.count() == Some(3));
    /// ```
    pub fn try_from_str(text: &str, kind: AnyCalendarKind) -> Result<RecurrenceRule, RuleError>
        ensures read { IfOk result (λ rule. IsRuleText kind text.now rule) }
        ensures refused { IfErr result (λ error. rule_fault kind text.now ≡ Some error) }
    {
        RecurrenceRule::try_from_utf8(text.as_bytes(), kind)
    }
}
