//! The fields of a record, and the rule that they describe.

ghost use Rattle.std.specs.Prelude.{◌≡◌, option_map, [], get_or, true, IfOk};
ghost use Rattle.std.specs.Result.{result_map_both};
ghost use Rattle.cal_holidays.specs.Observing.{are_proper_years};
ghost use Rattle.cal_holidays.specs.EntryRules.{IsSpelled, kept_said, recurring_said, rule_of_reading, yearly_said};
ghost use Rattle.cal_rule.specs.RuleText.{IsRuleText};
ghost use Rattle.cal_holidays.specs.Records.{kept_read, rule_read, ten_fields, years_read};
ghost use Rattle.cal_holidays.specs.Rules.{is_proper, is_proper_kept, is_proper_rule, rule_said};
ghost use Rattle.cal_holidays.specs.declared.record_words.RuleKind.TheVariants as way;
ghost use Rattle.csv.specs.Records.{fields_of};

use crate::holiday_rule::HolidayRule;
use crate::reading::{ReadRecurrence, ReadRule, Reading};
use crate::record_moves::moves;
use crate::record_starts::{recurrence, start};
use crate::record_words::{
    RuleKind, day, is_julian, leaping, month_of, nth, offset, week, weekday,
};
use crate::record_years::{every, year};
use crate::rule_years::RuleYears;
use cal_kinds::AnyCalendarKind;
use csv::ByteRecord;

/// The fields of a record. Fields that it leaves out are empty.
#[derive(Clone, Copy)]
pub(crate) struct Fields<'r> {
    pub kind: &'r [u8],
    pub name: &'r [u8],
    pub calendar: &'r [u8],
    pub month: &'r [u8],
    pub value: &'r [u8],
    pub last: &'r [u8],
    pub since: &'r [u8],
    pub until: &'r [u8],
    pub every: &'r [u8],
    pub moved: &'r [u8],
}

/// Returns the field at a place, counted from 0, or an empty text if the record has fewer fields.
fn field(row: &ByteRecord, place: usize) -> &[u8]
    ensures { result.now ≡ get_or (fields_of row.now) place [] }
{
    row.get(place).unwrap_or(b"")
}

impl<'r> Fields<'r> {
    ghost use Rattle.cal_holidays.specs.Fields.{fields_said};

    /// Returns the fields of a record if there are six to ten.
    pub(crate) fn of(row: &'r ByteRecord) -> Option<Fields<'r>>
        ensures { option_map fields_said result ≡ ten_fields (fields_of row.now) }
    {
        if row.len() < 6 || row.len() > 10 {
            return None;
        }
        Some(Fields {
            kind: field(row, 0),
            name: field(row, 1),
            calendar: field(row, 2),
            month: field(row, 3),
            value: field(row, 4),
            last: field(row, 5),
            since: field(row, 6),
            until: field(row, 7),
            every: field(row, 8),
            moved: field(row, 9),
        })
    }

    /// Reads the rule of a kind, the years in which it is kept, and the moves of its days. The error is the number of
    /// the first invalid field after the name.
    pub(crate) fn reading(&self, kind: RuleKind) -> Result<Reading, u8>
        ensures value { result_map_both (kept_said self.now.value.now) (λ number. number) result
            ≡ kept_read kind (fields_said self.now) }
        ensures proper { IfOk result (λ r. is_proper_kept (kept_said self.now.value.now r) ≡ true) }
        ensures spelled { IfOk result (λ r. IsSpelled self.now.value.now r.rule) }
    {
        let rule = self.rule(kind)?;
        let years = self.years()?;
        let moves = moves(self.moved).ok_or(10)?;
        Ok(Reading { rule, years, moves })
    }

    /// Reads the rule of a kind. The error is the number of the first invalid one of the fields 3 to 6.
    fn rule(&self, kind: RuleKind) -> Result<ReadRule, u8>
        ensures value { result_map_both (rule_of_reading self.now.value.now) (λ number. number) result
            ≡ rule_read kind (fields_said self.now) }
        ensures proper { IfOk result (λ rule. is_proper_rule (rule_of_reading self.now.value.now rule) ≡ true) }
        ensures spelled { IfOk result (λ rule. IsSpelled self.now.value.now rule) }
    {
        match kind {
            RuleKind::Fixed => Ok(ReadRule::Yearly(self.fixed()?)),
            RuleKind::Easter => Ok(ReadRule::Yearly(self.easter()?)),
            RuleKind::Nth => Ok(ReadRule::Yearly(self.nth()?)),
            RuleKind::Span => Ok(ReadRule::Yearly(self.span()?)),
            RuleKind::Recurring => Ok(ReadRule::Recurring(self.recurring()?)),
        }
    }

    fn fixed(&self) -> Result<HolidayRule, u8>
        ensures value { result_map_both yearly_said (λ number. number) result
            ≡ rule_read way.Fixed (fields_said self.now) }
        ensures proper { IfOk result (λ rule. is_proper (rule_said rule) ≡ true) }
    {
        let calendar = AnyCalendarKind::from_program_name(self.calendar).ok_or(3)?;
        let month = month_of(calendar, self.month).ok_or(4)?;
        let day = day(self.value).ok_or(5)?;
        let leaping = leaping(self.last).ok_or(6)?;
        Ok(HolidayRule::Fixed {
            calendar,
            month,
            day,
            leaping,
        })
    }

    fn easter(&self) -> Result<HolidayRule, u8>
        ensures value { result_map_both yearly_said (λ number. number) result
            ≡ rule_read way.Easter (fields_said self.now) }
        ensures proper { IfOk result (λ rule. is_proper (rule_said rule) ≡ true) }
    {
        let julian = is_julian(self.calendar).ok_or(3)?;
        if !self.month.is_empty() {
            return Err(4);
        }
        let offset = offset(self.value).ok_or(5)?;
        if !self.last.is_empty() {
            return Err(6);
        }
        Ok(HolidayRule::Easter { julian, offset })
    }

    fn nth(&self) -> Result<HolidayRule, u8>
        ensures value { result_map_both yearly_said (λ number. number) result
            ≡ rule_read way.Nth (fields_said self.now) }
        ensures proper { IfOk result (λ rule. is_proper (rule_said rule) ≡ true) }
    {
        let calendar = AnyCalendarKind::from_program_name(self.calendar).ok_or(3)?;
        let month = month_of(calendar, self.month).ok_or(4)?;
        let nth = nth(self.value).ok_or(5)?;
        let weekday = weekday(self.last).ok_or(6)?;
        Ok(HolidayRule::Nth {
            calendar,
            month,
            nth,
            weekday,
        })
    }

    fn span(&self) -> Result<HolidayRule, u8>
        ensures value { result_map_both yearly_said (λ number. number) result
            ≡ rule_read way.Span (fields_said self.now) }
        ensures proper { IfOk result (λ rule. is_proper (rule_said rule) ≡ true) }
    {
        let calendar = AnyCalendarKind::from_program_name(self.calendar).ok_or(3)?;
        let month = month_of(calendar, self.month).ok_or(4)?;
        let day = day(self.value).ok_or(5)?;
        let (week, weekday) = week(self.last).ok_or(6)?;
        Ok(HolidayRule::Span {
            calendar,
            month,
            day,
            week,
            weekday,
        })
    }

    fn recurring(&self) -> Result<ReadRecurrence, u8>
        ensures value { result_map_both (recurring_said self.now.value.now) (λ number. number) result
            ≡ rule_read way.Recurring (fields_said self.now) }
        ensures spelled { IfOk result (λ r. IsRuleText r.calendar self.now.value.now r.rule) }
    {
        let calendar = AnyCalendarKind::from_program_name(self.calendar).ok_or(3)?;
        if !self.month.is_empty() {
            return Err(4);
        }
        let rule = recurrence(calendar, self.value).ok_or(5)?;
        let start = start(self.last).ok_or(6)?;
        Ok(ReadRecurrence {
            calendar,
            rule,
            start,
        })
    }

    /// Reads the years in which the rule is kept. The error is the number of the first invalid one of fields 7 to 9.
    fn years(&self) -> Result<RuleYears, u8>
        ensures value { result_map_both (λ years. years) (λ number. number) result ≡ years_read (fields_said self.now) }
        ensures proper { IfOk result (λ years. are_proper_years years ≡ true) }
    {
        let since = year(self.since).ok_or(7)?;
        let until = year(self.until).ok_or(8)?;
        let every = every(since, self.every).ok_or(9)?;
        Ok(RuleYears {
            since,
            until,
            every,
        })
    }
}
