//! The list of `rrule`.
ghost use Rattle.std.specs.Prelude.{◌≡◌, IfOk, IfErr, IsTrue, Ok, Err};
ghost use Rattle.cal_days.specs.Day.{IsValidDay, is_valid_day};
ghost use Rattle.cal_rrule.specs.NearDays.{IsNearList};
ghost use Rattle.cal_tables.specs.Kinds.{kind_system, table_contents};
ghost use Rattle.cal_types.specs.Bag.{bag_of};
ghost use Rattle.command_line.specs.RruleAsked.{OnDay, OfFields};
ghost use Rattle.command_line.specs.RruleSaid.{rrule_said, start_said};
ghost use Rattle.calspan_run.specs.RuleLists.{EndsFrom, EndsRule, rule_line, rule_start};

use crate::day_lines::{DayForm, push_day_line, refuse_list, window_of};
use crate::kinds::write_in_kind;
use crate::lists::{CalendarListing, TableList};
use crate::rrule::errors::push_rule_error;
use crate::writer::{ItemLines, write_lines};
use byte_io::{Failed, Sink};
use cal_base::Calendar;
use cal_days::RataDie;
use cal_days::ranges::{FIRST_VALID_DAY, LAST_VALID_DAY};
use cal_rrule::{Occurrence, rule_occurrences};
use cal_rule::RecurrenceRule;
use cal_tables::Tables;
use cal_types::{DateFields, DateFromFieldsError, DateFromFieldsOptions, Window};
use command_line::{RruleStart, RruleWords};
use reply_texts::{Pending, push_cause, push_number};

/// Writes each occurrence as a line.
#[derive(Clone, Copy)]
struct RuleLines<'t, C> {
    form: DayForm<'t, C>,
}

impl<'t, C: Calendar> ItemLines for RuleLines<'t, C> {
    type Item = Occurrence;

    ghost is_shown = { λ s x. IsValidDay x.day };

    ghost line_of = { λ s x. rule_line (C.system s.form.calendar)
        (kind_system (table_contents s.form.tables) s.form.shown) x };

    fn push_line(&self, text: &mut Pending, item: Occurrence) {
        push_number(text, u64::from(item.index));
        text.push(b' ');
        push_day_line(text, &self.form, item.day);
    }
}

/// Returns whether a day is valid.
fn is_valid(day: i32) -> bool
    ensures { result ≡ is_valid_day day }
{
    let day = i64::from(day);
    FIRST_VALID_DAY <= day && day <= LAST_VALID_DAY
}

/// Returns the date of a day number.
///
/// # Errors
///
/// - [`DateFromFieldsError::Overflow`] if the day isn't valid.
fn date_of_day<C: Calendar>(calendar: &C, day: i32) -> Result<C::DateInner, DateFromFieldsError>
    ensures belongs { IfOk result (λ d. IsTrue (C.belongs calendar.now d)) }
    ensures date { IfOk result (λ d. rule_start (C.system calendar.now) (OnDay day)
        ≡ Ok (C.date_of calendar.now d)) }
    ensures fault { IfErr result (λ e. rule_start (C.system calendar.now) (OnDay day) ≡ Err e) }
{
    if !is_valid(day) {
        return Err(DateFromFieldsError::Overflow);
    }
    Ok(calendar.from_rata_die(RataDie::new(i64::from(day))))
}

/// Returns the date of fields.
///
/// # Errors
///
/// - The first invalid field.
fn date_of_fields<C: Calendar>(
    calendar: &C,
    fields: DateFields<'_>,
) -> Result<C::DateInner, DateFromFieldsError>
    ensures belongs { IfOk result (λ d. IsTrue (C.belongs calendar.now d)) }
    ensures date { IfOk result (λ d. rule_start (C.system calendar.now) (OfFields (bag_of fields.entry))
        ≡ Ok (C.date_of calendar.now d)) }
    ensures fault { IfErr result (λ e. rule_start (C.system calendar.now) (OfFields (bag_of fields.entry)) ≡ Err e) }
{
    let options = DateFromFieldsOptions {
        overflow: None,
        missing_fields_strategy: None,
    };
    calendar.from_fields(fields, options)
}

/// Returns the date of a start.
///
/// # Errors
///
/// - [`DateFromFieldsError::Overflow`] if the day isn't valid.
/// - Otherwise the first invalid field.
fn date_of_start<C: Calendar>(
    calendar: &C,
    start: RruleStart<'_>,
) -> Result<C::DateInner, DateFromFieldsError>
    ensures belongs { IfOk result (λ d. IsTrue (C.belongs calendar.now d)) }
    ensures date { IfOk result (λ d. rule_start (C.system calendar.now) (start_said start.entry)
        ≡ Ok (C.date_of calendar.now d)) }
    ensures fault { IfErr result (λ e. rule_start (C.system calendar.now) (start_said start.entry) ≡ Err e) }
{
    match start {
        RruleStart::Day(day) => date_of_day(calendar, day),
        RruleStart::Fields(fields) => date_of_fields(calendar, fields),
    }
}

/// The arguments of `rrule` with their rule and window.
#[derive(Drop)]
struct InWindow<'a> {
    words: RruleWords<'a>,
    rule: RecurrenceRule,
    window: Window,
    ghost first: { window.first ≡ words.header.first },
    ghost last: { window.last ≡ words.header.last },
}

impl<'a> CalendarListing for InWindow<'a> {
    ghost asks_in = { λ _ c. IsNearList c.list };

    ghost ends_in = { λ s c tables. EndsFrom c (kind_system tables s.words.header.shown) (rrule_said s.words) s.rule };

    fn write_in<C: Calendar + Copy, K: Sink>(
        &self,
        calendar: C,
        tables: &Tables<'_>,
        sink: &mut K,
    ) -> Result<bool, Failed> {
        let start = match date_of_start(&calendar, self.words.start) {
            Ok(start) => start,
            Err(cause) => {
                let mut why = Pending::new();
                push_cause(&mut why, cause);
                return refuse_list(&why, sink);
            }
        };
        let form = DayForm {
            calendar,
            shown: self.words.header.shown,
            tables: *tables,
        };
        let items = rule_occurrences(calendar, &start, self.rule, self.window);
        write_lines(items, &RuleLines { form }, sink)?;
        Ok(false)
    }
}

impl<'a> TableList for RruleWords<'a> {
    ghost ends = { λ s. EndsRule (rrule_said s) };

    fn write<K: Sink>(&self, tables: &Tables<'_>, sink: &mut K) -> Result<bool, Failed> {
        let header = self.header;
        let Some(window) = window_of(header.first, header.last) else {
            return refuse_list(b"InvalidWindow", sink);
        };
        let rule = match RecurrenceRule::try_from_utf8(self.rule, header.calendar) {
            Ok(rule) => rule,
            Err(error) => {
                let mut why = Pending::new();
                push_rule_error(&mut why, error);
                return refuse_list(&why, sink);
            }
        };
        let list = InWindow {
            words: *self,
            rule,
            window,
        };
        write_in_kind(&list, header.calendar, tables, sink)
    }
}
