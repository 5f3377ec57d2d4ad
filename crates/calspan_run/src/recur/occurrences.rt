//! The list of `recur`.
ghost use Rattle.std.specs.Prelude.{◌≡◌, Err, ⊤};
ghost use Rattle.cal_days.specs.Day.{IsValidDay};
ghost use Rattle.cal_types.specs.CalendarSystem.{resolve_fields};
ghost use Rattle.cal_tables.specs.Kinds.{kind_system, table_contents};
ghost use Rattle.command_line.specs.CommandSaid.{recur_said};
ghost use Rattle.calspan_run.specs.DayLines.{occurrence_line, IsListEnd};
ghost use Rattle.calspan_run.specs.ListAnswers.{list_end};
ghost use Rattle.calspan_run.specs.ListTexts.{ListsOccurrences};
ghost use Rattle.calspan_run.specs.Recurrences.{no_options, occurrence_lines};

use crate::day_lines::{DayForm, push_day_line, refuse_list, window_of};
use crate::kinds::write_in_kind;
use crate::lists::{CalendarListing, TableList};
use crate::writer::{ItemLines, write_lines};
use byte_io::{Failed, Sink};
use cal_base::Calendar;
use cal_recur::{Occurrence, Rule, recur};
use cal_tables::Tables;
use cal_types::{DateFromFieldsOptions, Window};
use command_line::RecurWords;
use reply_texts::{Pending, push_cause, push_number};

/// Writes each occurrence as a line.
#[derive(Clone, Copy)]
struct OccurrenceLines<'t, C> {
    form: DayForm<'t, C>,
}

impl<'t, C: Calendar> ItemLines for OccurrenceLines<'t, C> {
    type Item = Occurrence;

    ghost is_shown = { λ s x. IsValidDay x.day };

    ghost line_of = { λ s x. occurrence_line (C.system s.form.calendar)
        (kind_system (table_contents s.form.tables) s.form.shown) x };

    fn push_line(&self, text: &mut Pending, item: Occurrence) {
        push_number(text, u64::from(item.index));
        text.push(b' ');
        push_day_line(text, &self.form, item.day);
    }
}

/// The arguments of `recur` with their rule and window.
#[derive(Drop)]
struct InWindow<'a> {
    words: RecurWords<'a>,
    rule: Rule,
    window: Window,
    ghost first: { window.first ≡ words.header.first },
    ghost last: { window.last ≡ words.header.last },
}

impl<'a> CalendarListing for InWindow<'a> {
    ghost asks_in = { λ _ _. ⊤ };

    ghost ends_in = { λ s c tables text status. let a = recur_said s.words in
        IsListEnd (occurrence_lines c (kind_system tables s.words.header.shown) a s.rule
        (resolve_fields c a.start no_options)) text status };

    fn write_in<C: Calendar + Copy, K: Sink>(
        &self,
        calendar: C,
        tables: &Tables<'_>,
        sink: &mut K,
    ) -> Result<bool, Failed> {
        let options = DateFromFieldsOptions {
            overflow: None,
            missing_fields_strategy: None,
        };
        let start = match calendar.from_fields(self.words.fields, options) {
            Ok(start) => start,
            Err(cause) => {
                let mut why = Pending::new();
                push_cause(&mut why, cause);
                return refuse_list(&why, sink);
            }
        };
        let form = DayForm {
            calendar,
            shown: self.words.header.shown,
            tables: *tables,
        };
        let items = recur(calendar, start, self.rule, self.window);
        write_lines(items, &OccurrenceLines { form }, sink)?;
        Ok(false)
    }
}

impl<'a> TableList for RecurWords<'a> {
    ghost ends = { λ s. list_end (ListsOccurrences (recur_said s)) };

    fn write<K: Sink>(&self, tables: &Tables<'_>, sink: &mut K) -> Result<bool, Failed> {
        let header = self.header;
        let Some(window) = window_of(header.first, header.last) else {
            return refuse_list(b"InvalidWindow", sink);
        };
        let Some(rule) = Rule::try_new(header.unit, header.every, header.missing) else {
            return refuse_list(b"Every", sink);
        };
        let list = InWindow {
            words: *self,
            rule,
            window,
        };
        write_in_kind(&list, header.calendar, tables, sink)
    }
}
