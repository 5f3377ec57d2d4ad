//! The list of `anniversary`.
ghost use Rattle.std.specs.Prelude.{◌≡◌, ◌+◌, Err, ⊤};
ghost use Rattle.cal_days.specs.Day.{IsValidDay};
ghost use Rattle.cal_tables.specs.Kinds.{kind_system, table_contents};
ghost use Rattle.calspan_run.specs.Anniversaries.{anniversary_error, anniversaries_in};
ghost use Rattle.command_line.specs.CommandSaid.{anniversary_said};
ghost use Rattle.calspan_run.specs.DayLines.{day_line, IsListEnd};
ghost use Rattle.calspan_run.specs.ListAnswers.{list_end};
ghost use Rattle.calspan_run.specs.ListTexts.{ListsAnniversaries};

use crate::day_lines::{DayForm, push_day_line, refuse_list, window_of};
use crate::kinds::write_in_kind;
use crate::lists::{CalendarListing, TableList};
use crate::writer::{ItemLines, write_lines};
use byte_io::{Failed, Sink};
use cal_anniversary::{AnniversaryError, anniversaries};
use cal_base::Calendar;
use cal_days::RataDie;
use cal_tables::Tables;
use cal_types::Window;
use command_line::AnniversaryWords;
use reply_texts::Pending;

/// Writes each day as a line.
#[derive(Clone, Copy)]
struct DayLines<'t, C> {
    form: DayForm<'t, C>,
}

impl<'t, C: Calendar> ItemLines for DayLines<'t, C> {
    type Item = RataDie;

    ghost is_shown = { λ s n. IsValidDay n };

    ghost line_of = { λ s n. day_line (C.system s.form.calendar)
        (kind_system (table_contents s.form.tables) s.form.shown) n };

    fn push_line(&self, text: &mut Pending, item: RataDie) {
        push_day_line(text, &self.form, item);
    }
}

/// Returns the name of the error of a month or a day.
fn error_name(error: AnniversaryError) -> &'static [u8]
    ensures { result.now ≡ anniversary_error error }
{
    match error {
        AnniversaryError::MonthNotInCalendar => b"MonthNotInCalendar",
        AnniversaryError::InvalidDay => b"InvalidDay",
    }
}

/// The arguments of `anniversary` with their window.
#[derive(Drop)]
struct InWindow {
    words: AnniversaryWords,
    window: Window,
    ghost first: { window.first ≡ words.first },
    ghost last: { window.last ≡ words.last },
}

impl CalendarListing for InWindow {
    ghost asks_in = { λ _ _. ⊤ };

    ghost ends_in = { λ s c tables text status.
        IsListEnd (anniversaries_in c (kind_system tables s.words.shown) (anniversary_said s.words)) text status };

    fn write_in<C: Calendar + Copy, K: Sink>(
        &self,
        calendar: C,
        tables: &Tables<'_>,
        sink: &mut K,
    ) -> Result<bool, Failed> {
        let words = self.words;
        let days = match anniversaries(
            calendar,
            words.month,
            words.day,
            words.leaping,
            self.window,
        ) {
            Ok(days) => days,
            Err(error) => return refuse_list(error_name(error), sink),
        };
        let form = DayForm {
            calendar,
            shown: words.shown,
            tables: *tables,
        };
        write_lines(days, &DayLines { form }, sink)?;
        Ok(false)
    }
}

impl TableList for AnniversaryWords {
    ghost ends = { λ s. list_end (ListsAnniversaries (anniversary_said s)) };

    fn write<K: Sink>(&self, tables: &Tables<'_>, sink: &mut K) -> Result<bool, Failed> {
        let Some(window) = window_of(self.first, self.last) else {
            return refuse_list(b"InvalidWindow", sink);
        };
        let list = InWindow {
            words: *self,
            window,
        };
        write_in_kind(&list, self.calendar, tables, sink)
    }
}
