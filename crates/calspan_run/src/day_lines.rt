//! Lines for days: the date in one calendar and the date in a second calendar.
ghost use Rattle.std.specs.Prelude.{◌≡◌, ◌+◌, ◌≤◌, ◌++◌};
ghost use Rattle.arrayvec.specs.ArrayVec.{array_vec_len};
ghost use Rattle.cal_days.specs.Day.{IsValidDay};
ghost use Rattle.cal_tables.specs.Kinds.{kind_system, table_contents};
ghost use Rattle.calspan_run.specs.DayLines.{day_line};

use crate::kinds::show_day;
use crate::writer::write_all;
use byte_io::{Failed, Sink};
use cal_base::Calendar;
use cal_days::RataDie;
use cal_kinds::AnyCalendarKind;
use cal_tables::Tables;
use cal_types::Window;
use reply_texts::{DayParts, Pending, push_all, push_day, show_in};

/// The two calendars in which a day is written.
#[derive(Clone, Copy)]
pub(crate) struct DayForm<'t, C> {
    /// The calendar of the first date.
    pub(crate) calendar: C,
    /// The calendar of the second date.
    pub(crate) shown: AnyCalendarKind,
    /// The tables of the second calendar.
    pub(crate) tables: Tables<'t>,
}

/// Appends the line of a day, at most 186 bytes.
pub(crate) fn push_day_line<C: Calendar>(text: &mut Pending, form: &DayForm<'_, C>, day: RataDie)
    requires room { array_vec_len text.old + 186 ≤ 8192 }
    requires valid { IsValidDay day }
    ensures { text.new.items ≡ text.old.items
        ++ day_line (C.system form.now.calendar) (kind_system (table_contents form.now.tables) form.now.shown) day }
{
    let mut parts = DayParts::unnamed(day);
    let mut shown = DayParts::unnamed(day);
    show_in(&mut parts, &form.calendar);
    show_day(&mut shown, form.shown, &form.tables);
    push_day(text, &parts, &shown);
    text.push(b'\n');
}

ghost use Rattle.std.specs.Prelude.{MatchOption, Err, length, true, false};
ghost use Rattle.cal_types.specs.declared.window.Window.{Window};
ghost use Rattle.byte_io.specs.Faults.{HasCause};
ghost use Rattle.calspan_run.specs.DayLines.{is_window, IsListEnd, list_text};
ghost use Rattle.calspan_run.specs.Endings.{EndsList};
ghost use Rattle.calspan_run.specs.Written.{Wrote};

/// Returns the window from the day number `first` to `last`. `None` exactly if they aren't valid days in order.
pub(crate) fn window_of(first: i32, last: i32) -> Option<Window>
    ensures none { MatchOption result (is_window first last ≡ false)
        (λ w. (is_window first last ≡ true) × (w.first ≡ first) × (w.last ≡ last)) }
{
    Window::try_new(
        RataDie::new(i64::from(first)),
        RataDie::new(i64::from(last)),
    )
}

/// Writes an `err` line. The reason has at most 100 bytes.
fn write_refusal<K: Sink>(why: &[u8], sink: &mut K) -> Result<(), Failed>
    requires { length why.now ≤ 100 }
    ensures wrote { Wrote result (K.taken sink.old) (K.taken sink.new) (list_text (Err why.now)) }
    ensures cause { HasCause (K.faults sink.old) (K.faults sink.new) result }
{
    let mut text = Pending::new();
    push_all(&mut text, b"err ");
    push_all(&mut text, why);
    text.push(b'\n');
    write_all(&text, sink)
}

/// Writes an `err` line in place of a list. The reason has at most 100 bytes.
pub(crate) fn refuse_list<K: Sink>(why: &[u8], sink: &mut K) -> Result<bool, Failed>
    requires { length why.now ≤ 100 }
    ensures listed { EndsList result (K.taken sink.old) (K.taken sink.new) (IsListEnd (Err why.now)) }
    ensures cause { HasCause (K.faults sink.old) (K.faults sink.new) result }
{
    write_refusal(why, sink)?;
    Ok(true)
}
