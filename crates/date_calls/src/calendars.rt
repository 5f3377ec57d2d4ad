//! The calendar for two codes, and questions to the calendar in its own type.

ghost use Rattle.std.specs.Prelude.{◌≡◌, ⊤};
ghost use Rattle.date_calls.specs.Calendars.{calendar_of, choice_system, chosen_system};

use crate::codes::kind_of;
use crate::outcomes::{UNKNOWN_CALENDAR, UNKNOWN_YEARS};
use crate::questions::Question;
use crate::sources::{YearSource, source_of};
use cal_base::Calendar;
use cal_kinds::AnyCalendarKind;
use kind_calls::{CalendarTask, run_in_kind};

/// A kind of calendar, and the source of its years.
#[derive(Clone, Copy)]
pub(crate) struct Chosen {
    pub(crate) kind: AnyCalendarKind,
    pub(crate) source: YearSource,
}

/// Returns the calendar for the codes of a kind and of a source of years, or the code of the error.
pub(crate) fn choose(calendar: u8, years: u8) -> Result<Chosen, u8>
    ensures { chosen_system result ≡ calendar_of calendar years }
{
    let Some(kind) = kind_of(calendar) else {
        return Err(UNKNOWN_CALENDAR);
    };
    let Some(source) = source_of(years) else {
        return Err(UNKNOWN_YEARS);
    };
    Ok(Chosen { kind, source })
}

/// A question as a task, which fills in nothing.
#[derive(Drop)]
struct Asking<'q, Q> {
    question: &'q Q,
}

impl<'q, Q: Question> CalendarTask<()> for Asking<'q, Q> {
    type Answer = Q::Answer;

    ghost asks = { λ _ _ _. ⊤ };

    ghost done = { λ t s _ _ answer. Q.answers t.question.now s answer };

    fn run<C: Calendar + Copy>(&self, _nothing: &mut (), calendar: C) -> Q::Answer {
        self.question.ask(&calendar)
    }
}

/// Runs a task in the chosen calendar.
pub(crate) fn run<P, T: CalendarTask<P>>(task: &T, parts: &mut P, chosen: &Chosen) -> T::Answer
    requires { T.asks task.now (choice_system chosen.now) parts.old }
    ensures { T.done task.now (choice_system chosen.now) parts.old parts.new result }
{
    run_in_kind(task, parts, chosen.kind, &chosen.source)
}

/// Asks the chosen calendar.
pub(crate) fn ask<Q: Question>(question: &Q, chosen: &Chosen) -> Q::Answer
    ensures { Q.answers question.now (choice_system chosen.now) result }
{
    run(&Asking { question }, &mut (), chosen)
}
