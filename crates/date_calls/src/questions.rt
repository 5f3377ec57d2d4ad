//! Questions to any calendar, in its own type.

ghost use Rattle.cal_types.specs.CalendarSystem.{CalendarSystem};

use cal_base::Calendar;

/// A question to any calendar, in its own type.
pub(crate) trait Question {
    /// The type of the answer.
    type Answer;

    /// The relation of the question, a calendar and its answer.
    ghost answers: { Self → CalendarSystem → Self.Answer → Type 0 };

    /// Asks a calendar the question.
    fn ask<C: Calendar>(&self, calendar: &C) -> Self::Answer
        ensures { answers self.now (C.system calendar.now) result };
}
