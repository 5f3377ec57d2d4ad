//! Tasks in calendars of any type.

ghost use Rattle.cal_types.specs.CalendarSystem.{CalendarSystem};

use cal_base::Calendar;

/// A task in a calendar of any type. It fills in parts, returns an answer, or does both.
///
/// The parts stay where the caller keeps them, so large ones aren't copied. A task without parts is a `CalendarTask<()>`.
/// An impl in short, without its ghosts:
///
/// ```text
/// /// The task of showing a day in parts that the caller keeps.
/// #[derive(Clone, Copy)]
/// struct ShowDay {
///     day: RataDie,
/// }
///
/// impl CalendarTask<DateParts> for ShowDay {
///     type Answer = ();
///
///     fn run<C: Calendar + Copy>(&self, parts: &mut DateParts, calendar: C) {
///         let date = calendar.from_rata_die(self.day);
///         parts.year = calendar.extended_year(&date);
///         parts.day = calendar.day_of_month(&date).0;
///     }
/// }
/// ```
pub trait CalendarTask<P> {
    /// The type of the answer.
    type Answer;

    /// The condition on the task, the calendar, and the parts before the call.
    ghost asks: { Self → CalendarSystem → P → Type 0 };

    /// The relation between the task, the calendar, the parts before and after the call, and the answer.
    ghost done: { Self → CalendarSystem → P → P → Self.Answer → Type 0 };

    /// Does the task in a calendar.
    fn run<C: Calendar + Copy>(&self, parts: &mut P, calendar: C) -> Self::Answer
        requires { asks self.now (C.system calendar) parts.old }
        ensures { done self.now (C.system calendar) parts.old parts.new result };
}
