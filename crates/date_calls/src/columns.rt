//! A call at every place of columns, in a calendar that is chosen once.

ghost use Rattle.std.specs.Prelude.{◌≡◌, ℕ, ◌<◌, length};
ghost use Rattle.cal_types.specs.CalendarSystem.{CalendarSystem};
ghost use Rattle.date_calls.specs.Calendars.{choice_system};
ghost use Rattle.date_calls.specs.Columns.{AtEach, Fills};

use crate::calendars::{Chosen, run};
use crate::outcomes::{DONE, LENGTHS_DIFFER};
use cal_base::Calendar;
use kind_calls::CalendarTask;

/// A call at the places of columns, in any calendar. It fills in an `O` at a place, and returns a `K`.
pub(crate) trait ColumnCall<O, K> {
    /// The number of places.
    ghost places: { Self → ℕ };

    /// The relation between a calendar, a place, what the call returns there, and what stands there before and after.
    ghost single: { Self → CalendarSystem → ℕ → K → O → O → Type 0 };

    /// Returns the number of places.
    fn count(&self) -> usize
        ensures { result ≡ places self.now };

    /// Does the call at a place.
    fn call_at<C: Calendar>(&self, calendar: &C, place: usize, output: &mut O) -> K
        requires { place < places self.now }
        ensures { single self.now (C.system calendar.now) place result output.old output.new };
}

/// Does a call at every place, in a calendar.
fn fill<C: Calendar, O, K: Copy, Q: ColumnCall<O, K>>(
    call: &Q,
    calendar: &C,
    outputs: &mut [O],
    codes: &mut [K],
)
    requires outputs { length outputs.old ≡ Q.places call.now }
    requires codes { length codes.old ≡ Q.places call.now }
    ensures { AtEach (Q.single call.now (C.system calendar.now)) outputs.old outputs.new codes.new }
{
    for place in 0..outputs.len() {
        codes[place] = call.call_at(calendar, place, &mut outputs[place]);
    }
}

/// The columns that a call fills in.
#[derive(Drop)]
struct Columns<'c, O, K> {
    outputs: &'c mut [O],
    codes: &'c mut [K],
}

/// The task of doing a call at every place.
#[derive(Drop)]
struct Filling<'q, Q> {
    call: &'q Q,
}

impl<'q, 'c, O, K: Copy, Q: ColumnCall<O, K>> CalendarTask<Columns<'c, O, K>> for Filling<'q, Q> {
    type Answer = ();

    ghost asks = { λ t _ columns. (length columns.outputs.now ≡ Q.places t.call.now)
        × (length columns.codes.now ≡ Q.places t.call.now) };

    ghost done = { λ t s before columns _. (columns.outputs.ghost_name ≡ before.outputs.ghost_name)
        × (columns.codes.ghost_name ≡ before.codes.ghost_name)
        × AtEach (Q.single t.call.now s) before.outputs.now columns.outputs.now columns.codes.now };

    fn run<C: Calendar + Copy>(&self, columns: &mut Columns<'c, O, K>, calendar: C) {
        fill(self.call, &calendar, columns.outputs, columns.codes);
    }
}

/// Does a call at every place, in the chosen calendar.
fn fill_in<O, K: Copy, Q: ColumnCall<O, K>>(
    call: &Q,
    chosen: &Chosen,
    outputs: &mut [O],
    codes: &mut [K],
)
    requires outputs { length outputs.old ≡ Q.places call.now }
    requires codes { length codes.old ≡ Q.places call.now }
    ensures { AtEach (Q.single call.now (choice_system chosen.now)) outputs.old outputs.new codes.new }
{
    let mut columns = Columns { outputs, codes };
    run(&Filling { call }, &mut columns, chosen);
}

/// Does a call at every place, in the chosen calendar, if both columns have as many places as the call.
pub(crate) fn fill_columns<O, K: Copy, Q: ColumnCall<O, K>>(
    call: &Q,
    chosen: &Chosen,
    outputs: &mut [O],
    codes: &mut [K],
) -> u8
    ensures { Fills (Q.single call.now (choice_system chosen.now)) (Q.places call.now) result outputs.old outputs.new
        codes.old codes.new }
{
    let count = call.count();
    if outputs.len() != count {
        return LENGTHS_DIFFER;
    }
    if codes.len() != count {
        return LENGTHS_DIFFER;
    }
    fill_in(call, chosen, outputs, codes);
    DONE
}

/// Does a call at every place, in a calendar, if both columns have as many places as the call.
pub(crate) fn fill_equal<C: Calendar, O, K: Copy, Q: ColumnCall<O, K>>(
    call: &Q,
    calendar: &C,
    outputs: &mut [O],
    codes: &mut [K],
) -> u8
    ensures { Fills (Q.single call.now (C.system calendar.now)) (Q.places call.now) result outputs.old outputs.new
        codes.old codes.new }
{
    let count = call.count();
    if outputs.len() != count {
        return LENGTHS_DIFFER;
    }
    if codes.len() != count {
        return LENGTHS_DIFFER;
    }
    fill(call, calendar, outputs, codes);
    DONE
}
