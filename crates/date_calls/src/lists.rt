//! Lists of days in a window, of which the first items are written to a caller's column.

ghost use Rattle.std.specs.Prelude.{◌≡◌, ℤ, List, Option, IfSome, is_some};
ghost use Rattle.cal_days.specs.Day.{IsValidDay};
ghost use Rattle.cal_types.specs.declared.window.Window.{Window};
ghost use Rattle.date_calls.specs.Lists.{FillsFirst, IsListTold, IsListed, Steps, is_window, next_day};

use crate::days::ValidDay;
use crate::outcomes::DONE;
use cal_days::RataDie;
use cal_types::Window;

/// A list of the items in a window, of which the first is taken off at each step.
pub(crate) trait WindowList<O> {
    /// The items from a first to a last day.
    ghost between: { Self → ℤ → ℤ → List O };

    /// The rest of the window.
    ghost left: { Self → Option Window };

    /// Returns the first item that is left.
    fn next_item(&mut self) -> Option<O>
        ensures { Steps (between self.old) (between self.new) (left self.old) result (left self.new) };

    /// Returns the rest of the window.
    fn rest(&self) -> Option<Window>
        ensures { result ≡ left self.now };
}

/// How many items were written, and the day from which the list goes on.
#[derive(Clone, Copy)]
pub(crate) struct Listed {
    pub(crate) written: usize,
    pub(crate) next: i64,
}

/// Writes the first items of a list to a column, and returns how many.
fn fill_list<O: Copy, L: WindowList<O>>(list: &mut L, items: &mut [O]) -> usize
    ensures { FillsFirst (L.between list.old) (L.between list.new) (L.left list.old) (L.left list.new) items.old
        items.new result }
{
    let mut written = 0;
    'given: while written < items.len() {
        match list.next_item() {
            Some(item) => {
                items[written] = item;
                written += 1;
            }
            None => return written,
        }
    }
    written
}

/// Returns the day on which the rest of a window begins, or the day after the last one.
pub(crate) fn next_day(rest: Option<Window>, last: RataDie) -> i64
    requires { IsValidDay last }
    ensures { result ≡ next_day last rest }
{
    match rest {
        Some(window) => window.first().to_i64_date(),
        None => last.to_i64_date() + 1,
    }
}

/// Writes the first items of a list over a window to a column.
pub(crate) fn list_items<O: Copy, L: WindowList<O>>(
    list: &mut L,
    window: Window,
    items: &mut [O],
) -> Listed
    requires { L.left list.old ≡ Some window }
    ensures { IsListed (L.between list.old) window.first window.last items.old items.new result.written result.next }
{
    let written = fill_list(list, items);
    Listed {
        written,
        next: next_day(list.rest(), window.last()),
    }
}

/// Returns the window from a first to a last day if they are valid and in order.
pub(crate) fn window_of(first: i64, last: i64) -> Option<Window>
    ensures some { is_some result ≡ is_window first last }
    ensures days { IfSome result (λ w. (w.first ≡ first) × (w.last ≡ last)) }
{
    let first = ValidDay::of(first)?;
    let last = ValidDay::of(last)?;
    Window::try_new(first.rata_die(), last.rata_die())
}

/// Stores what was listed, and returns the code.
pub(crate) fn tell_list(answer: Result<Listed, u8>, written: &mut usize, next: &mut i64) -> u8
    requires { written.old ≡ 0 }
    ensures { IsListTold result answer written.new next.old next.new }
{
    match answer {
        Ok(listed) => {
            *written = listed.written;
            *next = listed.next;
            DONE
        }
        Err(code) => code,
    }
}
