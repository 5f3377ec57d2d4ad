//! Periods that begin 100 days apart.

ghost use Rattle.std.specs.Prelude.{◌≡◌, ◌↔◌, ◌||◌, IsTrue, ℤ, pos, ◌+ℤ◌, ◌≤ℤ◌, ◌<ℤ◌};
ghost use Rattle.cal_days.specs.Day.{IsNear, IsValidDay};
ghost use Rattle.recurrence_sets.specs.PeriodBits.{has_day};
ghost use Rattle.recurrence_set_tests.specs.Hundreds.{IsOneOfThree, is_day};

use cal_days::RataDie;
use cal_rule::bits::number_in;
use recurrence_sets::{PeriodDays, Periods};

/// Periods that begin 100 days apart. Each gives its first day, and the days that are 100 and 150 days behind it: so a
/// period's second day is the next one's first, and its third is behind that.
#[derive(Clone, Copy, Drop)]
pub struct Hundreds {
    start: i64,
    ghost valid: { IsValidDay start },
}

impl Hundreds {
    /// Creates the periods from a first day on.
    pub fn new(start: i64) -> Hundreds
        requires { IsValidDay start }
    {
        Hundreds { start }
    }
}

impl Periods for Hundreds {
    ghost use Rattle.recurrence_set_tests.specs.Hundreds.{Gives, gives-apart};

    ghost has = { λ s. Gives s.start };

    ghost apart = { λ s. gives-apart s.start };

    fn days(&self, period: u32, last: RataDie) -> Option<PeriodDays> {
        let first = self.start + 100 * i64::from(period);
        if first > last.to_i64_date() {
            return None;
        }
        Some(three_days(first))
    }
}

/// Returns the days 0, 100 and 150 days behind one.
fn three_days(first: i64) -> PeriodDays
    requires { IsValidDay first }
    ensures { (n : ℤ) → IsTrue (has_day result n) ↔ IsOneOfThree first n }
{
    let mut days = PeriodDays::new(RataDie::new(first));
    insert_day(&mut days, first);
    insert_day(&mut days, first + 100);
    insert_day(&mut days, first + 150);
    are_within(&days);
    days
}

/// Shows that the days of a set are among 448 days in a row.
fn are_within(days: &PeriodDays)
    ensures { (n : ℤ) → IsTrue (has_day days.now n) → n <ℤ (days.now.first +ℤ pos 448) }
{
    let _first = number_in(&days.words, 0);
}

/// Adds a day.
fn insert_day(days: &mut PeriodDays, day: i64)
    requires range { IsNear day }
    requires first { days.old.first ≤ℤ day }
    requires last { day <ℤ (days.old.first +ℤ pos 448) }
    ensures first { days.new.first ≡ days.old.first }
    ensures days { (n : ℤ) → n <ℤ (days.old.first +ℤ pos 448) →
        has_day days.new n ≡ (is_day day n || has_day days.old n) }
{
    days.insert_run(RataDie::new(day), RataDie::new(day + 1));
}
