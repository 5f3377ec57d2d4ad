//! Days that lie a multiple of some days behind a start.

ghost use Rattle.std.specs.Prelude.{◌≡◌, ◌+◌, ◌-◌, ◌*◌, ◌/◌, ◌<◌, ◌≤◌, ℕ, neg_ℤ, pos, ◌+ℤ◌, ◌≤ℤ◌, ◌<ℤ◌};
ghost use Rattle.cal_days.specs.Day.{IsBetween};
ghost use Rattle.cal_rrule.specs.Masks.{Adds, IsInterval};

use cal_days::RataDie;
use recurrence_sets::PeriodDays;

/// Returns how many days lie from a start to a day, or 0 if the day is before the start.
pub(crate) fn days_ahead(from: RataDie, start: RataDie) -> u64
    requires from { IsBetween (neg_ℤ (pos 2000000000)) (pos 2000000000) from }
    requires start { IsBetween (neg_ℤ (pos 2000000000)) (pos 2000000000) start }
    ensures behind { start ≤ℤ from → from ≡ start +ℤ pos result }
    ensures before { from ≤ℤ start → result ≡ 0 }
    ensures few { result ≤ 4000000000 }
{
    let days = from.since(start);
    if days < 0 {
        return 0;
    }
    days as u64
}

/// Returns how many steps of some days it takes at least to go so many days.
fn rounded_up(days: u64, every: u32) -> u64
    requires every { 0 < every }
    requires days { days ≤ 4000000000 }
    ensures { result ≡ (days + every - 1) / every }
{
    let step = u64::from(every);
    (days + step - 1) / step
}

/// Returns how many days so many steps go.
fn days_of_steps(steps: u64, every: u32) -> i64
    requires { steps * every ≤ 9000000000 }
    ensures { result ≡ pos (steps * every) }
{
    let days = steps * u64::from(every);
    days as i64
}

/// Returns the least number of steps that lead from a start to a day or behind it.
fn steps_to(from: RataDie, start: RataDie, every: u32) -> u64
    requires from { IsBetween (neg_ℤ (pos 2000000000)) (pos 2000000000) from }
    requires start { IsBetween (neg_ℤ (pos 2000000000)) (pos 2000000000) start }
    requires every { 0 < every }
    ensures reached { from ≤ℤ (start +ℤ pos (result * every)) }
    ensures least { (j : ℕ) → j < result → (start +ℤ pos (j * every)) <ℤ from }
    ensures few { result * every ≤ 9000000000 }
{
    rounded_up(days_ahead(from, start), every)
}

/// Adds the days from one up to another, which isn't added itself, that lie a multiple of some days behind a start.
pub(crate) fn add_interval(
    days: &mut PeriodDays,
    from: RataDie,
    to: RataDie,
    start: RataDie,
    every: u32,
)
    requires from { IsBetween (neg_ℤ (pos 2000000000)) (pos 2000000000) from }
    requires to { IsBetween (neg_ℤ (pos 2000000000)) (pos 2000000000) to }
    requires start { IsBetween (neg_ℤ (pos 2000000000)) (pos 2000000000) start }
    requires every { 0 < every }
    ensures { Adds days.old days.new (IsInterval start every from to) }
{
    let steps = steps_to(from, start, every);
    let end = to.to_i64_date();
    let mut day = start.to_i64_date() + days_of_steps(steps, every);
    while day < end {
        days.insert_day(RataDie::new(day));
        day += i64::from(every);
    }
}
