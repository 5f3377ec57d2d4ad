//! Days that move if they fall on some weekdays.

ghost use Rattle.std.specs.Prelude.{◌≡◌, ◌+ℤ◌, ◌-ℤ◌, ◌<◌, ℕ, pos, true};
ghost use Rattle.cal_days.specs.Day.{IsBetween, IsHeld, IsValidDay};
ghost use Rattle.cal_days.specs.Division.{floor_mod};

use cal_days::RataDie;

/// By how many days a holiday moves, by the weekday on which the rule's own day falls.
///
/// All `Moves` that a [`Book`](crate::Book) returns are in the ranges stated here.
#[derive(Clone, Copy, Debug, PartialEq, Eq)]
pub struct Moves {
    /// The number of days for each weekday from Sunday on, from -6 to 6. `None` if the day stays.
    pub days: [Option<i8>; 7],
}

ghost use Rattle.cal_holidays.specs.Observing.{are_proper_moves, move_on};
ghost use Rattle.cal_holidays.specs.Moving.{IsSomeValid, if_between, moved_between};

/// Returns a day if it is from `first` to `last`.
fn if_between(day: i64, first: RataDie, last: RataDie) -> Option<RataDie>
    requires { IsHeld day }
    ensures { result ≡ if_between first last day }
{
    if first.to_i64_date() <= day && day <= last.to_i64_date() {
        Some(RataDie::new(day))
    } else {
        None
    }
}

impl Moves {
    /// Returns a number of days that no day is moved beyond: 0 if no day moves.
    pub(crate) fn reach(&self) -> i64
        requires { are_proper_moves self.now.days ≡ true }
        ensures reach { (d : ℕ) → IsBetween (pos 0 -ℤ result) result (move_on self.now.days d) }
        ensures range { IsBetween (pos 0) (pos 6) result }
    {
        if self.days.iter().all(|days| days.is_none()) {
            0
        } else {
            6
        }
    }

    /// Returns the number of days by which a day moves that lies `place` days after a Sunday.
    fn on(&self, place: usize) -> i64
        requires { place < 7 }
        ensures { result ≡ move_on self.now.days place }
    {
        match self.days[place] {
            Some(days) => i64::from(days),
            None => 0,
        }
    }

    /// Returns the day to which a valid day moves.
    fn moved(&self, own: RataDie) -> i64
        requires proper { are_proper_moves self.now.days ≡ true }
        requires valid { IsValidDay own }
        ensures { result ≡ own +ℤ move_on self.now.days (floor_mod own 7) }
    {
        let day = own.to_i64_date();
        day + self.on(day.rem_euclid(7) as usize)
    }

    /// Returns the day to which a valid day moves, if there is one and it is from `first` to `last`.
    pub(crate) fn moved_between(
        &self,
        own: &Option<RataDie>,
        first: RataDie,
        last: RataDie,
    ) -> Option<RataDie>
        requires proper { are_proper_moves self.now.days ≡ true }
        requires valid { IsSomeValid own.now }
        ensures { result ≡ moved_between self.now.days first last own.now }
    {
        match own {
            Some(own) => if_between(self.moved(*own), first, last),
            None => None,
        }
    }
}
