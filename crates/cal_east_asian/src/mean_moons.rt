//! Mean new moons and mean solar terms, as moments in milliseconds from the start of day 0.

ghost use Rattle.std.specs.Prelude.{◌≡◌, ◌+◌, ◌<◌, ◌≤◌, pos, neg_ℤ, ◌+ℤ◌, ◌-ℤ◌, ◌*ℤ◌, ◌≤ℤ◌, ◌<ℤ◌};
ghost use Rattle.cal_days.specs.Day.{IsRuleYear};
ghost use Rattle.cal_days.specs.Division.{floor_mod};
ghost use Rattle.cal_east_asian.specs.MeanYears as mean;
ghost use Rattle.cal_east_asian.specs.MeanYears.{IsLastMoon, IsNearMoon, IsOffset, day, last_moon, month_total};

/// The length of a day, in milliseconds.
const DAY: i64 = 86_400_000;

/// The time from one mean new moon to the next: 29 days and 45842876 milliseconds.
pub(crate) const MONTH: i64 = 2_551_442_876;

/// The time from one mean solar term to the next, a twelfth of a mean year of 365.2425 days.
const TERM: i64 = 2_629_746_000;

/// A mean year of 365.2425 days.
pub(crate) const YEAR: i64 = 31_556_952_000;

/// Mean new moon 0 at Greenwich: on 2000-01-06 at 18:14.
const MOON_0: i64 = 63_082_865_640_000;

/// The mean winter solstice before 2000 at Greenwich: on 1999-12-22 at 7:44.
const SOLSTICE_OF_2000: i64 = 63_081_531_840_000;

/// Returns the day of a moment.
#[tactic(auto, using(cal_days::proofs::Signed::signed), unfolding(cal_days::specs::Division::floor_div))]
fn day_of(moment: i64) -> i64
    ensures exact { result ≡ day moment }
    ensures first { (pos 86400000 *ℤ result) ≤ℤ moment }
    ensures last { moment <ℤ (pos 86400000 *ℤ result +ℤ pos 86400000) }
{
    moment.div_euclid(DAY)
}

/// Returns the day of a moment, and the time from its start to the moment.
#[tactic(auto, using(cal_days::proofs::Signed::signed_casts))]
pub(crate) fn day_and_time(moment: i64) -> (i64, u32)
    requires { (neg_ℤ (pos 600000000000000000) ≤ℤ moment) × (moment ≤ℤ pos 600000000000000000) }
    ensures day { result.0 ≡ day moment }
    ensures first { (pos 86400000 *ℤ result.0) ≤ℤ moment }
    ensures last { moment <ℤ (pos 86400000 *ℤ result.0 +ℤ pos 86400000) }
    ensures time { result.1 ≡ floor_mod moment 86400000 }
    ensures bound { result.1 < 86400000 }
{
    let day = day_of(moment);
    (day, (moment - DAY * day) as u32)
}

/// Returns the moment of a mean new moon.
#[tactic(auto, using(cal_days::proofs::Signed::signed), unfolding(crate::specs::MeanYears::moon))]
pub(crate) fn moon(utc_offset: i64, index: i64) -> i64
    requires offset { IsOffset utc_offset }
    requires near { IsNearMoon index }
    ensures exact { result ≡ mean.moon utc_offset index }
    ensures near { (neg_ℤ (pos 600000000000000000) ≤ℤ result) × (result ≤ℤ pos 600000000000000000) }
{
    MOON_0 + utc_offset + MONTH * index
}

/// Returns the moment of the mean winter solstice before a year.
#[tactic(auto, using(cal_days::proofs::Signed::signed), unfolding(crate::specs::MeanYears::term))]
fn solstice(utc_offset: i64, year: i32) -> i64
    requires offset { IsOffset utc_offset }
    requires year { IsRuleYear year }
    ensures exact { result ≡ mean.term utc_offset year 0 }
    ensures near { (neg_ℤ (pos 260000000000000000) ≤ℤ result) × (result ≤ℤ pos 260000000000000000) }
{
    let years = i64::from(year) - 2000;
    SOLSTICE_OF_2000 + utc_offset + YEAR * years
}

/// Returns the moment of the mean solar term 2 of a year.
#[tactic(auto, using(cal_days::proofs::Signed::signed))]
pub(crate) fn second_term(utc_offset: i64, year: i32) -> i64
    requires offset { IsOffset utc_offset }
    requires year { IsRuleYear year }
    ensures exact { result ≡ mean.term utc_offset year 2 }
    ensures near { (neg_ℤ (pos 261000000000000000) ≤ℤ result) × (result ≤ℤ pos 261000000000000000) }
{
    solstice(utc_offset, year) + 2 * TERM
}

/// Returns the time from moon 0 to the last moment of a day.
#[tactic(auto, using(cal_days::proofs::Signed::signed))]
fn since_moon_0(utc_offset: i64, day: i64) -> i64
    requires offset { IsOffset utc_offset }
    requires near { (neg_ℤ (pos 3100000000) ≤ℤ day) × (day ≤ℤ pos 3100000000) }
    ensures exact { result ≡ pos 86400000 *ℤ (day +ℤ pos 1) -ℤ pos 1 -ℤ mean.moon utc_offset (pos 0) }
    ensures near { (neg_ℤ (pos 270000000000000000) ≤ℤ result) × (result ≤ℤ pos 270000000000000000) }
{
    let last = DAY * (day + 1) - 1;
    let first = MOON_0 + utc_offset;
    last - first
}

/// Returns the number of the last moon on or before a day.
#[tactic(auto, using(cal_days::proofs::Signed::signed), unfolding(crate::specs::MeanYears::last_moon, cal_days::specs::Division::floor_div),)]
pub(crate) fn last_moon_by(utc_offset: i64, day: i64) -> i64
    requires offset { IsOffset utc_offset }
    requires near { (neg_ℤ (pos 3100000000) ≤ℤ day) × (day ≤ℤ pos 3100000000) }
    ensures exact { result ≡ last_moon utc_offset day }
    ensures near { (neg_ℤ (pos 110000000) ≤ℤ result) × (result ≤ℤ pos 110000000) }
{
    since_moon_0(utc_offset, day).div_euclid(MONTH)
}

/// Returns the number of the mean new moon with which a mean year begins, the last moon on or before the day of term
/// 2.
///
/// The year is from -8000000 to 8000000, and the offset from 27940000 to 32400000 milliseconds.
#[tactic(auto, using(cal_days::proofs::Signed::signed))]
pub(crate) fn first_moon(utc_offset: i64, year: i32) -> i64
    requires offset { IsOffset utc_offset }
    requires year { IsRuleYear year }
    ensures exact { result ≡ mean.first_moon utc_offset year }
    ensures last { IsLastMoon utc_offset (day (mean.term utc_offset year 2)) result }
    ensures next { mean.first_moon utc_offset (year +ℤ pos 1) ≡ result +ℤ pos (month_total utc_offset year) }
    ensures near { (neg_ℤ (pos 110000000) ≤ℤ result) × (result ≤ℤ pos 110000000) }
{
    last_moon_by(utc_offset, day_of(second_term(utc_offset, year)))
}
