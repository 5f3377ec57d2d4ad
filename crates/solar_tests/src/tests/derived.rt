//! The order, the equality and the hash of public types that derive them.

use crate::tests::expected::{assert_at, assert_day, assert_holds};
use cal_base::{Calendar, Iso, NumberedYear};
use cal_coptic::{Coptic, Ethiopian, EthiopianEraStyle};
use cal_days::RataDie;
use cal_gregory::{Buddhist, EraStartDate, Gregorian, Japanese, JapaneseEras, Roc};
use cal_julian::{Indian, Julian, Persian, PersianCorrections};
use cal_types::TinyAsciiStr;
use std::hash::{DefaultHasher, Hash, Hasher};
use std::process::Abort;

/// Returns the hash of a value.
fn hash_of<T: Hash>(value: &T) -> u64 {
    let mut hasher = DefaultHasher::new();
    value.hash(&mut hasher);
    hasher.finish()
}

/// That a value is below another one, by its order, and that both are equal to themselves alone, and so are their hashes.
fn assert_ascending<T: Ord + Hash + Copy>(rt: &impl Abort, case: &str, first: T, second: T) {
    let again = first;
    assert_holds(rt, case, first < second && !(second < first));
    assert_holds(rt, case, first == again && first != second);
    assert_holds(rt, case, hash_of(&first) == hash_of(&again));
    assert_holds(rt, case, hash_of(&first) != hash_of(&second));
}

/// That the dates of days are ordered as the days are.
fn assert_ordered_by_time<C: Calendar>(rt: &impl Abort, case: &str, calendar: &C)
where
    C::DateInner: Ord + Hash,
{
    for &(first, second) in &[
        (-1, 1),
        (738945, 738946),
        (738946, 739300),
        (-365242499, 365242134),
    ] {
        assert_day(rt, first);
        assert_day(rt, second);
        let one = calendar.from_rata_die(RataDie::new(first));
        let other = calendar.from_rata_die(RataDie::new(second));
        assert_ascending(rt, case, one, other);
    }
}

/// Returns the date on which an era starts.
fn start(year: i32, month: u8, day: u8) -> EraStartDate {
    EraStartDate { year, month, day }
}

/// Returns the eras with a last one of a code, if the code is one.
fn eras_with(code: &[u8]) -> Option<JapaneseEras> {
    let code = TinyAsciiStr::try_from_utf8(code).ok()?;
    JapaneseEras::with_last_era(start(2086, 11, 1), code, 8)
}

#[test]
fn day_numbers_are_ordered_by_time(rt: HostRuntime) {
    assert_ascending(&rt, "days", RataDie::new(-2), RataDie::new(1));
}

#[test]
fn years_are_ordered_by_their_numbers(rt: HostRuntime) {
    let first = NumberedYear { number: -300 };
    assert_ascending(&rt, "years", first, NumberedYear { number: 2 });
}

#[test]
fn dates_of_solar_calendars_are_ordered_by_time(rt: HostRuntime) {
    assert_ordered_by_time(&rt, "iso", &Iso);
    assert_ordered_by_time(&rt, "gregorian", &Gregorian);
    assert_ordered_by_time(&rt, "buddhist", &Buddhist);
    assert_ordered_by_time(&rt, "roc", &Roc);
    assert_ordered_by_time(&rt, "japanese", &Japanese::new());
    assert_ordered_by_time(&rt, "julian", &Julian);
    assert_ordered_by_time(&rt, "indian", &Indian);
    let persian = Persian::new(PersianCorrections::none());
    assert_ordered_by_time(&rt, "persian", &persian);
    assert_ordered_by_time(&rt, "coptic", &Coptic);
    assert_ordered_by_time(&rt, "ethiopian", &Ethiopian::new());
}

#[test]
fn starts_of_eras_are_ordered_by_year_month_and_day(rt: HostRuntime) {
    assert_ascending(&rt, "year", start(2019, 12, 31), start(2020, 1, 1));
    assert_ascending(&rt, "month", start(2019, 5, 31), start(2019, 6, 1));
    assert_ascending(&rt, "day", start(2019, 5, 1), start(2019, 5, 2));
}

#[test]
fn era_styles_are_ordered_and_lists_of_eras_equal_by_their_last_era(rt: HostRuntime) {
    let styles = (EthiopianEraStyle::AmeteMihret, EthiopianEraStyle::AmeteAlem);
    assert_ascending(&rt, "styles", styles.0, styles.1);
    let start = EraStartDate {
        year: 2086,
        month: 11,
        day: 1,
    };
    let with = |code: &[u8]| {
        let code = TinyAsciiStr::try_from_utf8(code).ok()?;
        JapaneseEras::with_last_era(start, code, 8)
    };
    assert_at(&rt, "the same era", with(b"fuzu"), with(b"fuzu"));
    assert_holds(&rt, "another era", with(b"fuzu") != with(b"next"));
    assert_holds(
        &rt,
        "no era",
        with(b"fuzu") != Some(JapaneseEras::default()),
    );
}

#[test]
fn calendars_without_fields_are_equal(rt: HostRuntime) {
    assert_holds(&rt, "iso", Iso == Iso && Iso <= Iso);
    assert_holds(&rt, "julian", Julian == Julian && Julian <= Julian);
    assert_holds(&rt, "indian", Indian == Indian && Indian <= Indian);
    assert_holds(&rt, "coptic", Coptic == Coptic && Coptic <= Coptic);
    assert_holds(&rt, "hashes", hash_of(&Coptic) == hash_of(&Coptic));
}
