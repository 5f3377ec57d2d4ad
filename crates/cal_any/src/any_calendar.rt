//! A calendar chosen at run time, and its inner dates.

ghost use Rattle.std.specs.Prelude.{◌≡◌, ◌<◌, IsTrue};
ghost use Rattle.cal_types.specs.Difference.{largest_unit_of};
ghost use Rattle.cal_types.specs.Until.{IsUntil};
ghost use Rattle.cal_any.specs.AnyOrder.{any_eq, any_cmp};
ghost use Rattle.cal_any.specs.laws.AnyOrderLaws.{any_alike, any_equal, any_partial_order};
ghost use Rattle.cal_any.specs.AnySystem.{any_system, any_date, any_belongs, any_compatible};
ghost use Rattle.cal_any.specs.AnySystem.{any_is_cheap, any_algorithm, any_name};

use crate::date_questions::{
    DateQuestion, DayInMonth, DayInYear, DayNumber, DaysInMonth, DaysInYear, ExtendedYear,
    IsInLeapYear, MonthsInYear, NamedMonth, NamedYear,
};
use cal_arith::Steps;
use cal_base::scaffold::UnstableSealed;
use cal_base::{AsCalendar, Calendar, Iso, IsoDateInner};
use cal_coptic::{Coptic, CopticDateInner, Ethiopian, EthiopianDateInner};
use cal_days::RataDie;
use cal_east_asian::{China, ChineseDateInner, EastAsianTraditional, Korea};
use cal_gregory::{
    Buddhist, BuddhistDateInner, Gregorian, GregorianDateInner, Japanese, JapaneseDateInner, Roc,
    RocDateInner,
};
use cal_hebrew::{Hebrew, HebrewDateInner};
use cal_hijri::{AstronomicalSimulation, Hijri, HijriDateInner, TabularAlgorithm, UmmAlQura};
use cal_julian::{Indian, IndianDateInner, Julian, JulianDateInner, Persian, PersianDateInner};
use cal_types::{
    CalendarAlgorithm, DateAddError, DateAddOptions, DateDifferenceOptions, DateDuration,
    DateFields, DateFromFieldsError, DateFromFieldsOptions, DateNewError, DayOfMonth, DayOfYear,
    MismatchedCalendarError, Month, MonthInfo, YearInfo, YearInput,
};
use std::cmp::Ordering;
use std::marker::Brand;
use std::sync::ledger::{Blank, Ledger};

/// A calendar chosen at run time.
///
/// A function that names the lifetime, such as `fn f<'t>(a: &Date<AnyCalendar<'t>>, b: &Date<AnyCalendar<'t>>)`,
/// can't be proved today if it writes `a == b`, `a < b` or `*a`. Write `a.same_date(b)` and `a.date_cmp(b)`, which
/// mean the same as the operators. A function over any `A: AsCalendar` may compare. The calendar itself is `Copy`, so
/// `Date::from_rata_die(a.to_rata_die(), calendar)` creates a second date of the same day.
#[derive(Clone, Copy, Debug)]
pub enum AnyCalendar<'t> {
    /// The Buddhist calendar.
    Buddhist(Buddhist),
    /// The Chinese calendar.
    Chinese(EastAsianTraditional<China<'t>>),
    /// The Coptic calendar.
    Coptic(Coptic),
    /// The Korean calendar.
    Dangi(EastAsianTraditional<Korea<'t>>),
    /// The Ethiopian calendar, in one of its styles.
    Ethiopian(Ethiopian),
    /// The Gregorian calendar.
    Gregorian(Gregorian),
    /// The Hebrew calendar.
    Hebrew(Hebrew),
    /// The simulated Hijri calendar of Mecca.
    HijriSimulated(Hijri<AstronomicalSimulation<'t>>),
    /// The tabular Hijri calendar.
    HijriTabular(Hijri<TabularAlgorithm>),
    /// The Hijri calendar of Umm al-Qura.
    HijriUmmAlQura(Hijri<UmmAlQura<'t>>),
    /// The Indian calendar.
    Indian(Indian),
    /// The ISO calendar.
    Iso(Iso),
    /// The Japanese calendar.
    Japanese(Japanese),
    /// The Japanese calendar, by CLDR's former name for it with older eras.
    JapaneseExtended(Japanese),
    /// The Julian calendar.
    Julian(Julian),
    /// The Persian calendar.
    Persian(Persian<'t>),
    /// The ROC calendar.
    Roc(Roc),
}

/// An inner date of any of the calendars.
///
/// Dates of one calendar are ordered by their days. Dates of different calendars are neither equal nor ordered. The two
/// styles of the Ethiopian calendar count as one calendar here.
#[derive(Clone, Copy, Debug)]
pub enum AnyDateInner<'t> {
    /// A date of the Buddhist calendar.
    Buddhist(BuddhistDateInner),
    /// A date of the Chinese calendar.
    Chinese(ChineseDateInner<China<'t>>),
    /// A date of the Coptic calendar.
    Coptic(CopticDateInner),
    /// A date of the Korean calendar.
    Dangi(ChineseDateInner<Korea<'t>>),
    /// A date of the Ethiopian calendar.
    Ethiopian(EthiopianDateInner),
    /// A date of the Gregorian calendar.
    Gregorian(GregorianDateInner),
    /// A date of the Hebrew calendar.
    Hebrew(HebrewDateInner),
    /// A date of the simulated Hijri calendar of Mecca.
    HijriSimulated(HijriDateInner<AstronomicalSimulation<'t>>),
    /// A date of the tabular Hijri calendar.
    HijriTabular(HijriDateInner<TabularAlgorithm>),
    /// A date of the Hijri calendar of Umm al-Qura.
    HijriUmmAlQura(HijriDateInner<UmmAlQura<'t>>),
    /// A date of the Indian calendar.
    Indian(IndianDateInner),
    /// A date of the ISO calendar.
    Iso(IsoDateInner),
    /// A date of the Japanese calendar.
    Japanese(JapaneseDateInner),
    /// A date of the Japanese calendar.
    JapaneseExtended(JapaneseDateInner),
    /// A date of the Julian calendar.
    Julian(JulianDateInner),
    /// A date of the Persian calendar.
    Persian(PersianDateInner<'t>),
    /// A date of the ROC calendar.
    Roc(RocDateInner),
}

/// Writes `$arm!(VARIANT, HELD, ..)` for the variant of a calendar or an inner date. Besides the two enums, this is the
/// only list of the variants.
macro_rules! match_variant {
    ($value:expr, $kind:ident, $held:ident, $arm:ident $arguments:tt) => {
        match $value {
            $kind::Buddhist($held) => $arm!(Buddhist, $held, $arguments),
            $kind::Chinese($held) => $arm!(Chinese, $held, $arguments),
            $kind::Coptic($held) => $arm!(Coptic, $held, $arguments),
            $kind::Dangi($held) => $arm!(Dangi, $held, $arguments),
            $kind::Ethiopian($held) => $arm!(Ethiopian, $held, $arguments),
            $kind::Gregorian($held) => $arm!(Gregorian, $held, $arguments),
            $kind::Hebrew($held) => $arm!(Hebrew, $held, $arguments),
            $kind::HijriSimulated($held) => $arm!(HijriSimulated, $held, $arguments),
            $kind::HijriTabular($held) => $arm!(HijriTabular, $held, $arguments),
            $kind::HijriUmmAlQura($held) => $arm!(HijriUmmAlQura, $held, $arguments),
            $kind::Indian($held) => $arm!(Indian, $held, $arguments),
            $kind::Iso($held) => $arm!(Iso, $held, $arguments),
            $kind::Japanese($held) => $arm!(Japanese, $held, $arguments),
            $kind::JapaneseExtended($held) => $arm!(JapaneseExtended, $held, $arguments),
            $kind::Julian($held) => $arm!(Julian, $held, $arguments),
            $kind::Persian($held) => $arm!(Persian, $held, $arguments),
            $kind::Roc($held) => $arm!(Roc, $held, $arguments),
        }
    };
}

/// Returns what the held calendar returns.
macro_rules! with_calendar {
    ($any:expr, $calendar:ident => $answer:expr) => {
        match_variant!($any, AnyCalendar, $calendar, answer_arm($answer))
    };
}

macro_rules! answer_arm {
    ($variant:ident, $calendar:ident, ($answer:expr)) => {
        $answer
    };
}

/// Returns the inner date that the held calendar returns, in the same variant.
macro_rules! date_with_calendar {
    ($any:expr, $calendar:ident => $answer:expr) => {
        match_variant!($any, AnyCalendar, $calendar, date_arm($answer))
    };
}

macro_rules! date_arm {
    ($variant:ident, $calendar:ident, ($answer:expr)) => {
        AnyDateInner::$variant($answer)
    };
}

/// Returns the inner date that the held calendar returns, in the same variant, or its error.
macro_rules! date_or_refusal {
    ($any:expr, $calendar:ident => $answer:expr) => {
        match_variant!($any, AnyCalendar, $calendar, date_or_refusal_arm($answer))
    };
}

macro_rules! date_or_refusal_arm {
    ($variant:ident, $calendar:ident, ($answer:expr)) => {
        match $answer {
            Ok(date) => Ok(AnyDateInner::$variant(date)),
            Err(cause) => Err(cause),
        }
    };
}

/// Returns what the held calendar returns for an inner date of the same variant.
macro_rules! with_date {
    ($any:expr, $date:ident, $calendar:ident => $answer:expr) => {
        match_variant!($any, AnyCalendar, $calendar, answer_of_date_arm($date, $answer))
    };
}

macro_rules! answer_of_date_arm {
    ($variant:ident, $calendar:ident, ($date:ident, $answer:expr)) => {{
        let AnyDateInner::$variant($date) = $date else {
            unreachable!()
        };
        $answer
    }};
}

/// Returns the inner date that the held calendar returns for an inner date, all in the same variant, or its error.
macro_rules! date_with_date_or_refusal {
    ($any:expr, $date:ident, $calendar:ident => $answer:expr) => {
        match_variant!($any, AnyCalendar, $calendar, date_of_date_or_refusal_arm($date, $answer))
    };
}

macro_rules! date_of_date_or_refusal_arm {
    ($variant:ident, $calendar:ident, ($date:ident, $answer:expr)) => {{
        let AnyDateInner::$variant($date) = $date else {
            unreachable!()
        };
        match $answer {
            Ok(date) => Ok(AnyDateInner::$variant(date)),
            Err(cause) => Err(cause),
        }
    }};
}

/// Returns what the held calendar returns for two inner dates of the same variant.
macro_rules! with_two_dates {
    ($any:expr, $first:ident, $second:ident, $calendar:ident => $answer:expr) => {
        match_variant!($any, AnyCalendar, $calendar, answer_of_dates_arm($first, $second, $answer))
    };
}

macro_rules! answer_of_dates_arm {
    ($variant:ident, $calendar:ident, ($first:ident, $second:ident, $answer:expr)) => {{
        let AnyDateInner::$variant($first) = $first else {
            unreachable!()
        };
        let AnyDateInner::$variant($second) = $second else {
            unreachable!()
        };
        $answer
    }};
}

/// Returns one value if two values are of the same variant, and another value if they aren't.
macro_rules! if_same_variant {
    (
        ($first:expr, $first_kind:ident($first_held:ident)),
        ($second:expr, $second_kind:ident($second_held:ident)) =>
        $same:expr,
        else $otherwise:expr
    ) => {
        match_variant!(
            $first,
            $first_kind,
            $first_held,
            same_arm($second, $second_kind, $second_held, $same, $otherwise)
        )
    };
}

macro_rules! same_arm {
    ($variant:ident, $held:ident, ($second:expr, $kind:ident, $other:ident, $same:expr, $otherwise:expr)) => {
        match $second {
            $kind::$variant($other) => $same,
            _ => $otherwise,
        }
    };
}

/// Returns the name of the calendar's variant, in parentheses after the name of the enum.
macro_rules! variant_name {
    ($any:expr) => {
        match_variant!($any, AnyCalendar, _held, name_arm())
    };
}

macro_rules! name_arm {
    ($variant:ident, $held:ident, ()) => {
        concat!("AnyCalendar (", stringify!($variant), ")")
    };
}

impl<'t> PartialEq for AnyDateInner<'t> {
    ghost eq = { any_eq };

    ghost laws = { any_alike };

    fn eq(&self, other: &Self) -> bool {
        matches!(self.partial_cmp(other), Some(Ordering::Equal))
    }
}

impl<'t> Eq for AnyDateInner<'t> {
    ghost laws = { any_equal };
}

impl<'t> PartialOrd for AnyDateInner<'t> {
    ghost partial_cmp = { any_cmp };

    ghost laws = { any_partial_order };

    fn partial_cmp(&self, other: &Self) -> Option<Ordering> {
        if_same_variant!((self, AnyDateInner(date)), (other, AnyDateInner(other)) => Some(date.cmp(other)), else None)
    }
}

/// Asks the held calendar a question about an inner date of the same variant.
fn ask<'t, Q: DateQuestion>(
    question: &Q,
    calendar: &AnyCalendar<'t>,
    date: &AnyDateInner<'t>,
) -> Q::Answer
    requires { IsTrue (any_belongs calendar.now date.now) }
    ensures { Q.answers (any_system calendar.now) (any_date calendar.now date.now) result }
{
    with_date!(calendar, date, held => question.ask(held, date))
}

/// Computes the difference with a counter whose value isn't used.
fn until_with_blank<'t, L: Ledger>(
    calendar: &AnyCalendar<'t>,
    date1: &AnyDateInner<'t>,
    date2: &AnyDateInner<'t>,
    options: DateDifferenceOptions,
    blank: Blank,
) -> DateDuration
    requires first { IsTrue (any_belongs calendar.now date1.now) }
    requires second { IsTrue (any_belongs calendar.now date2.now) }
    requires name { blank.name ≡ L.name }
    requires parts { blank.parts ≡ L.parts }
    requires some { 0 < blank.parts }
    ensures { let s = any_system calendar.now in let t = any_date calendar.now date1.now in
        let u = any_date calendar.now date2.now in
        IsUntil s.list s.year_shift t u (largest_unit_of options.largest_unit) result }
{
    let mut steps = Steps::<L>::new(blank);
    calendar.until_counted(date1, date2, options, &mut steps)
}

impl<'t> UnstableSealed for AnyCalendar<'t> {}

impl<'t> Calendar for AnyCalendar<'t> {
    ghost use Rattle.cal_any.specs.laws.AnyLaws.{any_lawful, any_dated, any_ranged, any_shifted, any_covered, any_named, any_equal_days, any_ordered_days};
    ghost use Rattle.cal_any.specs.laws.AnyLaws.{any_compatible_itself, any_compatible_back, any_compatible_on};
    ghost use Rattle.cal_any.specs.laws.AnyLaws.{any_shared, any_shared_day};

    type DateInner = AnyDateInner<'t>;

    type Year = YearInfo;

    type DateCompatibilityError = MismatchedCalendarError;

    ghost system = { any_system };

    ghost date_of = { any_date };

    ghost belongs = { any_belongs };

    ghost compatible = { any_compatible };

    ghost is_cheap = { any_is_cheap };

    ghost algorithm = { any_algorithm };

    ghost name = { any_name };

    fn owns(&self, date: &AnyDateInner<'t>) -> bool {
        if_same_variant!((self, AnyCalendar(calendar)), (date, AnyDateInner(date)) => calendar.owns(date), else false)
    }

    fn new_date(
        &self,
        year: YearInput<'_>,
        month: Month,
        day: u8,
    ) -> Result<AnyDateInner<'t>, DateNewError> {
        date_or_refusal!(self, calendar => calendar.new_date(year, month, day))
    }

    fn from_fields(
        &self,
        fields: DateFields<'_>,
        options: DateFromFieldsOptions,
    ) -> Result<AnyDateInner<'t>, DateFromFieldsError> {
        date_or_refusal!(self, calendar => calendar.from_fields(fields, options))
    }

    fn has_cheap_iso_conversion(&self) -> bool {
        with_calendar!(self, calendar => calendar.has_cheap_iso_conversion())
    }

    fn from_rata_die(&self, rd: RataDie) -> AnyDateInner<'t> {
        date_with_calendar!(self, calendar => calendar.from_rata_die(rd))
    }

    fn to_rata_die(&self, date: &AnyDateInner<'t>) -> RataDie {
        ask(&DayNumber, self, date)
    }

    fn months_in_year(&self, date: &AnyDateInner<'t>) -> u8 {
        ask(&MonthsInYear, self, date)
    }

    fn days_in_year(&self, date: &AnyDateInner<'t>) -> u16 {
        ask(&DaysInYear, self, date)
    }

    fn days_in_month(&self, date: &AnyDateInner<'t>) -> u8 {
        ask(&DaysInMonth, self, date)
    }

    fn is_in_leap_year(&self, date: &AnyDateInner<'t>) -> bool {
        ask(&IsInLeapYear, self, date)
    }

    fn year_info(&self, date: &AnyDateInner<'t>) -> YearInfo {
        ask(&NamedYear, self, date)
    }

    fn extended_year(&self, date: &AnyDateInner<'t>) -> i32 {
        ask(&ExtendedYear, self, date)
    }

    fn month(&self, date: &AnyDateInner<'t>) -> MonthInfo {
        ask(&NamedMonth, self, date)
    }

    fn day_of_month(&self, date: &AnyDateInner<'t>) -> DayOfMonth {
        ask(&DayInMonth, self, date)
    }

    fn day_of_year(&self, date: &AnyDateInner<'t>) -> DayOfYear {
        ask(&DayInYear, self, date)
    }

    fn add(
        &self,
        date: &AnyDateInner<'t>,
        duration: DateDuration,
        options: DateAddOptions,
    ) -> Result<AnyDateInner<'t>, DateAddError> {
        date_with_date_or_refusal!(self, date, calendar => calendar.add(date, duration, options))
    }

    fn until(
        &self,
        date1: &AnyDateInner<'t>,
        date2: &AnyDateInner<'t>,
        options: DateDifferenceOptions,
    ) -> DateDuration {
        until_with_blank::<Brand>(self, date1, date2, options, Blank::new(1))
    }

    fn until_counted<L: Ledger>(
        &self,
        date1: &AnyDateInner<'t>,
        date2: &AnyDateInner<'t>,
        options: DateDifferenceOptions,
        steps: &mut Steps<L>,
    ) -> DateDuration {
        with_two_dates!(self, date1, date2, calendar => calendar.until_counted(date1, date2, options, steps))
    }

    fn check_date_compatibility(&self, other: &Self) -> Result<(), MismatchedCalendarError> {
        let alike = if_same_variant!((self, AnyCalendar(first)), (other, AnyCalendar(second)) =>
            first.check_date_compatibility(second).is_ok(), else false);
        if alike {
            Ok(())
        } else {
            Err(MismatchedCalendarError)
        }
    }

    fn calendar_algorithm(&self) -> Option<CalendarAlgorithm> {
        with_calendar!(self, calendar => calendar.calendar_algorithm())
    }

    fn debug_name(&self) -> &'static str {
        variant_name!(self)
    }

    ghost refusal = { λ _ _ _. record {} };

    ghost lawful = { any_lawful };

    ghost dated = { any_dated };

    ghost ranged = { any_ranged };

    ghost shifted = { any_shifted };

    ghost covered = { any_covered };

    ghost named = { any_named };

    ghost equal_days = { any_equal_days };

    ghost ordered_days = { any_ordered_days };

    ghost compatible_itself = { any_compatible_itself };

    ghost compatible_back = { any_compatible_back };

    ghost compatible_on = { any_compatible_on };

    ghost shared = { any_shared };

    ghost shared_day = { any_shared_day };
}

impl<'t> AsCalendar for AnyCalendar<'t> {
    type Calendar = AnyCalendar<'t>;

    ghost cal_of = { λ c. c };

    fn as_calendar(&self) -> &AnyCalendar<'t> {
        self
    }
}
