//! The kind of a calendar.

ghost use Rattle.std.specs.Prelude.{◌≡◌};
ghost use Rattle.cal_any.specs.KindHeld.{kind_held, kind_of_style, kind_of_tabular};

use crate::any_calendar::AnyCalendar;
use cal_coptic::EthiopianEraStyle;
use cal_hijri::{TabularAlgorithmEpoch, TabularAlgorithmLeapYears, epoch_of, leap_years_of};
use cal_kinds::AnyCalendarKind;

/// Returns the kind of the Ethiopian calendar in a style.
fn kind_of_style(style: EthiopianEraStyle) -> AnyCalendarKind
    ensures { result ≡ kind_of_style style }
{
    match style {
        EthiopianEraStyle::AmeteMihret => AnyCalendarKind::Ethiopian,
        EthiopianEraStyle::AmeteAlem => AnyCalendarKind::EthiopianAmeteAlem,
    }
}

/// Returns the kind of the tabular Hijri calendar with a leap year rule and an epoch.
fn kind_of_tabular(
    leap_years: TabularAlgorithmLeapYears,
    epoch: TabularAlgorithmEpoch,
) -> AnyCalendarKind
    ensures { result ≡ kind_of_tabular leap_years epoch }
{
    match (leap_years, epoch) {
        (TabularAlgorithmLeapYears::TypeI, TabularAlgorithmEpoch::Friday) => {
            AnyCalendarKind::HijriTabularTypeIFriday
        }
        (TabularAlgorithmLeapYears::TypeI, TabularAlgorithmEpoch::Thursday) => {
            AnyCalendarKind::HijriTabularTypeIThursday
        }
        (TabularAlgorithmLeapYears::TypeII, TabularAlgorithmEpoch::Friday) => {
            AnyCalendarKind::HijriTabularTypeIIFriday
        }
        (TabularAlgorithmLeapYears::TypeII, TabularAlgorithmEpoch::Thursday) => {
            AnyCalendarKind::HijriTabularTypeIIThursday
        }
    }
}

impl<'t> AnyCalendar<'t> {
    /// Returns the kind of the calendar.
    ///
    /// The kind of an Ethiopian calendar depends on its style. The kind of a tabular Hijri calendar depends on its leap
    /// year rule and its epoch. Both variants of the Japanese calendar are of the kind `Japanese`.
    ///
    /// # Examples
    ///
    /// ```
    /// assert!(rt; AnyCalendar::Hebrew(Hebrew).kind() == AnyCalendarKind::Hebrew);
    /// ```
    pub fn kind(&self) -> AnyCalendarKind
        ensures { result ≡ kind_held self.now }
    {
        match self {
            AnyCalendar::Buddhist(_) => AnyCalendarKind::Buddhist,
            AnyCalendar::Chinese(_) => AnyCalendarKind::Chinese,
            AnyCalendar::Coptic(_) => AnyCalendarKind::Coptic,
            AnyCalendar::Dangi(_) => AnyCalendarKind::Dangi,
            AnyCalendar::Ethiopian(calendar) => kind_of_style(calendar.era_style()),
            AnyCalendar::Gregorian(_) => AnyCalendarKind::Gregorian,
            AnyCalendar::Hebrew(_) => AnyCalendarKind::Hebrew,
            AnyCalendar::HijriSimulated(_) => AnyCalendarKind::HijriSimulatedMecca,
            AnyCalendar::HijriTabular(calendar) => {
                kind_of_tabular(leap_years_of(calendar.0), epoch_of(calendar.0))
            }
            AnyCalendar::HijriUmmAlQura(_) => AnyCalendarKind::HijriUmmAlQura,
            AnyCalendar::Indian(_) => AnyCalendarKind::Indian,
            AnyCalendar::Iso(_) => AnyCalendarKind::Iso,
            AnyCalendar::Japanese(_) => AnyCalendarKind::Japanese,
            AnyCalendar::JapaneseExtended(_) => AnyCalendarKind::Japanese,
            AnyCalendar::Julian(_) => AnyCalendarKind::Julian,
            AnyCalendar::Persian(_) => AnyCalendarKind::Persian,
            AnyCalendar::Roc(_) => AnyCalendarKind::Roc,
        }
    }
}
