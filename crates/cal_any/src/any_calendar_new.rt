//! The calendar of a kind, over tables.

ghost use Rattle.std.specs.Prelude.{◌≡◌, false};
ghost use Rattle.cal_coptic.specs.EthiopianSystem.{ethiopian_system};
ghost use Rattle.cal_hijri.specs.TabularRules.{tabular_system};
ghost use Rattle.cal_any.specs.AnySystem.{any_system};
ghost use Rattle.cal_any.specs.KindHeld.{is_extended, kind_held, kind_made, kind_of_style, kind_of_tabular};
ghost use Rattle.cal_any.specs.TablesHeld.{HoldsTable};
ghost use Rattle.cal_tables.specs.Kinds.{kind_system, table_contents};
ghost use Rattle.cal_tables.specs.declared.tables.Tables.{Tables};

use crate::any_calendar::AnyCalendar;
use cal_base::Iso;
use cal_coptic::{Coptic, Ethiopian, EthiopianEraStyle};
use cal_gregory::{Buddhist, Gregorian, Roc};
use cal_hebrew::Hebrew;
use cal_hijri::{Hijri, TabularAlgorithmEpoch, TabularAlgorithmLeapYears};
use cal_julian::{Indian, Julian};
use cal_kinds::AnyCalendarKind;
use cal_tables::Tables;

/// Returns the Ethiopian calendar in a style.
fn ethiopian<'t>(style: EthiopianEraStyle) -> AnyCalendar<'t>
    ensures system { any_system result ≡ ethiopian_system style }
    ensures held { kind_held result ≡ kind_of_style style }
    ensures variant { is_extended result ≡ false }
    ensures table { (tables : Tables) → HoldsTable result tables }
{
    AnyCalendar::Ethiopian(Ethiopian::new_with_era_style(style))
}

/// Returns the tabular Hijri calendar with a leap year rule and an epoch.
fn tabular<'t>(
    leap_years: TabularAlgorithmLeapYears,
    epoch: TabularAlgorithmEpoch,
) -> AnyCalendar<'t>
    ensures system { any_system result ≡ tabular_system (record { leap_years = leap_years; epoch = epoch }) }
    ensures held { kind_held result ≡ kind_of_tabular leap_years epoch }
    ensures variant { is_extended result ≡ false }
    ensures table { (tables : Tables) → HoldsTable result tables }
{
    AnyCalendar::HijriTabular(Hijri::new_tabular(leap_years, epoch))
}

impl<'t> AnyCalendar<'t> {
    /// Creates the calendar of a kind, over tables.
    ///
    /// `Chinese` uses the rows of China, `Dangi` the rows of Korea, and only `HijriUmmAlQura` the rows of Umm
    /// al-Qura. `Persian` uses the corrected years, and `Japanese` and `JapaneseExtended` use the eras.
    ///
    /// [`AnyCalendar::kind`] returns the same kind, except `Japanese` for `JapaneseExtended`: both create the variant
    /// `Japanese`.
    ///
    /// # Examples
    ///
    /// ```
    /// let kind = AnyCalendarKind::from_program_name(b"hebrew")?;
    /// let hebrew = AnyCalendar::new(kind, published::tables());
    /// assert!(rt; hebrew.kind() == kind);
    /// ```
    pub fn new(kind: AnyCalendarKind, tables: Tables<'t>) -> AnyCalendar<'t>
        ensures system { any_system result ≡ kind_system (table_contents tables.entry) kind }
        ensures held { kind_held result ≡ kind_made kind }
        ensures variant { is_extended result ≡ false }
        ensures table { HoldsTable result tables.entry }
    {
        match kind {
            AnyCalendarKind::Buddhist => AnyCalendar::Buddhist(Buddhist),
            AnyCalendarKind::Chinese => AnyCalendar::Chinese(tables.chinese()),
            AnyCalendarKind::Coptic => AnyCalendar::Coptic(Coptic),
            AnyCalendarKind::Dangi => AnyCalendar::Dangi(tables.korean()),
            AnyCalendarKind::Ethiopian => ethiopian(EthiopianEraStyle::AmeteMihret),
            AnyCalendarKind::EthiopianAmeteAlem => ethiopian(EthiopianEraStyle::AmeteAlem),
            AnyCalendarKind::Gregorian => AnyCalendar::Gregorian(Gregorian),
            AnyCalendarKind::Hebrew => AnyCalendar::Hebrew(Hebrew),
            AnyCalendarKind::Indian => AnyCalendar::Indian(Indian),
            AnyCalendarKind::HijriTabularTypeIIFriday => {
                tabular(
                    TabularAlgorithmLeapYears::TypeII,
                    TabularAlgorithmEpoch::Friday,
                )
            }
            AnyCalendarKind::HijriSimulatedMecca => {
                AnyCalendar::HijriSimulated(tables.simulated_mecca())
            }
            AnyCalendarKind::HijriTabularTypeIIThursday => {
                tabular(
                    TabularAlgorithmLeapYears::TypeII,
                    TabularAlgorithmEpoch::Thursday,
                )
            }
            AnyCalendarKind::HijriUmmAlQura => AnyCalendar::HijriUmmAlQura(tables.umm_al_qura()),
            AnyCalendarKind::Iso => AnyCalendar::Iso(Iso),
            AnyCalendarKind::Japanese | AnyCalendarKind::JapaneseExtended => {
                AnyCalendar::Japanese(tables.japanese())
            }
            AnyCalendarKind::Julian => AnyCalendar::Julian(Julian),
            AnyCalendarKind::Persian => AnyCalendar::Persian(tables.persian()),
            AnyCalendarKind::Roc => AnyCalendar::Roc(Roc),
            AnyCalendarKind::HijriTabularTypeIFriday => {
                tabular(
                    TabularAlgorithmLeapYears::TypeI,
                    TabularAlgorithmEpoch::Friday,
                )
            }
            AnyCalendarKind::HijriTabularTypeIThursday => {
                tabular(
                    TabularAlgorithmLeapYears::TypeI,
                    TabularAlgorithmEpoch::Thursday,
                )
            }
        }
    }
}
