//! The calendars that have a variant in [`AnyCalendar`].

ghost use Rattle.std.specs.Prelude.{◌≡◌, IfOk, IfErr, MatchOption, refl};
ghost use Rattle.cal_any.specs.AnySystem.{any_system, any_date, any_belongs};
ghost use Rattle.cal_any.specs.KindHeld.{kind_held};
ghost use Rattle.cal_any.specs.declared.any_calendar.AnyCalendar.{AnyCalendar as AnyHeld};
ghost use Rattle.cal_any.specs.declared.any_calendar.AnyCalendar.TheVariants as calendar;
ghost use Rattle.cal_any.specs.declared.any_calendar.AnyDateInner.{AnyDateInner as AnyInner};
ghost use Rattle.cal_any.specs.declared.any_calendar.AnyDateInner.TheVariants as inner;

use cal_any::{AnyCalendar, AnyDateInner};
use cal_base::{AsCalendar, Calendar, Iso, IsoDateInner};
use cal_coptic::{Coptic, CopticDateInner, Ethiopian, EthiopianDateInner};
use cal_east_asian::{China, ChineseDateInner, EastAsianTraditional, Korea};
use cal_gregory::{
    Buddhist, BuddhistDateInner, Gregorian, GregorianDateInner, Japanese, JapaneseDateInner, Roc,
    RocDateInner,
};
use cal_hebrew::{Hebrew, HebrewDateInner};
use cal_hijri::{AstronomicalSimulation, Hijri, HijriDateInner, TabularAlgorithm, UmmAlQura};
use cal_julian::{Indian, IndianDateInner, Julian, JulianDateInner, Persian, PersianDateInner};
use cal_kinds::AnyCalendarKind;

/// A calendar that has a variant in [`AnyCalendar`], or [`AnyCalendar`] itself.
///
/// [`Japanese`] stands for the variant `Japanese`; `JapaneseExtended` is a separate variant.
pub trait IntoAnyCalendar<'t>: Calendar + AsCalendar<Calendar = Self> + Sized {
    /// The calendar in its variant.
    ghost in_any: { Self → AnyHeld };

    /// An inner date of the calendar in the same variant.
    ghost date_in_any: { Self.DateInner → AnyInner };

    /// Returns the calendar in its variant of [`AnyCalendar`].
    fn to_any(self) -> AnyCalendar<'t>
        ensures { result ≡ in_any self };

    /// Returns the kind of the calendar.
    fn kind(&self) -> AnyCalendarKind
        ensures { result ≡ kind_held (in_any self.now) };

    /// Returns the calendar that `any` holds, if it's of this type.
    ///
    /// # Errors
    ///
    /// - `any` itself, unchanged, exactly if it holds a calendar of another type.
    fn from_any(any: AnyCalendar<'t>) -> Result<Self, AnyCalendar<'t>>
        ensures held { IfOk result (λ c. any.entry ≡ in_any c) }
        ensures other { IfErr result (λ back. (c : Self) → ¬ (any.entry ≡ in_any c)) }
        ensures back { IfErr result (λ back. back ≡ any.entry) };

    /// Returns the calendar that `any` holds, or `None` exactly if it's of another type.
    fn from_any_ref<'a>(any: &'a AnyCalendar<'t>) -> Option<&'a Self>
        ensures { MatchOption result ((c : Self) → ¬ (any.now ≡ in_any c)) (λ c. any.now ≡ in_any c.now) };

    /// Returns an inner date of the calendar in the same variant.
    ///
    /// If the date belongs to the calendar, the result belongs to its [`IntoAnyCalendar::to_any`] and has the same day
    /// number.
    fn date_to_any(&self, d: &Self::DateInner) -> AnyDateInner<'t>
        ensures { result ≡ date_in_any d.now };

    /// The calendar leads to itself.
    ghost itself: { (c : Self) → Self.cal_of c ≡ c };

    /// The calendar in its variant has the same years and names.
    ghost same_system: { (c : Self) → any_system (in_any c) ≡ Self.system c };

    /// In its variant, an inner date belongs to the calendar exactly if it does in its own type, and is the same date.
    ghost same_belonging: { (c : Self) (d : Self.DateInner) →
        any_belongs (in_any c) (date_in_any d) ≡ Self.belongs c d };

    ghost same_date: { (c : Self) (d : Self.DateInner) → any_date (in_any c) (date_in_any d) ≡ Self.date_of c d };
}

/// Copies a value, because `*` on it isn't supported in an impl that names its lifetime.
fn copy_of<T: Copy>(value: &T) -> T
    ensures { result ≡ value.now }
{
    *value
}

/// Returns the calendar in a variant, or the value itself if it has another variant.
macro_rules! held {
    ($any:ident, $variant:ident) => {
        match $any {
            AnyCalendar::$variant(calendar) => Ok(calendar),
            other => Err(other),
        }
    };
}

/// Returns the calendar in a variant, by reference.
macro_rules! held_ref {
    ($any:ident, $variant:ident) => {
        match $any {
            AnyCalendar::$variant(calendar) => Some(calendar),
            _ => None,
        }
    };
}

impl<'t> IntoAnyCalendar<'t> for Buddhist {
    ghost in_any = { λ c. calendar.Buddhist c };

    ghost date_in_any = { λ d. inner.Buddhist d };

    fn to_any(self) -> AnyCalendar<'t> {
        AnyCalendar::Buddhist(self)
    }

    fn kind(&self) -> AnyCalendarKind {
        AnyCalendarKind::Buddhist
    }

    fn from_any(any: AnyCalendar<'t>) -> Result<Self, AnyCalendar<'t>> {
        held!(any, Buddhist)
    }

    fn from_any_ref<'a>(any: &'a AnyCalendar<'t>) -> Option<&'a Self> {
        held_ref!(any, Buddhist)
    }

    fn date_to_any(&self, d: &BuddhistDateInner) -> AnyDateInner<'t> {
        AnyDateInner::Buddhist(copy_of(d))
    }

    ghost itself = { λ _. refl };

    ghost same_system = { λ _. refl };

    ghost same_belonging = { λ _ _. refl };

    ghost same_date = { λ _ _. refl };
}

impl<'t> IntoAnyCalendar<'t> for EastAsianTraditional<China<'t>> {
    ghost in_any = { λ c. calendar.Chinese c };

    ghost date_in_any = { λ d. inner.Chinese d };

    fn to_any(self) -> AnyCalendar<'t> {
        AnyCalendar::Chinese(self)
    }

    fn kind(&self) -> AnyCalendarKind {
        AnyCalendarKind::Chinese
    }

    fn from_any(any: AnyCalendar<'t>) -> Result<Self, AnyCalendar<'t>> {
        held!(any, Chinese)
    }

    fn from_any_ref<'a>(any: &'a AnyCalendar<'t>) -> Option<&'a Self> {
        held_ref!(any, Chinese)
    }

    fn date_to_any(&self, d: &ChineseDateInner<China<'t>>) -> AnyDateInner<'t> {
        AnyDateInner::Chinese(copy_of(d))
    }

    ghost itself = { λ _. refl };

    ghost same_system = { λ _. refl };

    ghost same_belonging = { λ _ _. refl };

    ghost same_date = { λ _ _. refl };
}

impl<'t> IntoAnyCalendar<'t> for Coptic {
    ghost in_any = { λ c. calendar.Coptic c };

    ghost date_in_any = { λ d. inner.Coptic d };

    fn to_any(self) -> AnyCalendar<'t> {
        AnyCalendar::Coptic(self)
    }

    fn kind(&self) -> AnyCalendarKind {
        AnyCalendarKind::Coptic
    }

    fn from_any(any: AnyCalendar<'t>) -> Result<Self, AnyCalendar<'t>> {
        held!(any, Coptic)
    }

    fn from_any_ref<'a>(any: &'a AnyCalendar<'t>) -> Option<&'a Self> {
        held_ref!(any, Coptic)
    }

    fn date_to_any(&self, d: &CopticDateInner) -> AnyDateInner<'t> {
        AnyDateInner::Coptic(copy_of(d))
    }

    ghost itself = { λ _. refl };

    ghost same_system = { λ _. refl };

    ghost same_belonging = { λ _ _. refl };

    ghost same_date = { λ _ _. refl };
}

impl<'t> IntoAnyCalendar<'t> for EastAsianTraditional<Korea<'t>> {
    ghost in_any = { λ c. calendar.Dangi c };

    ghost date_in_any = { λ d. inner.Dangi d };

    fn to_any(self) -> AnyCalendar<'t> {
        AnyCalendar::Dangi(self)
    }

    fn kind(&self) -> AnyCalendarKind {
        AnyCalendarKind::Dangi
    }

    fn from_any(any: AnyCalendar<'t>) -> Result<Self, AnyCalendar<'t>> {
        held!(any, Dangi)
    }

    fn from_any_ref<'a>(any: &'a AnyCalendar<'t>) -> Option<&'a Self> {
        held_ref!(any, Dangi)
    }

    fn date_to_any(&self, d: &ChineseDateInner<Korea<'t>>) -> AnyDateInner<'t> {
        AnyDateInner::Dangi(copy_of(d))
    }

    ghost itself = { λ _. refl };

    ghost same_system = { λ _. refl };

    ghost same_belonging = { λ _ _. refl };

    ghost same_date = { λ _ _. refl };
}

impl<'t> IntoAnyCalendar<'t> for Ethiopian {
    ghost in_any = { λ c. calendar.Ethiopian c };

    ghost date_in_any = { λ d. inner.Ethiopian d };

    fn to_any(self) -> AnyCalendar<'t> {
        AnyCalendar::Ethiopian(self)
    }

    fn kind(&self) -> AnyCalendarKind {
        AnyCalendar::Ethiopian(*self).kind()
    }

    fn from_any(any: AnyCalendar<'t>) -> Result<Self, AnyCalendar<'t>> {
        held!(any, Ethiopian)
    }

    fn from_any_ref<'a>(any: &'a AnyCalendar<'t>) -> Option<&'a Self> {
        held_ref!(any, Ethiopian)
    }

    fn date_to_any(&self, d: &EthiopianDateInner) -> AnyDateInner<'t> {
        AnyDateInner::Ethiopian(copy_of(d))
    }

    ghost itself = { λ _. refl };

    ghost same_system = { λ _. refl };

    ghost same_belonging = { λ _ _. refl };

    ghost same_date = { λ _ _. refl };
}

impl<'t> IntoAnyCalendar<'t> for Gregorian {
    ghost in_any = { λ c. calendar.Gregorian c };

    ghost date_in_any = { λ d. inner.Gregorian d };

    fn to_any(self) -> AnyCalendar<'t> {
        AnyCalendar::Gregorian(self)
    }

    fn kind(&self) -> AnyCalendarKind {
        AnyCalendarKind::Gregorian
    }

    fn from_any(any: AnyCalendar<'t>) -> Result<Self, AnyCalendar<'t>> {
        held!(any, Gregorian)
    }

    fn from_any_ref<'a>(any: &'a AnyCalendar<'t>) -> Option<&'a Self> {
        held_ref!(any, Gregorian)
    }

    fn date_to_any(&self, d: &GregorianDateInner) -> AnyDateInner<'t> {
        AnyDateInner::Gregorian(copy_of(d))
    }

    ghost itself = { λ _. refl };

    ghost same_system = { λ _. refl };

    ghost same_belonging = { λ _ _. refl };

    ghost same_date = { λ _ _. refl };
}

impl<'t> IntoAnyCalendar<'t> for Hebrew {
    ghost in_any = { λ c. calendar.Hebrew c };

    ghost date_in_any = { λ d. inner.Hebrew d };

    fn to_any(self) -> AnyCalendar<'t> {
        AnyCalendar::Hebrew(self)
    }

    fn kind(&self) -> AnyCalendarKind {
        AnyCalendarKind::Hebrew
    }

    fn from_any(any: AnyCalendar<'t>) -> Result<Self, AnyCalendar<'t>> {
        held!(any, Hebrew)
    }

    fn from_any_ref<'a>(any: &'a AnyCalendar<'t>) -> Option<&'a Self> {
        held_ref!(any, Hebrew)
    }

    fn date_to_any(&self, d: &HebrewDateInner) -> AnyDateInner<'t> {
        AnyDateInner::Hebrew(copy_of(d))
    }

    ghost itself = { λ _. refl };

    ghost same_system = { λ _. refl };

    ghost same_belonging = { λ _ _. refl };

    ghost same_date = { λ _ _. refl };
}

impl<'t> IntoAnyCalendar<'t> for Hijri<AstronomicalSimulation<'t>> {
    ghost in_any = { λ c. calendar.HijriSimulated c };

    ghost date_in_any = { λ d. inner.HijriSimulated d };

    fn to_any(self) -> AnyCalendar<'t> {
        AnyCalendar::HijriSimulated(self)
    }

    fn kind(&self) -> AnyCalendarKind {
        AnyCalendarKind::HijriSimulatedMecca
    }

    fn from_any(any: AnyCalendar<'t>) -> Result<Self, AnyCalendar<'t>> {
        held!(any, HijriSimulated)
    }

    fn from_any_ref<'a>(any: &'a AnyCalendar<'t>) -> Option<&'a Self> {
        held_ref!(any, HijriSimulated)
    }

    fn date_to_any(&self, d: &HijriDateInner<AstronomicalSimulation<'t>>) -> AnyDateInner<'t> {
        AnyDateInner::HijriSimulated(copy_of(d))
    }

    ghost itself = { λ _. refl };

    ghost same_system = { λ _. refl };

    ghost same_belonging = { λ _ _. refl };

    ghost same_date = { λ _ _. refl };
}

impl<'t> IntoAnyCalendar<'t> for Hijri<TabularAlgorithm> {
    ghost in_any = { λ c. calendar.HijriTabular c };

    ghost date_in_any = { λ d. inner.HijriTabular d };

    fn to_any(self) -> AnyCalendar<'t> {
        AnyCalendar::HijriTabular(self)
    }

    fn kind(&self) -> AnyCalendarKind {
        AnyCalendar::HijriTabular(*self).kind()
    }

    fn from_any(any: AnyCalendar<'t>) -> Result<Self, AnyCalendar<'t>> {
        held!(any, HijriTabular)
    }

    fn from_any_ref<'a>(any: &'a AnyCalendar<'t>) -> Option<&'a Self> {
        held_ref!(any, HijriTabular)
    }

    fn date_to_any(&self, d: &HijriDateInner<TabularAlgorithm>) -> AnyDateInner<'t> {
        AnyDateInner::HijriTabular(copy_of(d))
    }

    ghost itself = { λ _. refl };

    ghost same_system = { λ _. refl };

    ghost same_belonging = { λ _ _. refl };

    ghost same_date = { λ _ _. refl };
}

impl<'t> IntoAnyCalendar<'t> for Hijri<UmmAlQura<'t>> {
    ghost in_any = { λ c. calendar.HijriUmmAlQura c };

    ghost date_in_any = { λ d. inner.HijriUmmAlQura d };

    fn to_any(self) -> AnyCalendar<'t> {
        AnyCalendar::HijriUmmAlQura(self)
    }

    fn kind(&self) -> AnyCalendarKind {
        AnyCalendarKind::HijriUmmAlQura
    }

    fn from_any(any: AnyCalendar<'t>) -> Result<Self, AnyCalendar<'t>> {
        held!(any, HijriUmmAlQura)
    }

    fn from_any_ref<'a>(any: &'a AnyCalendar<'t>) -> Option<&'a Self> {
        held_ref!(any, HijriUmmAlQura)
    }

    fn date_to_any(&self, d: &HijriDateInner<UmmAlQura<'t>>) -> AnyDateInner<'t> {
        AnyDateInner::HijriUmmAlQura(copy_of(d))
    }

    ghost itself = { λ _. refl };

    ghost same_system = { λ _. refl };

    ghost same_belonging = { λ _ _. refl };

    ghost same_date = { λ _ _. refl };
}

impl<'t> IntoAnyCalendar<'t> for Indian {
    ghost in_any = { λ c. calendar.Indian c };

    ghost date_in_any = { λ d. inner.Indian d };

    fn to_any(self) -> AnyCalendar<'t> {
        AnyCalendar::Indian(self)
    }

    fn kind(&self) -> AnyCalendarKind {
        AnyCalendarKind::Indian
    }

    fn from_any(any: AnyCalendar<'t>) -> Result<Self, AnyCalendar<'t>> {
        held!(any, Indian)
    }

    fn from_any_ref<'a>(any: &'a AnyCalendar<'t>) -> Option<&'a Self> {
        held_ref!(any, Indian)
    }

    fn date_to_any(&self, d: &IndianDateInner) -> AnyDateInner<'t> {
        AnyDateInner::Indian(copy_of(d))
    }

    ghost itself = { λ _. refl };

    ghost same_system = { λ _. refl };

    ghost same_belonging = { λ _ _. refl };

    ghost same_date = { λ _ _. refl };
}

impl<'t> IntoAnyCalendar<'t> for Iso {
    ghost in_any = { λ c. calendar.Iso c };

    ghost date_in_any = { λ d. inner.Iso d };

    fn to_any(self) -> AnyCalendar<'t> {
        AnyCalendar::Iso(self)
    }

    fn kind(&self) -> AnyCalendarKind {
        AnyCalendarKind::Iso
    }

    fn from_any(any: AnyCalendar<'t>) -> Result<Self, AnyCalendar<'t>> {
        held!(any, Iso)
    }

    fn from_any_ref<'a>(any: &'a AnyCalendar<'t>) -> Option<&'a Self> {
        held_ref!(any, Iso)
    }

    fn date_to_any(&self, d: &IsoDateInner) -> AnyDateInner<'t> {
        AnyDateInner::Iso(copy_of(d))
    }

    ghost itself = { λ _. refl };

    ghost same_system = { λ _. refl };

    ghost same_belonging = { λ _ _. refl };

    ghost same_date = { λ _ _. refl };
}

impl<'t> IntoAnyCalendar<'t> for Japanese {
    ghost in_any = { λ c. calendar.Japanese c };

    ghost date_in_any = { λ d. inner.Japanese d };

    fn to_any(self) -> AnyCalendar<'t> {
        AnyCalendar::Japanese(self)
    }

    fn kind(&self) -> AnyCalendarKind {
        AnyCalendarKind::Japanese
    }

    fn from_any(any: AnyCalendar<'t>) -> Result<Self, AnyCalendar<'t>> {
        held!(any, Japanese)
    }

    fn from_any_ref<'a>(any: &'a AnyCalendar<'t>) -> Option<&'a Self> {
        held_ref!(any, Japanese)
    }

    fn date_to_any(&self, d: &JapaneseDateInner) -> AnyDateInner<'t> {
        AnyDateInner::Japanese(copy_of(d))
    }

    ghost itself = { λ _. refl };

    ghost same_system = { λ _. refl };

    ghost same_belonging = { λ _ _. refl };

    ghost same_date = { λ _ _. refl };
}

impl<'t> IntoAnyCalendar<'t> for Julian {
    ghost in_any = { λ c. calendar.Julian c };

    ghost date_in_any = { λ d. inner.Julian d };

    fn to_any(self) -> AnyCalendar<'t> {
        AnyCalendar::Julian(self)
    }

    fn kind(&self) -> AnyCalendarKind {
        AnyCalendarKind::Julian
    }

    fn from_any(any: AnyCalendar<'t>) -> Result<Self, AnyCalendar<'t>> {
        held!(any, Julian)
    }

    fn from_any_ref<'a>(any: &'a AnyCalendar<'t>) -> Option<&'a Self> {
        held_ref!(any, Julian)
    }

    fn date_to_any(&self, d: &JulianDateInner) -> AnyDateInner<'t> {
        AnyDateInner::Julian(copy_of(d))
    }

    ghost itself = { λ _. refl };

    ghost same_system = { λ _. refl };

    ghost same_belonging = { λ _ _. refl };

    ghost same_date = { λ _ _. refl };
}

impl<'t> IntoAnyCalendar<'t> for Persian<'t> {
    ghost in_any = { λ c. calendar.Persian c };

    ghost date_in_any = { λ d. inner.Persian d };

    fn to_any(self) -> AnyCalendar<'t> {
        AnyCalendar::Persian(self)
    }

    fn kind(&self) -> AnyCalendarKind {
        AnyCalendarKind::Persian
    }

    fn from_any(any: AnyCalendar<'t>) -> Result<Self, AnyCalendar<'t>> {
        held!(any, Persian)
    }

    fn from_any_ref<'a>(any: &'a AnyCalendar<'t>) -> Option<&'a Self> {
        held_ref!(any, Persian)
    }

    fn date_to_any(&self, d: &PersianDateInner<'t>) -> AnyDateInner<'t> {
        AnyDateInner::Persian(copy_of(d))
    }

    ghost itself = { λ _. refl };

    ghost same_system = { λ _. refl };

    ghost same_belonging = { λ _ _. refl };

    ghost same_date = { λ _ _. refl };
}

impl<'t> IntoAnyCalendar<'t> for Roc {
    ghost in_any = { λ c. calendar.Roc c };

    ghost date_in_any = { λ d. inner.Roc d };

    fn to_any(self) -> AnyCalendar<'t> {
        AnyCalendar::Roc(self)
    }

    fn kind(&self) -> AnyCalendarKind {
        AnyCalendarKind::Roc
    }

    fn from_any(any: AnyCalendar<'t>) -> Result<Self, AnyCalendar<'t>> {
        held!(any, Roc)
    }

    fn from_any_ref<'a>(any: &'a AnyCalendar<'t>) -> Option<&'a Self> {
        held_ref!(any, Roc)
    }

    fn date_to_any(&self, d: &RocDateInner) -> AnyDateInner<'t> {
        AnyDateInner::Roc(copy_of(d))
    }

    ghost itself = { λ _. refl };

    ghost same_system = { λ _. refl };

    ghost same_belonging = { λ _ _. refl };

    ghost same_date = { λ _ _. refl };
}

/// Every call returns its argument.
impl<'t> IntoAnyCalendar<'t> for AnyCalendar<'t> {
    ghost in_any = { λ c. c };

    ghost date_in_any = { λ d. d };

    fn to_any(self) -> AnyCalendar<'t> {
        self
    }

    fn kind(&self) -> AnyCalendarKind {
        AnyCalendar::kind(self)
    }

    fn from_any(any: AnyCalendar<'t>) -> Result<Self, AnyCalendar<'t>> {
        Ok(any)
    }

    fn from_any_ref<'a>(any: &'a AnyCalendar<'t>) -> Option<&'a Self> {
        Some(any)
    }

    fn date_to_any(&self, d: &AnyDateInner<'t>) -> AnyDateInner<'t> {
        copy_of(d)
    }

    ghost itself = { λ _. refl };

    ghost same_system = { λ _. refl };

    ghost same_belonging = { λ _ _. refl };

    ghost same_date = { λ _ _. refl };
}
