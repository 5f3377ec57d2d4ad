//! The kinds of calendars.

ghost use Rattle.std.specs.Prelude.{◌≡◌, ◌<◌, length, ok_or, Some};
ghost use Rattle.std.specs.Option.{option_map};
ghost use Rattle.cal_types.specs.YearNames.{is_code};
ghost use Rattle.cal_errors.specs.declared.algorithm.CalendarAlgorithm.TheVariants.{Hijri};
ghost use Rattle.cal_kinds.specs.KindNames.{kind_named, kind_of_algorithm};
ghost use Rattle.cal_kinds.specs.NamePlaces.{kind_if, named_at, place_of};

use cal_types::{CalendarAlgorithm, HijriCalendarAlgorithm};
use std::fmt;

/// A kind of calendar.
#[derive(Clone, Copy, PartialEq, Eq, PartialOrd, Ord, Hash, Debug)]
pub enum AnyCalendarKind {
    /// The Buddhist calendar.
    Buddhist,
    /// The Chinese calendar.
    Chinese,
    /// The Coptic calendar.
    Coptic,
    /// The Korean calendar.
    Dangi,
    /// The Ethiopian calendar, in the style Amete Mihret.
    Ethiopian,
    /// The Ethiopian calendar, in the style Amete Alem.
    EthiopianAmeteAlem,
    /// The Gregorian calendar.
    Gregorian,
    /// The Hebrew calendar.
    Hebrew,
    /// The Indian calendar.
    Indian,
    /// The tabular Hijri calendar with leap year rule II and the Friday epoch.
    HijriTabularTypeIIFriday,
    /// The simulated Hijri calendar of Mecca.
    HijriSimulatedMecca,
    /// The tabular Hijri calendar with leap year rule II and the Thursday epoch.
    HijriTabularTypeIIThursday,
    /// The Hijri calendar of Umm al-Qura.
    HijriUmmAlQura,
    /// The ISO calendar.
    Iso,
    /// The Japanese calendar.
    Japanese,
    /// The Japanese calendar, by CLDR's former name for it with older eras.
    JapaneseExtended,
    /// The Julian calendar.
    Julian,
    /// The Persian calendar.
    Persian,
    /// The ROC calendar.
    Roc,
    /// The tabular Hijri calendar with leap year rule I and the Friday epoch.
    HijriTabularTypeIFriday,
    /// The tabular Hijri calendar with leap year rule I and the Thursday epoch.
    HijriTabularTypeIThursday,
}

/// Returns whether a text equals a name.
fn is_name(bytes: &[u8], name: &[u8]) -> bool
    ensures { result ≡ is_code bytes.now name.now }
{
    bytes == name
}

/// Returns a kind if a word is its name.
fn kind_if(word: &[u8], name: &[u8], kind: AnyCalendarKind) -> Option<AnyCalendarKind>
    ensures { result ≡ kind_if word.now (Some (name.now, kind)) }
{
    if is_name(word, name) {
        Some(kind)
    } else {
        None
    }
}

/// Returns the index of a word in the table of names, from its length, its first byte and its last. Every name has
/// its own index, so a word is compared with one name only.
fn place_of(word: &[u8]) -> usize
    requires { 0 < length word.now }
    ensures { result ≡ place_of word.now }
{
    let first = usize::from(word[0]);
    let last = usize::from(word[word.len() - 1]);
    (2 * (word.len() % 16) + first + last) % 64
}

/// Returns the name at an index of the table of names, and its kind.
fn named_at(place: usize) -> Option<(&'static [u8], AnyCalendarKind)>
    ensures { option_map (λ named. (named.0.now, named.1)) result ≡ named_at place }
{
    match place {
        10 => Some((b"islamic-umalqura", AnyCalendarKind::HijriUmmAlQura)),
        15 => Some((b"islamic-simulated", AnyCalendarKind::HijriSimulatedMecca)),
        18 => Some((b"coptic", AnyCalendarKind::Coptic)),
        20 => Some((b"ethioaa", AnyCalendarKind::EthiopianAmeteAlem)),
        22 => Some((b"chinese", AnyCalendarKind::Chinese)),
        23 => Some((b"dangi", AnyCalendarKind::Dangi)),
        24 => Some((b"ethiopic", AnyCalendarKind::Ethiopian)),
        27 => Some((b"roc", AnyCalendarKind::Roc)),
        30 => Some((b"iso", AnyCalendarKind::Iso)),
        31 => Some((b"japanese", AnyCalendarKind::Japanese)),
        34 => Some((b"islamic-tbla", AnyCalendarKind::HijriTabularTypeIIThursday)),
        35 => Some((b"indian", AnyCalendarKind::Indian)),
        36 => Some((b"julian", AnyCalendarKind::Julian)),
        38 => Some((b"buddhist", AnyCalendarKind::Buddhist)),
        39 => Some((b"gregorian", AnyCalendarKind::Gregorian)),
        42 => Some((
            b"islamic-type1-friday",
            AnyCalendarKind::HijriTabularTypeIFriday,
        )),
        43 => Some((b"hebrew", AnyCalendarKind::Hebrew)),
        44 => Some((b"persian", AnyCalendarKind::Persian)),
        46 => Some((
            b"islamic-type1-thursday",
            AnyCalendarKind::HijriTabularTypeIThursday,
        )),
        47 => Some((b"islamic-civil", AnyCalendarKind::HijriTabularTypeIIFriday)),
        _ => None,
    }
}

impl AnyCalendarKind {
    /// Returns the kind with a program name. The names are CLDR's if CLDR has one (UTS 35).
    ///
    /// The names are `iso`, `gregorian`, `julian`, `buddhist`, `chinese`, `coptic`, `dangi`, `ethiopic`, `ethioaa`,
    /// `hebrew`, `indian`, `islamic-civil`, `islamic-simulated`, `islamic-tbla`, `islamic-umalqura`, `japanese`,
    /// `persian`, `roc`, `islamic-type1-friday` and `islamic-type1-thursday`. Returns `None` for any other text.
    /// `JapaneseExtended` has no name.
    ///
    /// # Examples
    ///
    /// ```
    /// let kind = AnyCalendarKind::from_program_name(b"hebrew")?;
    /// assert!(rt; kind == AnyCalendarKind::Hebrew);
    /// ```
    pub fn from_program_name(bytes: &[u8]) -> Option<AnyCalendarKind>
        ensures { result ≡ kind_named bytes.now }
    {
        if bytes.is_empty() {
            return None;
        }
        match named_at(place_of(bytes)) {
            Some((name, kind)) => kind_if(bytes, name, kind),
            None => None,
        }
    }
}

/// Returns the name of the variant.
macro_rules! variant_name {
    ($kind:ident, $($variant:ident),*) => {
        match $kind {
            $(AnyCalendarKind::$variant => stringify!($variant),)*
        }
    };
}

/// Writes the name of the variant, such as `HijriUmmAlQura`.
impl fmt::Display for AnyCalendarKind {
    ghost use Rattle.std.specs.Prelude.{Some};
    ghost use Rattle.cal_kinds.specs.KindNames.{variant_name};

    ghost output = { λ k. Some (variant_name k) };

    fn fmt<W: fmt::Write>(&self, f: &mut fmt::Formatter<W>) -> fmt::Result {
        f.write_str(variant_name!(
            self,
            Buddhist,
            Chinese,
            Coptic,
            Dangi,
            Ethiopian,
            EthiopianAmeteAlem,
            Gregorian,
            Hebrew,
            Indian,
            HijriTabularTypeIIFriday,
            HijriSimulatedMecca,
            HijriTabularTypeIIThursday,
            HijriUmmAlQura,
            Iso,
            Japanese,
            JapaneseExtended,
            Julian,
            Persian,
            Roc,
            HijriTabularTypeIFriday,
            HijriTabularTypeIThursday
        ))
    }
}

/// Converts CLDR's name of a calendar to its kind (UTS 35, the key `ca`). Fails exactly for `islamic` and `islamic-rgsa`,
/// which stand for no kind. CLDR has no name for the tabular calendars with leap year rule I.
impl TryFrom<CalendarAlgorithm> for AnyCalendarKind {
    type Error = ();

    ghost try_from_gives = { λ algorithm r. r ≡ ok_or (kind_of_algorithm algorithm) tt };

    fn try_from(algorithm: CalendarAlgorithm) -> Result<AnyCalendarKind, ()> {
        match algorithm {
            CalendarAlgorithm::Buddhist => Ok(AnyCalendarKind::Buddhist),
            CalendarAlgorithm::Chinese => Ok(AnyCalendarKind::Chinese),
            CalendarAlgorithm::Coptic => Ok(AnyCalendarKind::Coptic),
            CalendarAlgorithm::Dangi => Ok(AnyCalendarKind::Dangi),
            CalendarAlgorithm::Ethioaa => Ok(AnyCalendarKind::EthiopianAmeteAlem),
            CalendarAlgorithm::Ethiopic => Ok(AnyCalendarKind::Ethiopian),
            CalendarAlgorithm::Gregory => Ok(AnyCalendarKind::Gregorian),
            CalendarAlgorithm::Hebrew => Ok(AnyCalendarKind::Hebrew),
            CalendarAlgorithm::Hijri(kind) => kind_of_hijri(kind),
            CalendarAlgorithm::Indian => Ok(AnyCalendarKind::Indian),
            CalendarAlgorithm::Iso8601 => Ok(AnyCalendarKind::Iso),
            CalendarAlgorithm::Japanese => Ok(AnyCalendarKind::Japanese),
            CalendarAlgorithm::Persian => Ok(AnyCalendarKind::Persian),
            CalendarAlgorithm::Roc => Ok(AnyCalendarKind::Roc),
        }
    }
}

/// Converts CLDR's name of a Hijri calendar to its kind.
fn kind_of_hijri(kind: Option<HijriCalendarAlgorithm>) -> Result<AnyCalendarKind, ()>
    ensures { result ≡ ok_or (kind_of_algorithm (Hijri kind)) tt }
{
    match kind {
        Some(HijriCalendarAlgorithm::Civil) => Ok(AnyCalendarKind::HijriTabularTypeIIFriday),
        Some(HijriCalendarAlgorithm::Tbla) => Ok(AnyCalendarKind::HijriTabularTypeIIThursday),
        Some(HijriCalendarAlgorithm::Umalqura) => Ok(AnyCalendarKind::HijriUmmAlQura),
        Some(HijriCalendarAlgorithm::Rgsa) | None => Err(()),
    }
}
