//! The names of calendars in CLDR (UTS 35, the key `ca`).

ghost use Rattle.std.specs.Prelude.{◌≡◌, Some, IfSome};
ghost use Rattle.cal_errors.specs.Algorithm.{algorithm_name, algorithm_named};

/// A calendar algorithm of CLDR (UTS 35, the key `ca`).
#[derive(Clone, Copy, Debug, PartialEq, Eq)]
pub enum CalendarAlgorithm {
    /// `buddhist`
    Buddhist,
    /// `chinese`
    Chinese,
    /// `coptic`
    Coptic,
    /// `dangi`
    Dangi,
    /// `ethioaa`
    Ethioaa,
    /// `ethiopic`
    Ethiopic,
    /// `gregory`
    Gregory,
    /// `hebrew`
    Hebrew,
    /// `islamic`, alone or with its kind
    Hijri(Option<HijriCalendarAlgorithm>),
    /// `indian`
    Indian,
    /// `iso8601`
    Iso8601,
    /// `japanese`
    Japanese,
    /// `persian`
    Persian,
    /// `roc`
    Roc,
}

/// A kind of the algorithm `islamic` of CLDR (UTS 35, the key `ca`).
#[derive(Clone, Copy, Debug, PartialEq, Eq)]
pub enum HijriCalendarAlgorithm {
    /// `islamic-civil`
    Civil,
    /// `islamic-rgsa`
    Rgsa,
    /// `islamic-tbla`
    Tbla,
    /// `islamic-umalqura`
    Umalqura,
}

impl CalendarAlgorithm {
    /// Returns the name of the algorithm, such as `gregory` or `islamic-civil`.
    ///
    /// ```
    /// assert!(rt; CalendarAlgorithm::Gregory.as_str() == "gregory");
    /// ```
    pub fn as_str(&self) -> &'static str
        ensures value { result.now ≡ algorithm_name self.now }
        ensures read { algorithm_named result.now ≡ Some self.now }
    {
        match self {
            CalendarAlgorithm::Buddhist => "buddhist",
            CalendarAlgorithm::Chinese => "chinese",
            CalendarAlgorithm::Coptic => "coptic",
            CalendarAlgorithm::Dangi => "dangi",
            CalendarAlgorithm::Ethioaa => "ethioaa",
            CalendarAlgorithm::Ethiopic => "ethiopic",
            CalendarAlgorithm::Gregory => "gregory",
            CalendarAlgorithm::Hebrew => "hebrew",
            CalendarAlgorithm::Hijri(None) => "islamic",
            CalendarAlgorithm::Hijri(Some(HijriCalendarAlgorithm::Civil)) => "islamic-civil",
            CalendarAlgorithm::Hijri(Some(HijriCalendarAlgorithm::Rgsa)) => "islamic-rgsa",
            CalendarAlgorithm::Hijri(Some(HijriCalendarAlgorithm::Tbla)) => "islamic-tbla",
            CalendarAlgorithm::Hijri(Some(HijriCalendarAlgorithm::Umalqura)) => "islamic-umalqura",
            CalendarAlgorithm::Indian => "indian",
            CalendarAlgorithm::Iso8601 => "iso8601",
            CalendarAlgorithm::Japanese => "japanese",
            CalendarAlgorithm::Persian => "persian",
            CalendarAlgorithm::Roc => "roc",
        }
    }

    /// Returns the algorithm with this name, or `None` if no algorithm has it.
    ///
    /// ```
    /// assert!(rt; CalendarAlgorithm::from_name(b"hebrew") == Some(CalendarAlgorithm::Hebrew));
    /// ```
    pub fn from_name(bytes: &[u8]) -> Option<CalendarAlgorithm>
        ensures value { result ≡ algorithm_named bytes.now }
        ensures name { IfSome result (λ a. algorithm_name a ≡ bytes.now) }
    {
        ALGORITHMS
            .iter()
            .copied()
            .find(|algorithm| bytes == algorithm.as_str().as_bytes())
    }
}

/// All algorithms.
const ALGORITHMS: [CalendarAlgorithm; 18] = [
    CalendarAlgorithm::Buddhist,
    CalendarAlgorithm::Chinese,
    CalendarAlgorithm::Coptic,
    CalendarAlgorithm::Dangi,
    CalendarAlgorithm::Ethioaa,
    CalendarAlgorithm::Ethiopic,
    CalendarAlgorithm::Gregory,
    CalendarAlgorithm::Hebrew,
    CalendarAlgorithm::Hijri(None),
    CalendarAlgorithm::Hijri(Some(HijriCalendarAlgorithm::Civil)),
    CalendarAlgorithm::Hijri(Some(HijriCalendarAlgorithm::Rgsa)),
    CalendarAlgorithm::Hijri(Some(HijriCalendarAlgorithm::Tbla)),
    CalendarAlgorithm::Hijri(Some(HijriCalendarAlgorithm::Umalqura)),
    CalendarAlgorithm::Indian,
    CalendarAlgorithm::Iso8601,
    CalendarAlgorithm::Japanese,
    CalendarAlgorithm::Persian,
    CalendarAlgorithm::Roc,
];
