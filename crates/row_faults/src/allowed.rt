//! What may stand in the place of a word that its form allows.

/// What may stand in the place of a word that its form allows, but not the lines or the numbers before it.
#[derive(Clone, Copy, Debug, PartialEq, Eq)]
pub enum Allowed {
    /// Word 1: `span`, because the row lines have ended.
    Span,
    /// Word 1: `span` in place of `row`, because the row lines have ended.
    SpanForRow,
    /// Word 2: the name of a table of years, because an earlier row has an era.
    YearTable,
    /// Word 3: a year from -8000000 to 8000000.
    RuleYear,
    /// Word 4: a day that is 0 to 34 days after January 19 of the year.
    LunisolarStart,
    /// Word 4: a day that is at most 5 days from the start of the mean year.
    HijriStart,
    /// Word 6: the ordinal of a leap month, 2 to 13.
    LeapMonth,
    /// Word 3: a year up to 2089.
    EraYear,
    /// Word 4: a month from 1 to 15.
    EraMonth,
    /// Word 5: a day from 1 to 31.
    EraDay,
    /// Word 7: the index 7 or 8.
    EraIndex,
}

ghost use Rattle.std.specs.Prelude.{◌≡◌};
ghost use Rattle.row_faults.specs.Stages.{place_of};

impl Allowed {
    /// Returns the number of the word, counted from 1.
    pub fn word(self) -> usize
        ensures { result ≡ place_of self }
    {
        match self {
            Allowed::Span => 1,
            Allowed::SpanForRow => 1,
            Allowed::YearTable => 2,
            Allowed::RuleYear => 3,
            Allowed::LunisolarStart => 4,
            Allowed::HijriStart => 4,
            Allowed::LeapMonth => 6,
            Allowed::EraYear => 3,
            Allowed::EraMonth => 4,
            Allowed::EraDay => 5,
            Allowed::EraIndex => 7,
        }
    }
}
