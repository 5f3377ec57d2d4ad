//! Row lines of an era of Japan.
ghost use Rattle.std.specs.Prelude.{◌≡◌, true};
ghost use Rattle.request_lines.specs.Rows.{is_era_code};

use cal_types::TinyAsciiStr;

/// The Gregorian date of an era row. It isn't validated: the date may not exist.
#[derive(Clone, Copy, Debug)]
pub struct RowDate {
    /// The year, in the proleptic Gregorian calendar.
    pub year: i32,
    /// The number of the month, 0 to 255.
    pub month: u8,
    /// The day of the month, 0 to 255.
    pub day: u8,
}

/// A row of an era of Japan.
#[derive(Clone, Copy, Debug)]
pub struct EraRow<'a> {
    /// The first day of the era.
    pub start: RowDate,
    /// The era code: one to eight letters `a` to `z`.
    pub letters: &'a [u8],
    /// The era's index among the eras of the calendar.
    pub index: u8,
    ghost coded: { is_era_code letters.now ≡ true },
}

impl<'a> EraRow<'a> {
    /// Returns the era code.
    pub fn code(&self) -> TinyAsciiStr<8>
        ensures { result ≡ self.now.letters.now }
    {
        TinyAsciiStr::of_text(self.letters)
    }
}
