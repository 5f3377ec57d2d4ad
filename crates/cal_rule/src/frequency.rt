//! How often a rule recurs.

ghost use Rattle.std.specs.Prelude.{◌≡◌};
ghost use Rattle.cal_rule.specs.RuleNames.{frequency_name, frequency_named, is_time_frequency};
ghost use Rattle.cal_rule.specs.Words.{frequency_read};

use crate::value_fault::ValueFault;
use crate::words::is_word;

/// How often a rule recurs: the length of its periods.
#[derive(Clone, Copy, Debug, PartialEq, Eq)]
pub enum Frequency {
    /// A period is a year.
    Yearly,
    /// A period is a month.
    Monthly,
    /// A period is a week.
    Weekly,
    /// A period is a day.
    Daily,
}

/// All frequencies.
const FREQUENCIES: [Frequency; 4] = [
    Frequency::Yearly,
    Frequency::Monthly,
    Frequency::Weekly,
    Frequency::Daily,
];

impl Frequency {
    /// Returns the word for the frequency in capitals, such as `YEARLY`.
    ///
    /// # Examples
    ///
    /// ```
    /// assert!(rt; Frequency::Yearly.name() == "YEARLY");
    /// ```
    pub const fn name(self) -> &'static str
        ensures { result.now ≡ frequency_name self }
    {
        match self {
            Frequency::Yearly => "YEARLY",
            Frequency::Monthly => "MONTHLY",
            Frequency::Weekly => "WEEKLY",
            Frequency::Daily => "DAILY",
        }
    }
}

/// Returns the frequency that a word names.
fn frequency_named(text: &[u8]) -> Option<Frequency>
    ensures { result ≡ frequency_named text.now }
{
    FREQUENCIES
        .iter()
        .copied()
        .find(|frequency| is_word(text, frequency.name()))
}

/// Returns whether a word names a frequency within a day.
fn is_time_frequency(text: &[u8]) -> bool
    ensures { result ≡ is_time_frequency text.now }
{
    is_word(text, "HOURLY") || is_word(text, "MINUTELY") || is_word(text, "SECONDLY")
}

/// Reads a frequency.
pub(crate) fn read_frequency(text: &[u8]) -> Result<Frequency, ValueFault>
    ensures { result ≡ frequency_read text.now }
{
    if is_time_frequency(text) {
        return Err(ValueFault::Time);
    }
    frequency_named(text).ok_or(ValueFault::Bad)
}
