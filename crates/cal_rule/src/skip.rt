//! How to handle a month or day that doesn't exist.

ghost use Rattle.std.specs.Prelude.{◌≡◌};
ghost use Rattle.cal_rule.specs.RuleNames.{skip_name, skip_named};
ghost use Rattle.cal_rule.specs.Words.{skip_read};

use crate::value_fault::ValueFault;
use crate::words::is_word;

/// How to handle a month or a day that the rule names and that doesn't exist (RFC 7529, 4.1).
#[derive(Clone, Copy, Debug, PartialEq, Eq)]
pub enum Skip {
    /// It is left out.
    Omit,
    /// The regular month with a leap month's number replaces the leap month. The day before replaces the day.
    Backward,
    /// The month after replaces the leap month, and the day after replaces the day.
    Forward,
}

/// All ways.
const WAYS: [Skip; 3] = [Skip::Omit, Skip::Backward, Skip::Forward];

impl Skip {
    /// Returns the word in capitals, such as `OMIT`.
    ///
    /// # Examples
    ///
    /// ```
    /// assert!(rt; Skip::Omit.name() == "OMIT");
    /// ```
    pub const fn name(self) -> &'static str
        ensures { result.now ≡ skip_name self }
    {
        match self {
            Skip::Omit => "OMIT",
            Skip::Backward => "BACKWARD",
            Skip::Forward => "FORWARD",
        }
    }
}

/// Returns the way that a word names.
fn skip_named(text: &[u8]) -> Option<Skip>
    ensures { result ≡ skip_named text.now }
{
    WAYS.iter().copied().find(|way| is_word(text, way.name()))
}

/// Reads how to handle a month or day that doesn't exist.
pub(crate) fn read_skip(text: &[u8]) -> Result<Skip, ValueFault>
    ensures { result ≡ skip_read text.now }
{
    skip_named(text).ok_or(ValueFault::Bad)
}
