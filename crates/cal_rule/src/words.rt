//! Words of a rule, in which ASCII letters of either case are the same.

ghost use Rattle.std.specs.Prelude.{◌≡◌};
ghost use Rattle.cal_rule.specs.RuleNames.{is_word};

/// Returns whether a text is a word.
pub(crate) fn is_word(text: &[u8], word: &str) -> bool
    ensures { result ≡ is_word text.now word.now }
{
    text.eq_ignore_ascii_case(word.as_bytes())
}
