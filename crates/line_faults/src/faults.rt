//! The first fault of a line.
ghost use Rattle.std.specs.Prelude.{◌≡◌, drop};
ghost use Rattle.std.specs.Option.{option_map};
ghost use Rattle.request_lines.specs.Words.{words_of};
ghost use Rattle.line_faults.specs.Faults.{first_fault, first_of};

use crate::expected::Expected;
use crate::steps::{may_end, step};
use cal_types::DateFields;
use request_lines::Words;

/// The first fault of a line.
#[derive(Clone, Copy, Debug, PartialEq, Eq)]
pub struct LineFault {
    /// The number of the first bad word, counted from 1. If the line ends too early, this is one more than its words.
    pub word: usize,
    /// What may stand there.
    pub expected: Expected,
}

/// Returns the first fault of a line, or `None` if the line is a request or a row.
///
/// `text` is the line without its line feed and without a carriage return at its end. A word with a line feed is bad.
///
/// # Examples
///
/// ```
/// use line_faults::{Expected, line_fault};
///
/// let fault = line_fault(b"span iso gregorain days none none from to")?;
/// assert!(rt; fault.word == 3);
/// assert!(rt; fault.expected == Expected::Shown);
/// ```
pub fn line_fault(text: &[u8]) -> Option<LineFault>
    ensures { result ≡ first_fault (words_of text.now) }
{
    let mut words = Words::new(text);
    let mut fields = DateFields::default();
    let mut expected = Expected::First;
    let mut count = 0usize;
    'words: loop {
        let Some(word) = words.next() else {
            break;
        };
        count += 1;
        match step(expected, &mut fields, word) {
            Some(next) => expected = next,
            None => {
                return Some(LineFault {
                    word: count,
                    expected,
                });
            }
        }
    }
    if may_end(expected) {
        None
    } else {
        Some(LineFault {
            word: count + 1,
            expected,
        })
    }
}

/// Returns the word of a line after so many others, or `None` if there are no more.
pub fn word_after(text: &[u8], others: usize) -> Option<&[u8]>
    ensures { option_map (λ word. word.now) result ≡ first_of (drop others (words_of text.now)) }
{
    let mut words = Words::new(text);
    let mut left = others;
    'words: loop {
        let Some(word) = words.next() else {
            return None;
        };
        if left == 0 {
            return Some(word);
        }
        left -= 1;
    }
}
