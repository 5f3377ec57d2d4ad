//! The line about a malformed line.
ghost use Rattle.std.specs.Prelude.{◌≡◌, ◌+◌, ◌≤◌, ◌++◌, ◌∷◌, ℕ, List, Option, codes};
ghost use Rattle.std.specs.Fmt.{decimal};
ghost use Rattle.std.specs.Str.Lines.{strip_carriage_return};
ghost use Rattle.arrayvec.specs.ArrayVec.{array_vec_len};
ghost use Rattle.byte_io.specs.Buffer.{Holds};
ghost use Rattle.byte_io.specs.Faults.{HasCause};
ghost use Rattle.request_lines.specs.Words.{words_of};
ghost use Rattle.calspan_run.specs.Converting.{AnsweredLine};
ghost use Rattle.calspan_run.specs.Explained.{allowed_ending, ending_of, explained_line, fault_ending, fault_explained, fault_text, long_text, place_text, standing, word_bytes};
ghost use Rattle.calspan_run.specs.TextSoFar.{TextSoFar, Pushed};

use crate::writer::{make_room, push};
use byte_io::{Failed, LineBuffer, Sink};
use line_faults::{Expected, word_after};
use reply_texts::{Pending, push_all, push_number};
use request_lines::{is_silent, line_kind};
use row_faults::{Allowed, Fault, Stage, fault_behind};

/// Returns the end of the line about a malformed word: what may stand there.
pub(crate) fn ending(at: Expected) -> &'static [u8]
    ensures { result.now ≡ ending_of at }
{
    match at {
        Expected::First => b": span or row\n",
        Expected::Calendar => {
            b": a calendar: iso, gregorian, julian, buddhist, roc, japanese, chinese, dangi, hebrew, \
            islamic-umalqura, islamic-civil, islamic-tbla, islamic-type1-friday, islamic-type1-thursday, islamic-simulated, \
            persian, indian, coptic, ethiopic or ethioaa\n"
        }
        Expected::Shown => {
            b": a calendar: iso, gregorian, julian, buddhist, roc, japanese, chinese, dangi, hebrew, \
            islamic-umalqura, islamic-civil, islamic-tbla, islamic-type1-friday, islamic-type1-thursday, islamic-simulated, \
            persian, indian, coptic, ethiopic or ethioaa\n"
        }
        Expected::Unit => b": years, months, weeks, days or none\n",
        Expected::Overflow => b": constrain, reject or none\n",
        Expected::MissingFields => b": reject, ecma or none\n",
        Expected::From => b": from\n",
        Expected::FieldOrTo => {
            b": to, or a new field: era=BYTES, era-year=INT, year=INT, month=CODE, \
            month-code=BYTES, ordinal=BYTE or day=BYTE\n"
        }
        Expected::Field => {
            b": a new field: era=BYTES, era-year=INT, year=INT, month=CODE, \
            month-code=BYTES, ordinal=BYTE or day=BYTE\n"
        }
        Expected::Table => b": china, korea, hijri, persian or era\n",
        Expected::LunisolarYear => b": YEAR, an optional - and 1 to 9 digits\n",
        Expected::LunisolarStart => b": START, an optional - and 1 to 9 digits\n",
        Expected::LunisolarLengths => b": LENGTHS, 12 or 13 letters l and s\n",
        Expected::NoLeapMonth => b": LEAP, 0 after 12 lengths\n",
        Expected::LeapMonth => b": LEAP, 1 to 255 after 13 lengths\n",
        Expected::HijriYear => b": YEAR, an optional - and 1 to 9 digits\n",
        Expected::HijriStart => b": START, an optional - and 1 to 9 digits\n",
        Expected::HijriLengths => b": LENGTHS, 12 letters l and s\n",
        Expected::PersianYear => b": YEAR, an optional - and 1 to 9 digits\n",
        Expected::EraYear => b": YEAR, an optional - and 1 to 9 digits\n",
        Expected::EraMonth => b": MONTH, 1 to 3 digits up to 255\n",
        Expected::EraDay => b": DAY, 1 to 3 digits up to 255\n",
        Expected::EraCode => b": CODE, 1 to 8 letters a to z\n",
        Expected::EraIndex => b": INDEX, 1 to 3 digits up to 255\n",
        Expected::End => b": the end of the line\n",
    }
}

/// Returns the end of the line about a word that its form allows: what may stand in its place.
fn allowed_ending(allowed: Allowed) -> &'static [u8]
    ensures { result.now ≡ allowed_ending allowed }
{
    match allowed {
        Allowed::Span => b": span\n",
        Allowed::SpanForRow => b": span, since rows come before the first request\n",
        Allowed::YearTable =>
            b": china, korea, hijri or persian, since an earlier row has an era\n",
        Allowed::RuleYear => b": YEAR, -8000000 to 8000000\n",
        Allowed::LunisolarStart => b": START, 0 to 34 days after January 19 of the year\n",
        Allowed::HijriStart => b": START, at most 5 days from the start of the mean year\n",
        Allowed::LeapMonth => b": LEAP, 2 to 13 after 13 lengths\n",
        Allowed::EraYear => b": YEAR, up to 2089\n",
        Allowed::EraMonth => b": MONTH, 1 to 15\n",
        Allowed::EraDay => b": DAY, 1 to 31\n",
        Allowed::EraIndex => b": INDEX, 7 or 8\n",
    }
}

/// Returns the end of the line about a fault: what may stand there.
fn fault_ending(fault: Fault) -> &'static [u8]
    ensures { result.now ≡ fault_ending fault }
{
    match fault {
        Fault::Malformed(fault) => ending(fault.expected),
        Fault::Misplaced(allowed) => allowed_ending(allowed),
    }
}

/// Returns a line without the one carriage return at its end.
fn without_return(line: &[u8]) -> &[u8]
    ensures { result.now ≡ strip_carriage_return line.now }
{
    match line.split_last() {
        Some((b'\r', rest)) => rest,
        _ => line,
    }
}

/// Appends the number of a line.
fn push_line_number(text: &mut Pending, number: u64)
    requires { array_vec_len text.old + 30 ≤ 8192 }
    ensures items { text.new.items ≡ text.old.items ++ (codes "line " ++ decimal number) }
    ensures len { array_vec_len text.new ≤ array_vec_len text.old + 30 }
{
    push_all(text, b"line ");
    push_number(text, number);
}

/// Appends the number of a word.
fn push_word_number(text: &mut Pending, word: usize)
    requires { array_vec_len text.old + 30 ≤ 8192 }
    ensures items { text.new.items ≡ text.old.items ++ (codes " word " ++ decimal word) }
    ensures len { array_vec_len text.new ≤ array_vec_len text.old + 30 }
{
    push_all(text, b" word ");
    push_number(text, word as u64);
}

/// Appends the numbers of a line and of a word.
fn push_place(text: &mut Pending, number: u64, word: usize)
    requires { array_vec_len text.old + 60 ≤ 8192 }
    ensures items { text.new.items ≡ text.old.items ++ place_text number word }
    ensures len { array_vec_len text.new ≤ array_vec_len text.old + 60 }
{
    push_line_number(text, number);
    push_word_number(text, word);
}

/// Appends the line about a line of more than 512 bytes.
fn push_long(text: &mut Pending, number: u64)
    requires { array_vec_len text.old + 60 ≤ 8192 }
    ensures { text.new.items ≡ text.old.items ++ long_text number }
{
    push_line_number(text, number);
    push_all(text, b": at most 512 bytes\n");
}

/// Appends the place of a bad word, and the word.
fn push_word<K: Sink>(
    number: u64,
    at: usize,
    word: &[u8],
    pending: &mut Pending,
    sink: &mut K,
) -> Result<(), Failed>
    requires { array_vec_len pending.old + 512 ≤ 8192 }
    ensures text { (before : Option (List ℕ)) (text : List ℕ)
        → TextSoFar before (K.taken sink.old) pending.old.items text
        → Pushed result before (K.taken sink.new) pending.new.items (text ++ (place_text number at ++ 32 ∷ word.now)) }
    ensures cause { HasCause (K.faults sink.old) (K.faults sink.new) result }
{
    push_place(pending, number, at);
    pending.push(b' ');
    push(pending, word, sink)
}

/// Appends the place of a bad word, and the word, if there is one.
fn push_standing<K: Sink>(
    number: u64,
    at: usize,
    word: Option<&[u8]>,
    pending: &mut Pending,
    sink: &mut K,
) -> Result<(), Failed>
    requires { array_vec_len pending.old + 512 ≤ 8192 }
    ensures text { (before : Option (List ℕ)) (text : List ℕ)
        → TextSoFar before (K.taken sink.old) pending.old.items text
        → Pushed result before (K.taken sink.new) pending.new.items
        (text ++ (place_text number at ++ standing (word_bytes word.entry))) }
    ensures cause { HasCause (K.faults sink.old) (K.faults sink.new) result }
{
    match word {
        Some(word) => push_word(number, at, word, pending, sink),
        None => {
            push_place(pending, number, at);
            Ok(())
        }
    }
}

/// Appends the line about a fault.
fn explain_fault<K: Sink>(
    number: u64,
    fault: Fault,
    word: Option<&[u8]>,
    pending: &mut Pending,
    sink: &mut K,
) -> Result<(), Failed>
    requires { array_vec_len pending.old + 512 ≤ 8192 }
    ensures text { (before : Option (List ℕ)) (text : List ℕ)
        → TextSoFar before (K.taken sink.old) pending.old.items text
        → Pushed result before (K.taken sink.new) pending.new.items
        (text ++ fault_text number fault (word_bytes word.entry)) }
    ensures cause { HasCause (K.faults sink.old) (K.faults sink.new) result }
{
    push_standing(number, fault.word(), word, pending, sink)?;
    push(pending, fault_ending(fault), sink)
}

/// Appends the line about the fault of a line, if it has one. Returns whether it has.
fn explain_text<K: Sink>(
    number: u64,
    text: &[u8],
    fault: Option<Fault>,
    pending: &mut Pending,
    sink: &mut K,
) -> Result<bool, Failed>
    requires { array_vec_len pending.old + 512 ≤ 8192 }
    ensures answered { (before : Option (List ℕ)) (so_far : List ℕ)
        → TextSoFar before (K.taken sink.old) pending.old.items so_far
        → AnsweredLine result before (K.taken sink.new) pending.new.items so_far
        (fault_explained number (words_of text.now) fault) }
    ensures cause { HasCause (K.faults sink.old) (K.faults sink.new) result }
{
    match fault {
        Some(fault) => {
            let word = word_after(text, fault.word().saturating_sub(1));
            explain_fault(number, fault, word, pending, sink)?;
            Ok(true)
        }
        None => Ok(false),
    }
}

/// Appends the line about a line, if it has a fault behind the lines before it. Writes the pending text first if there
/// might be no room. Returns whether the line has a fault.
///
/// # Errors
///
/// - [`Failed`] if the sink counted a fault. A prefix of the text with this line is written.
pub(crate) fn explain_line<K: Sink>(
    stage: Stage,
    number: u64,
    line: &LineBuffer,
    pending: &mut Pending,
    sink: &mut K,
) -> Result<bool, Failed>
    ensures answered { (before : Option (List ℕ)) (text whole : List ℕ) → Holds line.now whole
        → TextSoFar before (K.taken sink.old) pending.old.items text
        → AnsweredLine result before (K.taken sink.new) pending.new.items text (explained_line stage number whole) }
    ensures cause { HasCause (K.faults sink.old) (K.faults sink.new) result }
{
    make_room(pending, sink)?;
    if is_silent(line) {
        return Ok(false);
    }
    if line.over {
        push_long(pending, number);
        return Ok(true);
    }
    let text = without_return(&line.prefix);
    let fault = fault_behind(stage, line_kind(line), text);
    explain_text(number, text, fault, pending, sink)
}
