//! The field of a record that says by how many days its day moves.

ghost use Rattle.std.specs.Prelude.{◌≡◌, ◌<◌, ◌∷◌, ◌==◌, option_map, position, length, true, IfSome};
ghost use Rattle.cal_types.specs.Weekday.{days_since_sunday};
ghost use Rattle.cal_holidays.specs.Observing.{are_proper_moves, is_move};
ghost use Rattle.cal_holidays.specs.RecordMoves.{days_read, move_read, moves_of_words, moves_read, words_from, words_of};

use crate::moves::Moves;
use crate::record_words::weekday;
use cal_types::Weekday;
use word_values::read_number;

/// Returns the index of the first space.
fn first_space(text: &[u8]) -> Option<usize>
    ensures value { result ≡ position (λ b. b == 32) text.now }
    ensures within { IfSome result (λ i. i < length text.now) }
{
    text.iter().position(|byte| *byte == b' ')
}

/// Returns the first of some words that spaces join, and the others if there are any.
fn cut(text: &[u8]) -> (&[u8], Option<&[u8]>)
    ensures { words_of text.now ≡ result.0.now ∷ words_from result.1 }
{
    match first_space(text) {
        Some(i) => (&text[..i], Some(&text[i + 1..])),
        None => (text, None),
    }
}

/// Reads a number of days: a `+` or a `-`, and a digit up to 6.
fn days(text: &[u8]) -> Option<i8>
    ensures value { result ≡ days_read text.now }
    ensures range { IfSome result (λ days. is_move (Some days) ≡ true) }
{
    if text.is_empty() {
        return None;
    }
    let size = read_number(&text[1..], 1)?;
    if size > 6 {
        return None;
    }
    match text[0] {
        b'+' => Some(size as i8),
        b'-' => Some(-(size as i8)),
        _ => None,
    }
}

/// Reads a weekday and a number of days, such as `saturday-1`.
fn read_move(word: &[u8]) -> Option<(Weekday, i8)>
    ensures value { result ≡ move_read word.now }
    ensures range { IfSome result (λ move. is_move (Some move.1) ≡ true) }
{
    let (name, number) = word.split_at(word.len().saturating_sub(2));
    let day = weekday(name)?;
    let days = days(number)?;
    Some((day, days))
}

/// Returns how many days a weekday lies after Sunday.
fn place_of(day: Weekday) -> usize
    ensures value { result ≡ days_since_sunday day }
    ensures bound { result < 7 }
{
    match day {
        Weekday::Sunday => 0,
        Weekday::Monday => 1,
        Weekday::Tuesday => 2,
        Weekday::Wednesday => 3,
        Weekday::Thursday => 4,
        Weekday::Friday => 5,
        Weekday::Saturday => 6,
    }
}

/// Reads the moves of words that spaces join. Each weekday moves at most once.
fn read_moves(text: &[u8]) -> Option<Moves>
    ensures value { option_map (λ m. m.days) result ≡ moves_of_words (words_of text.now) }
    ensures range { IfSome result (λ m. are_proper_moves m.days ≡ true) }
{
    let mut days = [None; 7];
    let mut rest = Some(text);
    'words: while let Some(left) = rest {
        let (word, others) = cut(left);
        let (day, by) = read_move(word)?;
        let place = place_of(day);
        if days[place].is_some() {
            return None;
        }
        days[place] = Some(by);
        rest = others;
    }
    Some(Moves { days })
}

/// Reads the moves of words that spaces join, or no move from an empty text.
pub(crate) fn moves(text: &[u8]) -> Option<Moves>
    ensures value { option_map (λ m. m.days) result ≡ moves_read text.now }
    ensures range { IfSome result (λ m. are_proper_moves m.days ≡ true) }
{
    if text.is_empty() {
        return Some(Moves { days: [None; 7] });
    }
    read_moves(text)
}
