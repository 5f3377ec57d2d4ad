//! Texts that are joined by a byte.

ghost use Rattle.std.specs.Prelude.{◌≡◌, ◌<◌, ◌∷◌, ◌==◌, option_map, position, length, IfSome};
ghost use Rattle.cal_rule.specs.Pieces.{pieces_from, pieces_of, halves_of};

/// Returns the index of the first byte of a kind.
fn first_of(text: &[u8], mark: u8) -> Option<usize>
    ensures value { result ≡ position (λ b. b == mark) text.now }
    ensures within { IfSome result (λ i. i < length text.now) }
{
    text.iter().position(|byte| *byte == mark)
}

/// Returns the first of some texts that a byte joins, and the others if there are any.
pub(crate) fn cut(text: &[u8], mark: u8) -> (&[u8], Option<&[u8]>)
    ensures { pieces_of mark text.now ≡ result.0.now ∷ pieces_from mark result.1 }
{
    match first_of(text, mark) {
        Some(i) => (&text[..i], Some(&text[i + 1..])),
        None => (text, None),
    }
}

/// Returns what stands before and behind the first byte of a kind.
pub(crate) fn halves(text: &[u8], mark: u8) -> Option<(&[u8], &[u8])>
    ensures { option_map (λ halves. (halves.0.now, halves.1.now)) result ≡ halves_of mark text.now }
{
    let i = first_of(text, mark)?;
    Some((&text[..i], &text[i + 1..]))
}
