//! Writing a text of any length in pieces, with about one write for each full buffer.
ghost use Rattle.std.specs.Prelude.{◌≡◌, ◌+◌, ◌≤◌, ◌++◌, [], ℕ, List, Option, Some, length, IsOk, OnOk};
ghost use Rattle.std.specs.Iterator.{AlwaysYields, DrainsIf, IsFinite};
ghost use Rattle.arrayvec.specs.ArrayVec.{array_vec_len};
ghost use Rattle.byte_io.specs.Faults.{HasCause};
ghost use Rattle.calspan_run.specs.TextSoFar.{TextSoFar, Pushed, lines_text};
ghost use Rattle.calspan_run.specs.Written.{Wrote};

use byte_io::{Failed, Sink};
use reply_texts::{Pending, push_all};

/// Writes each item of a list as a line.
pub trait ItemLines {
    /// An item of the list.
    type Item;

    /// The condition on an item.
    ghost is_shown: { Self → Self.Item → Type 0 };

    /// The line of an item.
    ghost line_of: { Self → Self.Item → List ℕ };

    /// Appends the line of an item, at most 512 bytes.
    fn push_line(&self, text: &mut Pending, item: Self::Item)
        requires room { array_vec_len text.old + 512 ≤ 8192 }
        requires shown { is_shown self.now item }
        ensures { text.new.items ≡ text.old.items ++ line_of self.now item };
}

/// Writes all of a text, in as many pieces as the sink takes.
///
/// # Errors
///
/// - [`Failed`] if the sink counted a fault. A prefix of the text is written.
pub fn write_all<K: Sink>(text: &[u8], sink: &mut K) -> Result<(), Failed>
    ensures wrote { Wrote result (K.taken sink.old) (K.taken sink.new) text.now }
    ensures cause { HasCause (K.faults sink.old) (K.faults sink.new) result }
{
    let mut at = 0;
    while at < text.len() {
        at += sink.write(&text[at..])?;
    }
    Ok(())
}

/// Writes the pending text.
///
/// # Errors
///
/// - [`Failed`] if the sink counted a fault. A prefix of the text is written.
pub fn flush<K: Sink>(pending: &mut Pending, sink: &mut K) -> Result<(), Failed>
    ensures text { (before : Option (List ℕ)) (text : List ℕ)
        → TextSoFar before (K.taken sink.old) pending.old.items text
        → Pushed result before (K.taken sink.new) pending.new.items text }
    ensures none { OnOk result (pending.new.items ≡ []) }
    ensures cause { HasCause (K.faults sink.old) (K.faults sink.new) result }
{
    write_all(pending, sink)?;
    pending.clear();
    Ok(())
}

/// Writes the pending text if there might be no room for a line of 512 bytes.
///
/// # Errors
///
/// - [`Failed`] if the sink counted a fault. A prefix of the text is written.
pub fn make_room<K: Sink>(pending: &mut Pending, sink: &mut K) -> Result<(), Failed>
    ensures text { (before : Option (List ℕ)) (text : List ℕ)
        → TextSoFar before (K.taken sink.old) pending.old.items text
        → Pushed result before (K.taken sink.new) pending.new.items text }
    ensures room { OnOk result (array_vec_len pending.new + 512 ≤ 8192) }
    ensures cause { HasCause (K.faults sink.old) (K.faults sink.new) result }
{
    if pending.remaining_capacity() >= 512 {
        return Ok(());
    }
    flush(pending, sink)
}

/// Writes the pending text, then appends a piece that didn't fit after it.
fn push_past<K: Sink>(pending: &mut Pending, piece: &[u8], sink: &mut K) -> Result<(), Failed>
    ensures text { (before : Option (List ℕ)) (text : List ℕ)
        → TextSoFar before (K.taken sink.old) pending.old.items text
        → Pushed result before (K.taken sink.new) pending.new.items (text ++ piece.now) }
    ensures cause { HasCause (K.faults sink.old) (K.faults sink.new) result }
{
    flush(pending, sink)?;
    if piece.len() > pending.remaining_capacity() {
        return write_all(piece, sink);
    }
    push_all(pending, piece);
    Ok(())
}

/// Appends a piece of any length. Writes the pending text first if the piece doesn't fit after it.
///
/// # Errors
///
/// - [`Failed`] if the sink counted a fault. A prefix of the text with the piece is written.
pub fn push<K: Sink>(pending: &mut Pending, piece: &[u8], sink: &mut K) -> Result<(), Failed>
    ensures text { (before : Option (List ℕ)) (text : List ℕ)
        → TextSoFar before (K.taken sink.old) pending.old.items text
        → Pushed result before (K.taken sink.new) pending.new.items (text ++ piece.now) }
    ensures cause { HasCause (K.faults sink.old) (K.faults sink.new) result }
{
    if piece.len() > pending.remaining_capacity() {
        return push_past(pending, piece, sink);
    }
    push_all(pending, piece);
    Ok(())
}

/// Appends a line for each item of a list.
///
/// # Errors
///
/// - [`Failed`] if the sink counted a fault. A prefix of the text with the lines is written.
pub fn push_lines<L: ItemLines, I: Iterator<Item = L::Item> + Drop, K: Sink>(
    items: I,
    lines: &L,
    pending: &mut Pending,
    sink: &mut K,
) -> Result<(), Failed>
where
    L::Item: Drop,
    requires can { I.can_next items }
    requires ends { IsFinite (I.remaining items) }
    requires shown { (s t : I) (x : L.Item) → I.next_gives s (Some x) t → L.is_shown lines.now x }
    ensures text { (all : List L.Item) (before : Option (List ℕ)) (text : List ℕ)
        → AlwaysYields I.next_gives (λ x. x) items all → TextSoFar before (K.taken sink.old) pending.old.items text
        → Pushed result before (K.taken sink.new) pending.new.items (text ++ lines_text (L.line_of lines.now) all) }
    ensures given { (given : List L.Item) × DrainsIf I.next_gives (IsOk result) items given
        × ((before : Option (List ℕ)) (text : List ℕ) → TextSoFar before (K.taken sink.old) pending.old.items text
        → Pushed result before (K.taken sink.new) pending.new.items (text ++ lines_text (L.line_of lines.now) given)) }
    ensures cause { HasCause (K.faults sink.old) (K.faults sink.new) result }
{
    for item in items {
        make_room(pending, sink)?;
        lines.push_line(pending, item);
    }
    Ok(())
}

/// Writes a line for each item of a list.
///
/// # Errors
///
/// - [`Failed`] if the sink counted a fault. A prefix of the lines is written.
pub fn write_lines<L: ItemLines, I: Iterator<Item = L::Item> + Drop, K: Sink>(
    items: I,
    lines: &L,
    sink: &mut K,
) -> Result<(), Failed>
where
    L::Item: Drop,
    requires can { I.can_next items }
    requires ends { IsFinite (I.remaining items) }
    requires shown { (s t : I) (x : L.Item) → I.next_gives s (Some x) t → L.is_shown lines.now x }
    ensures wrote { (all : List L.Item) → AlwaysYields I.next_gives (λ x. x) items all
        → Wrote result (K.taken sink.old) (K.taken sink.new) (lines_text (L.line_of lines.now) all) }
    ensures given { (given : List L.Item) × DrainsIf I.next_gives (IsOk result) items given
        × Wrote result (K.taken sink.old) (K.taken sink.new) (lines_text (L.line_of lines.now) given) }
    ensures cause { HasCause (K.faults sink.old) (K.faults sink.new) result }
{
    let mut pending = Pending::new();
    push_lines(items, lines, &mut pending, sink)?;
    flush(&mut pending, sink)
}
