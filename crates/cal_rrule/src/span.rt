//! Days in a row for which bits are made.

ghost use Rattle.std.specs.Prelude.{neg_ℤ, pos, ◌+ℤ◌, ◌≤ℤ◌};

/// The days from one up to another, which isn't one of them: at most 448, within 9,500 days of the valid days.
#[derive(Clone, Copy)]
pub(crate) struct Span {
    pub from: i64,
    pub to: i64,
    ghost low: { (neg_ℤ (pos 365252000)) ≤ℤ from },
    ghost high: { to ≤ℤ (pos 365252000) },
    ghost order: { from ≤ℤ to },
    ghost few: { to ≤ℤ (from +ℤ pos 448) },
}
