//! Comparison of the rows of two tables.

ghost use Rattle.std.specs.Prelude.{◌≡◌, MatchOption, slice_get};
ghost use Rattle.cal_types.specs.Lengthening.{BeginWith, IsFirstDifference, is_like, stands_in};

/// A row of a table.
pub trait Row: Copy {
    ghost use Rattle.std.specs.Prelude.{Bool};

    /// Whether two rows are equal.
    ghost equal: { Self → Self → Bool };

    /// Returns `true` if another row is equal to this one.
    fn is_equal_row(self, other: Self) -> bool
        ensures { result ≡ equal self other };
}

/// Returns the number, from 1, of the first row in `old` that has no equal row at the same index of `rows`. Returns
/// `None` exactly if `rows` begin with `old`.
pub fn first_difference<Y: Row>(old: &[Y], rows: &[Y]) -> Option<usize>
    ensures { MatchOption result (BeginWith Y.equal old.now rows.now) (IsFirstDifference Y.equal old.now rows.now) }
{
    for (index, row) in old.iter().enumerate() {
        if !has_row(rows, index, *row) {
            return Some(index + 1);
        }
    }
    None
}

/// Returns whether rows have an equal row at an index.
fn has_row<Y: Row>(rows: &[Y], index: usize, row: Y) -> bool
    ensures { result ≡ stands_in Y.equal rows.now index row }
{
    is_like(row_at(rows, index), row)
}

/// Returns whether a row exists and is equal to another.
fn is_like<Y: Row>(there: Option<Y>, row: Y) -> bool
    ensures { result ≡ is_like Y.equal there row }
{
    match there {
        Some(there) => row.is_equal_row(there),
        None => false,
    }
}

/// Returns the row at an index, if there is one.
fn row_at<Y: Copy>(rows: &[Y], index: usize) -> Option<Y>
    ensures { result ≡ slice_get rows.now index }
{
    rows.get(index).copied()
}
