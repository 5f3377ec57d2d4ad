//! The direction in which a duration counts.

ghost use Rattle.std.specs.Prelude.{◌≡◌};
ghost use Rattle.cal_arith.specs.Directions.{is_backward};

/// The direction in which a duration counts.
#[derive(Clone, Copy, PartialEq, Eq)]
pub(crate) enum Direction {
    /// To later days.
    Forward,
    /// To earlier days.
    Backward,
}

impl Direction {
    /// Returns [`Direction::Backward`] for a negative duration, else [`Direction::Forward`].
    pub(crate) fn from_sign(is_negative: bool) -> Self
        ensures { is_backward result ≡ is_negative }
    {
        if is_negative {
            Direction::Backward
        } else {
            Direction::Forward
        }
    }

    /// Returns whether a duration that counts in this direction is negative.
    pub(crate) fn is_backward(self) -> bool
        ensures { result ≡ is_backward self }
    {
        match self {
            Direction::Forward => false,
            Direction::Backward => true,
        }
    }
}
