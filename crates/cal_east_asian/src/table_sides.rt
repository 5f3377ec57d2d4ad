//! China and Korea as type parameters.

ghost use Rattle.std.specs.Prelude.{◌≡◌, ℕ, List};
ghost use Rattle.cal_errors.specs.declared.algorithm.CalendarAlgorithm.{CalendarAlgorithm};
ghost use Rattle.cal_east_asian.specs.declared.sides.Side.{Side};

use crate::sides::Side;
use cal_base::scaffold::UnstableSealed;
use cal_types::CalendarAlgorithm;
use std::fmt::Debug;

/// A side as a type parameter: [`OfChina`] or [`OfKorea`].
pub trait TableSide: Copy + Debug + UnstableSealed + Drop {
    /// The side.
    ghost side: { Side };

    /// The algorithm of the calendar.
    ghost algorithm: { CalendarAlgorithm };

    /// The name of the calendar in English.
    ghost name: { List ℕ };

    /// Returns the side.
    fn side() -> Side
        ensures { result ≡ side };

    /// Returns the algorithm of the calendar (CLDR, UTS 35).
    fn calendar_algorithm() -> CalendarAlgorithm
        ensures { result ≡ algorithm };

    /// Returns the name of the calendar in English, for messages to programmers.
    fn debug_name() -> &'static str
        ensures { result.now ≡ name };
}

/// China as a type parameter.
#[derive(Clone, Copy, Debug)]
pub struct OfChina;

/// Korea as a type parameter.
#[derive(Clone, Copy, Debug)]
pub struct OfKorea;

impl UnstableSealed for OfChina {}

impl UnstableSealed for OfKorea {}

impl TableSide for OfChina {
    ghost use Rattle.std.specs.Prelude.{codes};
    ghost use Rattle.cal_errors.specs.declared.algorithm.CalendarAlgorithm.TheVariants as algorithms;
    ghost use Rattle.cal_east_asian.specs.declared.sides.Side.TheVariants as sides;

    ghost side = { sides.China };

    ghost algorithm = { algorithms.Chinese };

    ghost name = { codes "Chinese" };

    fn side() -> Side {
        Side::China
    }

    fn calendar_algorithm() -> CalendarAlgorithm {
        CalendarAlgorithm::Chinese
    }

    fn debug_name() -> &'static str {
        "Chinese"
    }
}

impl TableSide for OfKorea {
    ghost use Rattle.std.specs.Prelude.{codes};
    ghost use Rattle.cal_errors.specs.declared.algorithm.CalendarAlgorithm.TheVariants as algorithms;
    ghost use Rattle.cal_east_asian.specs.declared.sides.Side.TheVariants as sides;

    ghost side = { sides.Korea };

    ghost algorithm = { algorithms.Dangi };

    ghost name = { codes "Korean" };

    fn side() -> Side {
        Side::Korea
    }

    fn calendar_algorithm() -> CalendarAlgorithm {
        CalendarAlgorithm::Dangi
    }

    fn debug_name() -> &'static str {
        "Korean"
    }
}
