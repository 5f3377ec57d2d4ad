//! The types for your own rules of a Hijri calendar. [`Hijri`](crate::Hijri) makes a calendar of them.
//!
//! [`UmmAlQura`](crate::UmmAlQura) and [`AstronomicalSimulation`](crate::AstronomicalSimulation) are [`TableRules`],
//! each with its [`TablePurpose`]. A function over any `P: TablePurpose` serves both.

pub use cal_hijri::{HijriYear, Rules, TablePurpose, TableRules};
