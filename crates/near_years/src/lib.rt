//! What recurrence rules ask of a calendar holds of every calendar here: fields can name the years of days near the
//! valid ones, months have numbers up to 13, and valid dates lie at most 27040000 months apart.
//!
//! There is no code: `proofs/NearLists` has the lists of years, and `proofs/KindNear` each kind of calendar.
#![tactic(auto)]
