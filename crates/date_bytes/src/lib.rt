//! Packs dates into four to seven bytes. The last four bytes store the year, the ordinal month and the day. The bytes
//! before them store what a calendar keeps about its year.
//!
//! `pack` returns exactly the bytes of the definitions, and unpacking returns what was packed. Any bytes can be
//! unpacked: month lengths, a leap month, a length or a start that no year has are read as values that a year may
//! have.
#![tactic(auto)]

pub mod east_asian;
pub mod hebrew;
pub mod hijri;
pub mod solar;
