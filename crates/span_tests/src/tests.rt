//! Known sums and differences, that lead back, and the first fault of two bags.

mod differences;
mod spans;
mod sums;
