//! China and Korea.

/// The calendar of China or of Korea.
#[derive(Clone, Copy, PartialEq, Eq, Debug)]
pub enum Side {
    /// China: from 1912 on, years are computed at 8 hours from Greenwich.
    China,
    /// Korea: from 1912 on, years are computed at 9 hours from Greenwich.
    Korea,
}
