//! Books, invalid records, and the holidays in windows.

mod books;
mod equality;
mod lists;
mod refusals;

use cal_days::RataDie;
use cal_types::Window;
use std::process::Abort;

/// A book with rules of every kind.
const FOUR: &[u8] =
    b"easter,Easter,gregorian,,0,\neaster,Pascha,julian,,0,\nweekday,Thanksgiving,gregorian,M11,4,thursday\nfixed,Purim,hebrew,M06,14,constrain\n";

/// Creates the window from one day to another.
fn window_of(rt: &impl Abort, first: i64, last: i64) -> Window {
    assert!(rt; -365242499 <= first && first <= 365242134);
    assert!(rt; -365242499 <= last && last <= 365242134);
    let found = Window::try_new(RataDie::new(first), RataDie::new(last));
    assert!(rt; found.is_some());
    match found {
        Some(window) => window,
        None => unreachable!(),
    }
}
