//! Lines for holidays.
ghost use Rattle.std.specs.Prelude.{◌≡◌, ◌+◌, ◌≤◌, ◌++◌};
ghost use Rattle.arrayvec.specs.ArrayVec.{array_vec_len};
ghost use Rattle.cal_days.specs.Day.{IsValidDay};
ghost use Rattle.cal_holidays.specs.Books.{named_rules};
ghost use Rattle.cal_holidays.specs.Listing.{pair_given};
ghost use Rattle.calspan_run.specs.HolidayLines.{holiday_line, name_of};

use crate::writer::ItemLines;
use cal_base::Iso;
use cal_holidays::{Book, Holiday};
use reply_texts::{DayParts, Pending, push_all, push_date, show_in};

/// Appends the name of the rule with a number, at most 64 bytes. Nothing is appended if the book has no rule with
/// this number.
fn push_name(text: &mut Pending, book: &Book, rule: usize)
    requires room { array_vec_len text.old + 64 ≤ 8192 }
    ensures items { text.new.items ≡ text.old.items ++ name_of (named_rules book.now) rule }
    ensures len { array_vec_len text.new ≤ array_vec_len text.old + 64 }
{
    if rule >= book.len() {
        return;
    }
    push_all(text, book.name(rule));
}

/// Writes each holiday as a line: the date in the ISO calendar, and the holiday's name.
#[derive(Clone, Copy)]
pub(crate) struct BookLines<'b> {
    /// The book.
    pub(crate) book: &'b Book,
}

impl<'b> ItemLines for BookLines<'b> {
    type Item = Holiday;

    ghost is_shown = { λ s x. IsValidDay x.day };

    ghost line_of = { λ s x. holiday_line (named_rules s.book.now) (pair_given x) };

    fn push_line(&self, text: &mut Pending, item: Holiday) {
        let mut parts = DayParts::unnamed(item.day);
        show_in(&mut parts, &Iso);
        push_date(text, &parts);
        text.push(b' ');
        push_name(text, self.book, item.rule);
        text.push(b'\n');
    }
}
