//! An iterator over the days that rules name.

ghost use Rattle.std.specs.Prelude.{◌≡◌, Some, ⊤, option_map};

use crate::first::{First, PLACES, earliest, first_of_place};
use crate::rest::Rest;
use crate::rules::NumberedRules;
use cal_days::RataDie;

/// A holiday: a day and the number of the rule that names it.
#[derive(Clone, Copy, Debug, PartialEq, Eq)]
pub struct Holiday {
    /// The day number (rata die).
    pub day: RataDie,
    /// The number of the rule, from 0, as in [`Book::rule`](crate::Book::rule) and [`Book::name`](crate::Book::name).
    pub rule: usize,
}

ghost use Rattle.cal_holidays.specs.Kept.{AreFirsts, AreKept};

/// An iterator over the days that rules name, in order, and on one day by the number of the rule.
///
/// Rules whose numbers differ by a multiple of 64 share a place, and the first day of each place is kept. To return
/// an item, the iterator looks at 64 days, and then searches for the next day of each rule of the item's place.
#[derive(Drop)]
pub struct Merged<R: NumberedRules> {
    rules: R,
    rest: Option<Rest>,
    firsts: [Option<First>; 64],
    ghost kept: { AreKept (R.names rules) (R.count_of rules) rest firsts },
}

/// Returns the first day of each place.
fn firsts_of<R: NumberedRules>(rules: &R, rest: Rest) -> [Option<First>; 64]
    ensures { AreFirsts (R.names rules.now) (R.count_of rules.now) rest result 64 }
{
    let mut firsts = [None; PLACES];
    for place in 0..PLACES {
        firsts[place] = first_of_place(rules, place, rest);
    }
    firsts
}

impl<R: NumberedRules> Merged<R> {
    ghost use Rattle.cal_holidays.specs.Found.{pair_of, stretch_of};
    ghost use Rattle.cal_holidays.specs.Merging.{IsAny, IsFirst, behind};

    /// Creates an iterator over the days of a window that rules name, without the rules before `rest.first_rule` on the
    /// window's first day.
    pub fn new(rules: R, rest: Rest) -> Merged<R>
        ensures rules { result.rules ≡ rules }
        ensures rest { result.rest ≡ Some rest }
    {
        let firsts = firsts_of(&rules, rest);
        Merged {
            rules,
            rest: Some(rest),
            firsts,
        }
    }

    /// Moves past the first item of the rest of the list.
    fn go_behind(&mut self, rest: Rest, first: First)
        requires left { self.old.rest ≡ Some rest }
        requires first { let names = R.names self.old.rules in let count = R.count_of self.old.rules in
            IsFirst names count IsAny (stretch_of rest) (Some (pair_of first)) }
        ensures rest { let count = R.count_of self.new.rules in
            option_map stretch_of self.new.rest ≡ behind count (stretch_of rest) first.day first.rule }
        ensures rules { self.new.rules ≡ self.old.rules }
    {
        self.rest = rest.behind(first.day, first.rule, self.rules.count());
        if let Some(left) = self.rest {
            self.firsts[first.rule % PLACES] = first_of_place(
                &self.rules,
                first.rule % PLACES,
                left,
            );
        }
    }

    /// Returns the rest of the list: before the first item, the window and first rule that were passed in.
    ///
    /// After a holiday it is the window from the holiday's day and the next rule's number. After the last rule it is
    /// the window from the next day, and rule 0. `None` exactly if the last holiday was on the window's last day and
    /// of the last rule, or if `next` has returned `None`.
    ///
    /// # Examples
    ///
    /// ```
    /// let book = Book::try_read(alloc, b"weekday,Thanksgiving,gregorian,M11,4,thursday").ok()?;
    /// let year = Window::try_new(RataDie::new(738886), RataDie::new(739251))?;
    /// let mut days = holidays(&book, Tables::none(), year, 0);
    /// assert!(rt; days.next()?.day.to_i64_date() == 739218); // 2024-11-28
    /// assert!(rt; days.rest()?.window.first().to_i64_date() == 739219);
    /// ```
    pub fn rest(&self) -> Option<Rest>
        ensures { result ≡ self.now.rest }
    {
        self.rest
    }
}

impl<R: NumberedRules> Iterator for Merged<R> {
    ghost use Rattle.std.specs.Iterator.{YieldsFirstBy, item_count, MakesProgress};
    ghost use Rattle.cal_holidays.specs.Listing.{IsRest, left_of, pair_given};

    type Item = Holiday;

    ghost next_gives = { YieldsFirstBy pair_given (λ a. left_of (R.names a.rules) (R.count_of a.rules) a.rest) };

    ghost remaining = { item_count (λ a. left_of (R.names a.rules) (R.count_of a.rules) a.rest) };

    fn next(&mut self) -> Option<Holiday>
        ensures steps { YieldsFirstBy pair_given (λ a. left_of (R.names a.rules) (R.count_of a.rules) a.rest)
            self.old result self.new }
        ensures goes { MakesProgress (λ _. ⊤)
            (item_count (λ a. left_of (R.names a.rules) (R.count_of a.rules) a.rest)) self.old result self.new }
        ensures rest { IsRest (R.count_of self.old.rules) self.old.rest result self.new.rest }
        ensures rules { self.new.rules ≡ self.old.rules }
    {
        let rest = self.rest?;
        let Some(first) = earliest(&self.firsts) else {
            self.rest = None;
            return None;
        };
        self.go_behind(rest, first);
        Some(Holiday {
            day: RataDie::new(first.day),
            rule: first.rule,
        })
    }
}
