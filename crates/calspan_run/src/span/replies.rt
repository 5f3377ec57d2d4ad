//! The reply to a request.
ghost use Rattle.std.specs.Prelude.{◌≡◌, ◌+◌, ◌≤◌, ◌++◌, List, ℕ};
ghost use Rattle.arrayvec.specs.ArrayVec.{array_vec_len};
ghost use Rattle.cal_types.specs.Bag.{Bag, bag_of};
ghost use Rattle.cal_types.specs.declared.duration.DateDurationUnit.{DateDurationUnit};
ghost use Rattle.cal_types.specs.declared.options.DateFromFieldsOptions.{DateFromFieldsOptions};
ghost use Rattle.cal_types.specs.CalendarSystem.{CalendarSystem};
ghost use Rattle.cal_tables.specs.Kinds.{kind_system, table_contents};
ghost use Rattle.request_lines.specs.Requests.{request_of};
ghost use Rattle.request_lines.specs.RequestSaid.{header_said};
ghost use Rattle.reply_texts.specs.DateParts.{AreNamed, IsDay};
ghost use Rattle.calspan_run.specs.Replies.{SaysSpan, IsReply};

use crate::kinds::{TwoDays, name_dates, show_days};
use cal_kinds::AnyCalendarKind;
use cal_tables::Tables;
use cal_types::DateFields;
use reply_texts::{DayParts, Pending, SpanParts, push_all, push_day, push_duration, push_error};
use request_lines::Header;

/// Appends both dates, the same days in the second calendar, and the difference.
fn push_span(text: &mut Pending, parts: &SpanParts, shown: AnyCalendarKind, tables: &Tables<'_>)
    requires room { array_vec_len text.old + 470 ≤ 8192 }
    requires from { IsDay parts.now.from }
    requires to { IsDay parts.now.to }
    ensures { (c : CalendarSystem) (first second : Bag) (options : DateFromFieldsOptions) (unit : DateDurationUnit)
        → (named : AreNamed c first second options unit parts.now)
        → SaysSpan c (kind_system (table_contents tables.now) shown) named.from_date named.to_date unit
        text.old.items text.new.items }
{
    let mut days = TwoDays {
        from: DayParts::unnamed(parts.from.rata_die),
        to: DayParts::unnamed(parts.to.rata_die),
    };
    show_days(&mut days, shown, tables);
    push_all(text, b"ok ");
    push_day(text, &parts.from, &days.from);
    text.push(b' ');
    push_day(text, &parts.to, &days.to);
    text.push(b' ');
    push_duration(text, &parts.duration);
    text.push(b'\n');
}

/// Appends the reply to a request for two bags of fields, over the tables of the input. Returns whether the reply is
/// `err`.
pub fn reply(
    text: &mut Pending,
    header: &Header,
    from: &DateFields<'_>,
    to: &DateFields<'_>,
    tables: &Tables<'_>,
) -> bool
    requires { array_vec_len text.old + 512 ≤ 8192 }
    ensures { let r = request_of (header_said header.now) (bag_of from.now) (bag_of to.now) in
        let t = table_contents tables.now in
        (answer : List ℕ) × (text.new.items ≡ text.old.items ++ answer)
        × IsReply (kind_system t r.calendar) (kind_system t r.shown) r answer result }
{
    let mut parts = SpanParts::unnamed();
    let (options, difference) = (header.options, header.difference);
    match name_dates(
        &mut parts,
        header.calendar,
        tables,
        from,
        to,
        options,
        difference,
    ) {
        Ok(()) => {
            push_span(text, &parts, header.shown, tables);
            false
        }
        Err(error) => {
            push_error(text, error);
            true
        }
    }
}
