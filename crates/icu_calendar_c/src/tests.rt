//! Values that come from outside, and codes of refusals.

use crate::exports::{
    icu_calendar_add, icu_calendar_date_of_day, icu_calendar_date_of_fields, icu_calendar_easter,
    icu_calendar_era_of_day, icu_calendar_rule_days, icu_calendar_until, icu_calendar_week_of_year,
};
use crate::holiday_exports::{icu_calendar_holiday_name, icu_calendar_holidays};
use crate::more_exports::{
    icu_calendar_anniversaries, icu_calendar_dates_of_days, icu_calendar_day_of_text,
    icu_calendar_lengths_of_day, icu_calendar_recurrences, icu_calendar_text_of_day,
};
use crate::program::calspan;
use date_calls::{
    CalendarBookFault, CalendarDate, CalendarDuration, CalendarFields, CalendarHoliday,
    CalendarLengths, CalendarOccurrence, CalendarRuleFault,
};

const HEBREW: u8 = 7;

const ISO: u8 = 13;

/// Returns a date as it is before a call.
fn blank() -> CalendarDate {
    CalendarDate {
        day_number: 0,
        extended_year: 0,
        era_year: 0,
        cyclic_year: 0,
        ordinal_month: 0,
        month_number: 0,
        month_is_leap: 0,
        day: 0,
    }
}

/// Returns the fields of a date in the leap month Adar I.
fn adar_i(year: i32, day: u8) -> CalendarFields {
    CalendarFields {
        era_year: 0,
        extended_year: year,
        has_era_year: 0,
        has_extended_year: 1,
        has_month: 1,
        month_number: 5,
        month_is_leap: 1,
        has_ordinal_month: 0,
        ordinal_month: 0,
        has_day: 1,
        day,
    }
}

#[test]
fn days_have_dates(rt: HostRuntime) {
    let mut date = blank();
    assert_eq!(rt; icu_calendar_date_of_day(HEBREW, 0, 738939, &mut date), 0);
    assert!(rt; date.extended_year == 5784 && date.month_number == 5 && date.month_is_leap == 1);
    assert!(rt; date.ordinal_month == 6 && date.day == 14 && date.day_number == 738939);
    assert_eq!(rt; icu_calendar_date_of_day(1, 1, 738926, &mut date), 0);
    assert!(rt; date.extended_year == 2024 && date.cyclic_year == 41 && date.day == 1);
    assert_eq!(rt; icu_calendar_date_of_day(20, 0, 1, &mut date), 1);
    assert_eq!(rt; icu_calendar_date_of_day(ISO, 2, 1, &mut date), 2);
    assert_eq!(rt; icu_calendar_date_of_day(ISO, 0, 365242135, &mut date), 4);
    assert_eq!(rt; date.day_number, 738926);
}

#[test]
fn fields_name_dates(rt: HostRuntime) {
    let mut date = blank();
    let mut max = 7;
    let fields = adar_i(5784, 14);
    assert_eq!(rt;
        icu_calendar_date_of_fields(HEBREW, 0, &fields, b"", b"", 0, 0, &mut date, &mut max),
        0
    );
    assert!(rt; date.day_number == 738939 && max == 0);
    assert_eq!(rt;
        icu_calendar_date_of_fields(HEBREW, 0, &fields, b"", b"M05L", 0, 0, &mut date, &mut max),
        11
    );
    let fields = adar_i(5785, 14);
    assert_eq!(rt;
        icu_calendar_date_of_fields(HEBREW, 0, &fields, b"", b"", 2, 1, &mut date, &mut max),
        17
    );
    let fields = adar_i(5784, 31);
    assert_eq!(rt;
        icu_calendar_date_of_fields(HEBREW, 0, &fields, b"", b"", 2, 1, &mut date, &mut max),
        20
    );
    assert!(rt; max == 30 && date.day_number == 738939);
    assert_eq!(rt;
        icu_calendar_date_of_fields(HEBREW, 0, &fields, b"", b"", 3, 0, &mut date, &mut max),
        3
    );
    assert_eq!(rt; max, 0);
}

#[test]
fn durations_lead_on_and_back(rt: HostRuntime) {
    let mut date = blank();
    let mut max = 0;
    let mut duration = CalendarDuration {
        years: 0,
        months: 1,
        weeks: 0,
        days: 0,
        is_negative: 0,
    };
    assert_eq!(rt;
        icu_calendar_add(ISO, 0, 738916, &duration, 1, &mut date, &mut max),
        0
    );
    assert!(rt; date.month_number == 2 && date.day == 29);
    assert_eq!(rt;
        icu_calendar_add(ISO, 0, 738916, &duration, 2, &mut date, &mut max),
        20
    );
    assert_eq!(rt; max, 29);
    assert_eq!(rt;
        icu_calendar_until(HEBREW, 0, 739162, 738779, 1, &mut duration),
        0
    );
    assert!(rt; duration.is_negative == 1 && duration.years == 1 && duration.days == 0);
    assert_eq!(rt; icu_calendar_until(HEBREW, 0, 1, 2, 5, &mut duration), 3);
}

#[test]
fn eras_weeks_and_easter(rt: HostRuntime) {
    let mut room = [b'.'; 16];
    let mut written = 7;
    assert_eq!(rt;
        icu_calendar_era_of_day(14, 0, 738886, &mut room, &mut written),
        0
    );
    assert!(rt; written == 5 && room[4] == b'a' && room[5] == b'.');
    assert_eq!(rt;
        icu_calendar_era_of_day(14, 0, 738886, &mut room[..4], &mut written),
        8
    );
    assert_eq!(rt;
        icu_calendar_era_of_day(1, 0, 738886, &mut room, &mut written),
        0
    );
    assert_eq!(rt; written, 0);
    let mut year = 0;
    let mut week = 0;
    assert_eq!(rt; icu_calendar_week_of_year(738885, &mut year, &mut week), 0);
    assert!(rt; year == 2023 && week == 52);
    let mut day = 0;
    assert_eq!(rt; icu_calendar_easter(0, 2024, &mut day), 0);
    assert_eq!(rt; day, 738976);
    assert_eq!(rt; icu_calendar_easter(2, 2024, &mut day), 3);
}

#[test]
fn a_bad_place_spoils_no_other(rt: HostRuntime) {
    let days = [738939, 365242135, 738926];
    let mut dates = [blank(), blank(), blank()];
    let mut codes = [7u8; 3];
    let short = icu_calendar_dates_of_days(HEBREW, 0, &days, &mut dates, &mut codes[..2]);
    assert!(rt; short == 9 && codes[0] == 7 && dates[0].day_number == 0);
    let code = icu_calendar_dates_of_days(HEBREW, 0, &days, &mut dates, &mut codes);
    assert!(rt; code == 0 && codes[0] == 0 && codes[1] == 4 && codes[2] == 0);
    assert!(rt; dates[0].extended_year == 5784 && dates[0].month_is_leap == 1);
    assert!(rt; dates[1].day_number == 0 && dates[2].day_number == 738926);
}

#[test]
fn the_program_answers_where_there_is_room(rt: HostRuntime) {
    let mut room = [7u8; 64];
    let mut written = 0;
    assert_eq!(rt;
        calspan(rt.alloc(), b"span", b"spam\n", &mut room[..4], &mut written),
        8
    );
    assert!(rt; written == 18 && room[0] == 7);
    assert_eq!(rt;
        calspan(rt.alloc(), b"span", b"spam\n", &mut room, &mut written),
        1
    );
    assert!(rt; written == 18 && room[0] == b'e' && room[18] == 7);
    assert_eq!(rt;
        calspan(rt.alloc(), b"span  ", b"", &mut room, &mut written),
        2
    );
    assert_eq!(rt;
        calspan(rt.alloc(), b"\xff", b"", &mut room, &mut written),
        2
    );
    assert_eq!(rt; written, 0);
}

#[test]
fn years_and_months_have_lengths(rt: HostRuntime) {
    let mut lengths = CalendarLengths {
        days_in_year: 7,
        months_in_year: 7,
        days_in_month: 7,
    };
    assert_eq!(rt;
        icu_calendar_lengths_of_day(HEBREW, 0, 365242135, &mut lengths),
        4
    );
    assert_eq!(rt; lengths.days_in_year, 7);
    // Adar I of 5784, and February 29, 2024.
    assert_eq!(rt;
        icu_calendar_lengths_of_day(HEBREW, 0, 738939, &mut lengths),
        0
    );
    assert!(rt; lengths.days_in_year == 383 && lengths.months_in_year == 13);
    assert_eq!(rt; lengths.days_in_month, 30);
    assert_eq!(rt;
        icu_calendar_lengths_of_day(ISO, 0, 738945, &mut lengths),
        0
    );
    assert!(rt; lengths.days_in_year == 366 && lengths.months_in_year == 12);
    assert_eq!(rt; lengths.days_in_month, 29);
}

#[test]
fn anniversaries_go_on(rt: HostRuntime) {
    let mut days = [7; 2];
    let mut written = 7;
    let mut next = 7;
    // Day 10 of Adar I from 2023 to 2025, or of Adar in common years.
    let code = icu_calendar_anniversaries(
        HEBREW,
        0,
        5,
        1,
        10,
        1,
        738521,
        739616,
        &mut days,
        &mut written,
        &mut next,
    );
    assert!(rt; code == 0 && written == 2 && next == 738936);
    assert!(rt; days[0] == 738582 && days[1] == 738935);
    let code = icu_calendar_anniversaries(
        HEBREW,
        0,
        5,
        1,
        10,
        1,
        next,
        739616,
        &mut days,
        &mut written,
        &mut next,
    );
    assert!(rt; code == 0 && written == 1 && next == 739617);
    assert!(rt; days[0] == 739320 && days[1] == 738935);
    let code = icu_calendar_anniversaries(
        HEBREW,
        0,
        5,
        1,
        10,
        1,
        739617,
        739616,
        &mut days,
        &mut written,
        &mut next,
    );
    assert!(rt; code == 5 && written == 0 && next == 739617);
    let code = icu_calendar_anniversaries(
        ISO,
        0,
        13,
        0,
        10,
        0,
        738521,
        739616,
        &mut days,
        &mut written,
        &mut next,
    );
    assert!(rt; code == 16 && written == 0);
    let code = icu_calendar_anniversaries(
        ISO,
        0,
        12,
        0,
        32,
        2,
        738521,
        739616,
        &mut days,
        &mut written,
        &mut next,
    );
    assert!(rt; code == 20 && days[0] == 739320);
}

#[test]
fn recurrences_go_on(rt: HostRuntime) {
    let none = CalendarOccurrence { day: 7, index: 7 };
    let mut items = [none; 2];
    let mut written = 7;
    let mut next = 7;
    // Monthly from 2021-01-31 to 2021-04-30.
    let code = icu_calendar_recurrences(
        ISO,
        0,
        737821,
        2,
        1,
        1,
        737821,
        737910,
        &mut items,
        &mut written,
        &mut next,
    );
    assert!(rt; code == 0 && written == 2 && next == 737850);
    assert!(rt; items[0].day == 737821 && items[0].index == 0);
    assert!(rt; items[1].day == 737849 && items[1].index == 1);
    let code = icu_calendar_recurrences(
        ISO,
        0,
        737821,
        2,
        1,
        2,
        next,
        737910,
        &mut items,
        &mut written,
        &mut next,
    );
    assert!(rt; code == 0 && written == 1 && next == 737911);
    assert!(rt; items[0].day == 737880 && items[0].index == 2 && items[1].index == 1);
    let code = icu_calendar_recurrences(
        ISO,
        0,
        737821,
        2,
        0,
        2,
        next,
        737910,
        &mut items,
        &mut written,
        &mut next,
    );
    assert!(rt; code == 3 && written == 0);
    let code = icu_calendar_recurrences(
        ISO,
        0,
        365242135,
        2,
        1,
        0,
        next,
        737910,
        &mut items,
        &mut written,
        &mut next,
    );
    assert!(rt; code == 4 && written == 0);
}

#[test]
fn texts_name_days(rt: HostRuntime) {
    let mut calendar = 77;
    let mut day = 7;
    assert_eq!(rt;
        icu_calendar_day_of_text(b"2024-03-01", &mut calendar, &mut day),
        0
    );
    assert!(rt; calendar == ISO && day == 738946);
    let text = b"+002024-03-01[u-ca=hebrew]";
    assert_eq!(rt; icu_calendar_day_of_text(text, &mut calendar, &mut day), 0);
    assert!(rt; calendar == HEBREW && day == 738946);
    let text = b"-000001-12-31[!u-ca=gregory]";
    assert_eq!(rt; icu_calendar_day_of_text(text, &mut calendar, &mut day), 0);
    assert!(rt; calendar == 6 && day == -366);
    let text = b"0001-01-01[u-ca=julian]";
    assert_eq!(rt; icu_calendar_day_of_text(text, &mut calendar, &mut day), 0);
    assert!(rt; calendar == 15 && day == 1);
    let text = b"2024-03-01[u-ca=klingon]";
    assert_eq!(rt; icu_calendar_day_of_text(text, &mut calendar, &mut day), 1);
    let text = b"2023-02-29[u-ca=hebrew]";
    assert_eq!(rt; icu_calendar_day_of_text(text, &mut calendar, &mut day), 21);
    let text = b"2024-03-01 [u-ca=hebrew]";
    assert_eq!(rt; icu_calendar_day_of_text(text, &mut calendar, &mut day), 21);
    assert_eq!(rt; icu_calendar_day_of_text(b"", &mut calendar, &mut day), 21);
    assert!(rt; calendar == 15 && day == 1);
}

#[test]
fn days_have_texts(rt: HostRuntime) {
    let mut room = [7; 44];
    let mut written = 77;
    let code = icu_calendar_text_of_day(HEBREW, 738946, &mut room, &mut written);
    assert!(rt; code == 0 && written == 23);
    assert_eq!(rt; &room[..24], b"2024-03-01[u-ca=hebrew]\x07".as_slice());
    let code = icu_calendar_text_of_day(ISO, -365242499, &mut room, &mut written);
    assert!(rt; code == 0 && written == 13);
    assert_eq!(rt; &room[..15], b"-999999-01-01ca".as_slice());
    let code = icu_calendar_text_of_day(19, 365242134, &mut room, &mut written);
    assert!(rt; code == 0 && written == 42);
    let text = b"+999999-12-31[u-ca=islamic-type1-thursday]\x07";
    assert_eq!(rt; &room[..43], text.as_slice());
    let code = icu_calendar_text_of_day(ISO, 3652059, &mut room[..10], &mut written);
    assert!(rt; code == 0 && written == 10);
    assert_eq!(rt; &room[..13], b"9999-12-31-31".as_slice());
    let code = icu_calendar_text_of_day(6, 3652060, &mut room[..26], &mut written);
    assert!(rt; code == 8 && written == 27 && room[0] == b'9');
    let code = icu_calendar_text_of_day(10, 365242135, &mut room, &mut written);
    assert!(rt; code == 21 && written == 0);
    let code = icu_calendar_text_of_day(ISO, 365242135, &mut room, &mut written);
    assert!(rt; code == 4 && written == 0);
    let code = icu_calendar_text_of_day(20, 365242135, &mut room, &mut written);
    assert!(rt; code == 1 && written == 0 && room[0] == b'9');
}

#[test]
fn rules_go_on(rt: HostRuntime) {
    let none = CalendarOccurrence { day: 7, index: 7 };
    let mut items = [none; 3];
    let mut written = 7;
    let mut next = 7;
    let mut fault = CalendarRuleFault { cause: 7, part: 7 };
    // Every Friday the 13th from 1997-09-02 on, as RFC 5545 lists them up to 2000.
    let rule = b"FREQ=MONTHLY;BYDAY=FR;BYMONTHDAY=13";
    let code = icu_calendar_rule_days(
        ISO,
        0,
        729269,
        rule,
        729269,
        730485,
        &mut items,
        &mut written,
        &mut next,
        &mut fault,
    );
    assert!(rt; code == 0 && written == 3 && next == 729707);
    assert!(rt; items[0].day == 729433 && items[0].index == 0);
    assert!(rt; items[1].day == 729461 && items[1].index == 1);
    assert!(rt; items[2].day == 729706 && items[2].index == 2);
    let code = icu_calendar_rule_days(
        ISO,
        0,
        729269,
        rule,
        next,
        730485,
        &mut items,
        &mut written,
        &mut next,
        &mut fault,
    );
    assert!(rt; code == 0 && written == 2 && next == 730486);
    assert!(rt; items[0].day == 729979 && items[0].index == 3);
    assert!(rt; items[1].day == 730406 && items[1].index == 4);
    assert!(rt; items[2].day == 729706 && fault.cause == 7 && fault.part == 7);
}

#[test]
fn texts_that_are_no_rules(rt: HostRuntime) {
    let mut items = [CalendarOccurrence { day: 7, index: 7 }; 1];
    let mut written = 7;
    let mut next = 7;
    let mut fault = CalendarRuleFault { cause: 7, part: 7 };
    let code = icu_calendar_rule_days(
        ISO,
        0,
        729269,
        b"FREQ=MONTHLY;BYDAY=first",
        729269,
        730485,
        &mut items,
        &mut written,
        &mut next,
        &mut fault,
    );
    assert!(rt; code == 22 && written == 0 && next == 7 && items[0].day == 7);
    assert!(rt; fault.cause == 5 && fault.part == 8);
    let code = icu_calendar_rule_days(
        ISO,
        0,
        729269,
        b"",
        730485,
        729269,
        &mut items,
        &mut written,
        &mut next,
        &mut fault,
    );
    assert!(rt; code == 5 && fault.cause == 5);
    let code = icu_calendar_rule_days(
        ISO,
        0,
        365242135,
        b"",
        730485,
        729269,
        &mut items,
        &mut written,
        &mut next,
        &mut fault,
    );
    assert!(rt; code == 4 && fault.cause == 5);
    let code = icu_calendar_rule_days(
        ISO,
        2,
        365242135,
        b"",
        730485,
        729269,
        &mut items,
        &mut written,
        &mut next,
        &mut fault,
    );
    assert!(rt; code == 2 && written == 0);
}

/// Easter of both calendars, which was on one day in 2025.
const EASTERS: &[u8] = b"easter,Easter,gregorian,,0,\neaster,Pascha,julian,,0,\n";

#[test]
fn holidays_of_one_day_go_on_by_rules(rt: HostRuntime) {
    let mut items = [CalendarHoliday { day: 7, rule: 7 }; 2];
    let mut written = 7;
    let mut next = 739252;
    let mut rule = 0;
    let mut fault = CalendarBookFault {
        number: 7,
        field: 7,
    };
    let code = icu_calendar_holidays(
        rt.alloc(),
        0,
        EASTERS,
        739252,
        739616,
        0,
        &mut items[..1],
        &mut written,
        &mut next,
        &mut rule,
        &mut fault,
    );
    assert!(rt; code == 0 && written == 1 && next == 739361 && rule == 1);
    assert!(rt; items[0].day == 739361 && items[0].rule == 0 && items[1].day == 7);
    let code = icu_calendar_holidays(
        rt.alloc(),
        0,
        EASTERS,
        next,
        739616,
        rule,
        &mut items,
        &mut written,
        &mut next,
        &mut rule,
        &mut fault,
    );
    assert!(rt; code == 0 && written == 1 && next == 739617 && rule == 0);
    assert!(rt; items[0].day == 739361 && items[0].rule == 1 && items[1].day == 7);
    assert!(rt; fault.number == 7 && fault.field == 7);
}

#[test]
fn books_that_have_no_holidays(rt: HostRuntime) {
    let mut items = [CalendarHoliday { day: 7, rule: 7 }; 1];
    let mut written = 7;
    let mut next = 7;
    let mut rule = 7;
    let mut fault = CalendarBookFault {
        number: 7,
        field: 7,
    };
    let code = icu_calendar_holidays(
        rt.alloc(),
        2,
        b"spam",
        739616,
        739252,
        0,
        &mut items,
        &mut written,
        &mut next,
        &mut rule,
        &mut fault,
    );
    assert!(rt; code == 2 && written == 0);
    let code = icu_calendar_holidays(
        rt.alloc(),
        1,
        b"spam",
        739616,
        739252,
        0,
        &mut items,
        &mut written,
        &mut next,
        &mut rule,
        &mut fault,
    );
    assert!(rt; code == 5 && fault.number == 7 && fault.field == 7);
    let code = icu_calendar_holidays(
        rt.alloc(),
        1,
        b"easter,Easter,gregorian,,0,\n\nfixed,Founding day,klingon,M01,1,exact",
        739252,
        739616,
        0,
        &mut items,
        &mut written,
        &mut next,
        &mut rule,
        &mut fault,
    );
    assert!(rt; code == 23 && fault.number == 2 && fault.field == 3);
    assert!(rt; written == 0 && next == 7 && rule == 7 && items[0].day == 7);
}

#[test]
fn holidays_have_names(rt: HostRuntime) {
    let mut room = [b'.'; 8];
    let mut written = 7;
    assert_eq!(rt;
        icu_calendar_holiday_name(rt.alloc(), EASTERS, 1, &mut room, &mut written),
        0
    );
    assert!(rt; written == 6 && room[0] == b'P' && room[5] == b'a' && room[6] == b'.');
    assert_eq!(rt;
        icu_calendar_holiday_name(rt.alloc(), EASTERS, 0, &mut room[..5], &mut written),
        8
    );
    assert!(rt; written == 6 && room[0] == b'P');
    assert_eq!(rt;
        icu_calendar_holiday_name(rt.alloc(), EASTERS, 2, &mut room, &mut written),
        25
    );
    assert_eq!(rt; written, 0);
    assert_eq!(rt;
        icu_calendar_holiday_name(rt.alloc(), b"spam", 0, &mut room, &mut written),
        23
    );
    assert!(rt; written == 0 && room[0] == b'P');
}
