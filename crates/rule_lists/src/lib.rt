//! That each recurrence rule has exactly one list of occurrences.
//!
//! `cal_rrule` defines by relations which days are the occurrences of a rule (RFC 5545, 3.3.10; RFC 7529, 4), and its
//! lists meet them. [`laws::rules_have_one_list`] says that the relations themselves leave nothing open: each part of
//! them is decided for each day, so a list exists for every rule, start and window, and there is only one.
//! A list of days alone has the same days.
#![tactic(auto)]

pub mod laws;
