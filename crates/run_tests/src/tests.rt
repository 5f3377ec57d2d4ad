//! Lines of all kinds, requests and rows of tables, and what is written for them; what words spell; and sources and sinks.

mod conversions;
mod counts;
mod equalities;
mod explanations;
mod faults;
mod holidays;
mod lines;
mod lists;
mod own_rows;
mod programs;
mod requests;
mod rows;
mod rules;
mod runs;
mod source_lines;
mod sources;
mod words;
