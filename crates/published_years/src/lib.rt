//! The published years as constant data: tables of them, and calendars over these tables. They allocate no memory and
//! read no file.
//!
//! | Calendar | Table | Published years | Where they come from |
//! |---|---|---|---|
//! | [`chinese`] | [`china_table`] | 1912 to 2099 | the rule of GB/T 33661-2017, at 8 hours from Greenwich throughout |
//! | [`korean`] | [`korea_table`] | 1912 to 2097 | the same rule at 9 hours from Greenwich |
//! | [`umm_al_qura`] | [`umm_al_qura_table`] | 1300 to 1600 | the years of Java 17 and ICU 78 |
//! | [`persian`] | [`persian_corrections`] | 78 corrections from 1502 to 2987 | the corrections of ICU 78 |
//!
//! Any other year is computed, as its calendar describes. [`tables`] returns all of the tables, for a calendar that
//! is chosen at run time.
#![tactic(auto)]

mod all_tables;
mod east_asian_data;
mod east_asian_years;
mod hijri_data;
mod hijri_years;
mod persian_data;
mod persian_years;

pub use all_tables::tables;
pub use east_asian_data::{
    FIRST_CHINESE_YEAR, FIRST_KOREAN_YEAR, LAST_CHINESE_YEAR, LAST_KOREAN_YEAR,
};
pub use east_asian_years::{china_table, chinese, korea_table, korean};
pub use hijri_data::{FIRST_UMM_AL_QURA_YEAR, LAST_UMM_AL_QURA_YEAR};
pub use hijri_years::{umm_al_qura, umm_al_qura_table};
pub use persian_data::{FIRST_CORRECTED_PERSIAN_YEAR, LAST_CORRECTED_PERSIAN_YEAR};
pub use persian_years::{persian, persian_corrections};
