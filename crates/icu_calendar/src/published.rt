//! Calendars with published years, as constant data.
//!
//! [`chinese`] has the years 1912 to 2099, [`korean`] 1912 to 2097, and [`umm_al_qura`] 1300 to 1600. [`persian`] has
//! 78 corrections of the rule of 33 years, from 1502 to 2987. All other years are computed.
//!
//! # Examples
//!
//! ```
//! let chinese = published::chinese();
//! let new_year = Date::try_new(2023.into(), Month::new(1), 1, chinese)?;
//! assert!(rt; new_year.to_rata_die().to_i64_date() == 738542); // 2023-01-22
//! ```

pub use published_years::{
    FIRST_CHINESE_YEAR, FIRST_CORRECTED_PERSIAN_YEAR, FIRST_KOREAN_YEAR, FIRST_UMM_AL_QURA_YEAR,
    LAST_CHINESE_YEAR, LAST_CORRECTED_PERSIAN_YEAR, LAST_KOREAN_YEAR, LAST_UMM_AL_QURA_YEAR,
    china_table, chinese, korea_table, korean, persian, persian_corrections, tables, umm_al_qura,
    umm_al_qura_table,
};
