//! The Chinese and Korean calendars: the calendar [`EastAsianTraditional`] over any [`Rules`], which decide its years.
//!
//! [`ChineseTraditional`] and [`KoreanTraditional`] take an [`EastAsianTable`] of years. Years without a row are
//! computed: [`qing_year`] from 1900 to 1911, and [`mean_year`] otherwise. Start with
//! [`ChineseTraditional::new`](EastAsianTraditional::new).
#![tactic(auto)]

mod chosen_years;
mod computed_years;
mod east_asian_months;
mod east_asian_row;
mod east_asian_table;
mod east_asian_traditional;
mod east_asian_traditional_year;
mod leap_rows;
mod mean_moons;
mod mean_years;
mod month_starts;
mod qing_years;
mod reference_years;
mod rules;
mod same_rows;
mod sides;
mod table_check;
mod table_months;
mod table_rules;
mod table_sides;

pub use east_asian_row::EastAsianRow;
pub use east_asian_table::EastAsianTable;
pub use east_asian_traditional::{ChineseDateInner, EastAsianTraditional};
pub use east_asian_traditional_year::EastAsianTraditionalYear;
pub use mean_years::mean_year;
pub use qing_years::qing_year;
pub use rules::Rules;
pub use sides::Side;
pub use table_rules::{China, ChineseTraditional, Korea, KoreanTraditional, TableRules};
pub use table_sides::TableSide;
