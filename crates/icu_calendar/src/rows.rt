//! Your own rows of years: lines of text such as `row china 1912 698026 lslslslslsls 0`. Each row replaces a computed
//! year by a published one, or adds an era of Japan after Reiwa.
//!
//! [`TableRows::try_read`] reads a text and [`TableRows::take_line`] one line. [`TableRows::tables`] checks the rows
//! and returns tables of them; [`TableRows::china`], `korea` and `umm_al_qura` return the rows alone. An error prints
//! what the program `calspan` writes for it, as `table line 1 range` or `table china 3 end`. The program's manual has
//! the grammar of a row line.
//!
//! ```
//! let rows = TableRows::try_read(alloc, b"row china 1912 698026 lslslslslsls 0\n")?;
//! let chinese = rows.tables()?.chinese();
//! let date = Date::try_new(1912.into(), Month::new(1), 30, chinese)?;
//! assert!(rt; date.to_rata_die().to_i64_date() == 698055); // 1912-03-18
//! ```
//!
//! # When the next year is published
//!
//! A table never changes; a longer one replaces it. Call [`HijriTable::lengthened`](crate::HijriTable::lengthened) or
//! [`EastAsianTable::lengthened`](crate::EastAsianTable::lengthened) on the old table with all rows. It checks that
//! they begin with the old ones and that both ends still meet the computed years. Then convert every stored date with
//! [`Date::rebase`](crate::Date::rebase), by its day number. A date whose year isn't among the added rows keeps its
//! fields; another may have changed, as `moved` says. Dates under the two tables can't be compared.
//!
//! ```
//! let rows = TableRows::try_read(alloc, text)?; // the rows of 1445 and of 1446
//! let longer = Hijri::new_umm_al_qura(table.lengthened(rows.umm_al_qura())?);
//! let rebased = stored.rebase(longer);
//! ```

pub use table_rows::{RowError, RowFault, RowsError, Table, TableRefusal, TableRows};
