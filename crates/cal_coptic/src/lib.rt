//! The Coptic and the Ethiopian calendar.
#![tactic(auto)]

mod coptic;
mod coptic_year;
mod ethiopian;
pub mod laws;

pub use coptic::{Coptic, CopticDateInner};
pub use ethiopian::{Ethiopian, EthiopianDateInner, EthiopianEraStyle};
