//! Rows of bits: the values of properties, ordered by inclusion and joined by union.
#![tactic(auto)]

mod laws;
mod row;

pub use laws::{law_join, law_join_rows};
pub use row::{Row, count, join, within};
