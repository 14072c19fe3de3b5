//! Reads attributes (JVMS SE 21 section 4.7).
#![tactic(auto)]

mod attribute;
mod boots;
mod code;
mod cut;
mod owner;
mod rows;

pub use attribute::{law_skipped, read_attr, skip_attr};
pub use owner::Owner;
