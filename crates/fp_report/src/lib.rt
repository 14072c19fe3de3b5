//! The report of a solved system.
#![tactic(auto)]

mod lines;
mod printing;
mod targets;

pub use printing::{PrintFault, print};
