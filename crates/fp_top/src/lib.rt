//! The analyser as one call, from words and a directory to a report.
#![tactic(auto)]

mod analyse;
mod decide;
mod fault_text;
mod refusal;
mod report;
mod solve;
mod status;
mod words;
mod write;

pub use analyse::analyse_one;
pub use status::Status;
