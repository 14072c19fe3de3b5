//! Reads the class files below a directory into a set of classes.
#![tactic(auto)]

mod directory;
mod fault;
mod gathering;
mod judging;
mod outcome;
mod paths;
mod reading;

pub use directory::load;
pub use fault::{FileRefusal, LoadFault};
