//! What the analyser asks of the outside: a directory to read from, and sinks to write to.

pub mod call;
pub mod dir;
pub mod paths;
pub mod sink;
