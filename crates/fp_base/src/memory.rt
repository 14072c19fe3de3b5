//! Directories and sinks in memory, whose calls fail where their maker says.

pub mod files;
pub mod mem_dir;
pub mod mem_sink;
