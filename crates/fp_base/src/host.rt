//! The real files and streams.

pub mod host_dir;
pub mod host_sink;
pub mod walk;
