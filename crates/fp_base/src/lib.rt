//! The outside of the analyser, and the names and texts that it speaks in.
#![tactic(auto)]

mod escape;
mod host;
mod memory;
mod names;
mod order;
mod outside;

pub use escape::{escape_name, escape_text, escaped_name_text, law_escaped_name, law_escaped_text};
pub use host::host_dir::HostDir;
pub use host::host_sink::HostSink;
pub use memory::mem_dir::MemDir;
pub use memory::mem_sink::{MemSink, has_distinct_calls};
pub use names::{MAX_NAMES, NameFault, Names};
pub use order::sort_texts;
pub use outside::dir::{ClassDir, DirFault};
pub use outside::sink::{Sink, SinkFault};
