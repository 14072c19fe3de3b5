//! Reads the constant pool of a class file (JVMS SE 21 section 4.4).
#![tactic(auto)]

mod cut;
mod entry;
mod laws;
mod reader;
mod references;
mod sorts;

pub use cut::cut_pool;
pub use laws::law_spelled_pool;
pub use reader::read_pool;
pub use references::{check_references, entry_size};
