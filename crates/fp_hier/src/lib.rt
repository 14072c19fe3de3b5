//! The hierarchy of a set of classes: which declaration a reference means, and which methods a call can reach.
#![tactic(auto)]

mod bit_rows;
mod bits;
mod calls;
mod declared;
mod flags;
mod hier;
mod lineage;
mod receivers;
mod resolution;
mod selection;
mod signature;
mod superinterfaces;
mod targets;
mod texts;

pub use bits::ascending;
pub use hier::Hier;
pub use targets::{MethodName, Targets};
