//! The facts of a set of classes: what the code of each method does, what calls can reach, and where a run may start.
#![tactic(auto)]

mod access;
mod arguments;
mod begun;
mod calls;
mod fault;
mod initialisers;
mod lookup;
mod methods;
mod objects;
mod outcomes;
mod references;
mod room;
mod seed;
mod set_facts;
mod site;

pub use begun::begun_from;
pub use fault::FactsFault;
pub use initialisers::{initialiser_flags, is_initialiser};
pub use room::Room;
pub use set_facts::facts;
