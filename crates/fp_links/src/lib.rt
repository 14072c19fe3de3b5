//! Links between the places of a system and the tasks that read them, walked from a place and dropped by their task.
#![tactic(auto)]

mod edge;
mod links;

pub use links::Links;
