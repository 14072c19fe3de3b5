//! Systems of monotone equations over numbered places: their contract, their laws, and the plain
//! solver.
#![tactic(auto)]

mod analysis;
mod ask;
mod both;
mod counted;
mod demo;
mod gives;
mod laws;
mod naming;
mod plain;
mod solved;
mod start;
mod system;

pub use analysis::Analysis;
pub use ask::Ask;
pub use both::Both;
pub use counted::Counted;
pub use demo::Demo;
pub use gives::Gives;
pub use laws::{law_demand, law_solution};
pub use naming::Naming;
pub use plain::rounds;
pub use solved::Solved;
pub use start::{Bound, Start};
pub use system::System;
