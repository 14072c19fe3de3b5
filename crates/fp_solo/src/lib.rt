//! A system solved on demand by one worker.
#![tactic(auto)]

mod agenda;
mod begin;
mod due;
mod evaluate;
mod join;
mod laws;
mod record;
mod solve;
mod work;

pub use laws::{law_end, law_evaluation, law_few};
pub use solve::solve_one;
