//! Rapid type analysis as independent tasks: which methods are reached, which classes have objects, and what calls reach.
#![tactic(auto)]

mod call;
mod candidate;
mod candidates;
mod giver;
mod givers;
mod initialiser;
mod places;
mod shapes;
mod site;
mod sites;
mod tasks;

pub use candidate::Candidate;
pub use giver::Giver;
pub use site::{Shape, Site};
pub use tasks::RtaTasks;
