//! Where the references in the frames of a code may come from.
#![tactic(auto)]

mod answer;
mod group;
mod laws;
mod numbering;
mod search;

pub use answer::{OriginFault, Origins};
pub use laws::{law_ascending, law_frames};
pub use search::{MOST_ORIGIN_PAIRS, origins};
