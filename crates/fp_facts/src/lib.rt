//! The facts that analyses read, and what the dataflow of bytecode stands on.
#![tactic(auto)]

mod assume;
mod call;
mod call_targets;
mod effect;
mod facts;
mod label;
mod laws;
mod loaded;
mod operands;
mod origin;
mod origin_set;
mod reference;

pub use assume::Assume;
pub use call_targets::CallTargets;
pub use effect::{Effect, Shuffling};
pub use facts::{Access, AccessForm, Assumed, CallSite, Facts, MethodFacts};
pub use label::Label;
pub use laws::{
    law_ancestors, law_begins, law_frames, law_kinds, law_least_flow, law_least_solution,
    law_moves, law_moves_map, law_moves_reached, law_moves_shape, law_reached, law_reaches,
    law_reference_candidates, law_same_solution, law_seeds, law_sorts,
};
pub use loaded::Loaded;
pub use operands::Operands;
pub use origin::Origin;
pub use origin_set::OriginSet;
pub use reference::{CallForm, Reference};
