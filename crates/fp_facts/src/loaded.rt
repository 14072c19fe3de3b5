use crate::assume::Assume;
use fp_model::ClassSet;

/// What was read for a run.
#[derive(Drop)]
pub struct Loaded {
    /// The classes.
    pub set: ClassSet,
    /// What is taken for granted of others.
    pub assume: Assume,
}
