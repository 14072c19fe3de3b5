//! What members are looked up by.

/// The name and the descriptor of a method or a field, by their numbers.
#[derive(Clone, Copy)]
pub(crate) struct Signature {
    pub(crate) name: u32,
    pub(crate) descr: u32,
}
