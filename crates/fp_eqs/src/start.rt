/// When a task is started.
#[derive(Clone, Copy, Debug, PartialEq, Eq)]
pub enum Start {
    /// From the first.
    Always,
    /// From the first, but it has an effect only once its trigger, this place, is not 0.
    Triggered(u32),
    /// As soon as a place that it makes is demanded.
    Lazy,
}

/// The bounds of a task: how many places it uses, and to how many it gives, at most.
#[derive(Clone, Copy, Debug, PartialEq, Eq)]
pub struct Bound {
    /// The most places that an evaluation asks.
    pub asks: u32,
    /// The most contributions that an evaluation adds.
    pub gives: u32,
}
