//! Calls, and what those of one reference share.
ghost use Rattle.std.specs.Prelude.{◌≡◌, ◌+◌, ◌*◌, length};
ghost use Rattle.fp_rta.specs.Contributions.{sources_of};
ghost use Rattle.fp_rta.specs.Meaning.{IsShapeShort};

use crate::candidate::Candidate;
use fp_eqs::Bound;
use sqlite_items::Items;

/// The candidates of the calls of one reference: one for each of its targets, and one for the outside.
#[derive(Drop)]
pub struct Shape {
    /// Those, in the order of their bits.
    pub candidates: Items<Candidate>,
    /// The most places that a call asks.
    pub asks: u32,
}

impl Shape {
    /// The bounds of its calls.
    pub(crate) fn bound(&self) -> Bound
        requires { IsShapeShort self.now }
        ensures asks { result.asks ≡ length (sources_of self.now.candidates) + 1 }
        ensures gives { result.gives ≡ 2 * length self.now.candidates }
    {
        Bound {
            asks: self.asks,
            gives: 2 * self.candidates.len() as u32,
        }
    }
}

/// A call.
#[derive(Clone, Copy, Debug)]
pub struct Site {
    /// The place that tells whether its method is reached.
    pub trigger: u32,
    /// The first place of its own bits.
    pub callees: u32,
    /// The number of its candidates.
    pub shape: u32,
}
