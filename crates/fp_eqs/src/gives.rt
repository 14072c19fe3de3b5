ghost use Rattle.std.specs.Prelude.{◌≡◌, ◌+◌, ◌<◌, ◌≤◌, [], ◌∷◌, ◌++◌, length, OnOk, OnErr};

use std::alloc::{AllocError, Global};
use std::marker::Model;

/// A list of contributions, each a place and bits, with room for some more.
#[derive(Debug, Drop)]
pub struct Gives {
    pairs: Vec<(u32, u64)>,
}

impl Model for Gives {
    ghost use Rattle.std.specs.Prelude.{◌-◌, length, vec_capacity};
    ghost use Rattle.fp_eqs.specs.Giving.{Giving};

    ghost Value = { Giving };

    ghost view = { λ g. record { list = g.pairs.items; spare = vec_capacity g.pairs - length g.pairs.items } };
}

impl Gives {
    /// An empty list with no spare room.
    pub fn new(alloc: Global) -> Gives
        ensures list { result.list ≡ [] }
        ensures spare { result.spare ≡ 0 }
    {
        Gives {
            pairs: Vec::new(alloc),
        }
    }

    /// Makes room for so many more contributions.
    pub fn reserve(&mut self, more: u32) -> Result<(), AllocError>
        ensures list { self.new.list ≡ self.old.list }
        ensures room { OnOk result (more ≤ self.new.spare) }
        ensures err { OnErr result (self.new ≡ self.old) }
    {
        self.pairs.reserve(more as usize)
    }

    /// Adds a contribution, in the room that is there.
    pub fn add(&mut self, place: u32, bits: u64)
        requires { 0 < self.old.spare }
        ensures list { self.new.list ≡ self.old.list ++ (place, bits) ∷ [] }
        ensures spare { self.new.spare + 1 ≡ self.old.spare }
    {
        self.pairs.push_reserved((place, bits));
    }

    /// Empties the list, whose room is spare then.
    pub fn clear(&mut self)
        ensures list { self.new.list ≡ [] }
        ensures spare { self.new.spare ≡ self.old.spare + length self.old.list }
    {
        self.pairs.clear();
    }

    /// The contributions.
    pub fn list(&self) -> &[(u32, u64)]
        ensures { result.now ≡ self.now.list }
    {
        self.pairs.as_slice()
    }
}
