ghost use Rattle.std.specs.Prelude.{◌≡◌, []};

use sqlite_items::Items;
use std::alloc::Global;

/// What a run takes for granted of classes outside the set, by the numbers of the names as they were given.
#[derive(Drop)]
pub struct Assume {
    /// The methods that neither have an effect nor read what changes.
    pub pure: Items<u32>,
    /// The methods that have no effect.
    pub sef: Items<u32>,
    /// The classes whose instances never change.
    pub fixed: Items<u32>,
}

impl Assume {
    /// Nothing is taken for granted, which takes no memory.
    pub fn none(alloc: Global) -> Assume
        ensures pure { result.pure ≡ [] }
        ensures sef { result.sef ≡ [] }
        ensures fixed { result.fixed ≡ [] }
    {
        Assume {
            pure: Items::new(alloc),
            sef: Items::new(alloc),
            fixed: Items::new(alloc),
        }
    }
}
