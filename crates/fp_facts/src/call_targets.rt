ghost use Rattle.std.specs.Prelude.{◌≡◌, []};

use fp_model::{ClassId, MethodId};
use sqlite_items::Items;
use std::alloc::Global;

/// The methods that a call can reach.
#[derive(Drop)]
pub struct CallTargets {
    /// Those of the set, ascending and each once. The bit of each is its place here, and the bit behind them all is that of the outside.
    pub targets: Items<MethodId>,
    /// The bits of what it reaches whatever classes have objects, ascending.
    pub always: Items<u32>,
    /// The classes whose objects let it reach more, ascending, and the bits of that.
    pub watch: Items<(ClassId, Items<u32>)>,
}

impl CallTargets {
    /// No method, which takes no memory.
    pub fn none(alloc: Global) -> CallTargets
        ensures { result ≡ record { targets = []; always = []; watch = [] } }
    {
        CallTargets {
            targets: Items::new(alloc),
            always: Items::new(alloc),
            watch: Items::new(alloc),
        }
    }
}
