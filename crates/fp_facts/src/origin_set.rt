ghost use Rattle.std.specs.Prelude.{◌≡◌, ◌++◌, ◌∷◌, ◌==◌, [], length, IfOk, OnOk};

use crate::origin::Origin;
use sqlite_items::Items;
use std::alloc::{AllocError, Global};
use std::marker::Model;

/// The origins of a reference, ascending and each once.
#[derive(Drop)]
pub struct OriginSet {
    origins: Items<Origin>,
}

impl Model for OriginSet {
    ghost use Rattle.std.specs.Prelude.{List};
    ghost use Rattle.fp_facts.specs.declared.origin.Origin.{Origin};

    ghost Value = { List Origin };

    ghost view = { λ s. s.origins };
}

impl OriginSet {
    /// No origins, which take no memory.
    pub fn new(alloc: Global) -> OriginSet
        ensures { result ≡ [] }
    {
        OriginSet {
            origins: Items::new(alloc),
        }
    }

    /// Adds an origin behind the others.
    pub fn push(&mut self, origin: Origin) -> Result<(), AllocError>
        ensures { OnOk result (self.new ≡ self.old ++ origin ∷ []) }
    {
        self.origins.push(origin)
    }

    /// The same origins once more.
    pub fn copy(&self, alloc: Global) -> Result<OriginSet, AllocError>
        ensures { IfOk result (λ copy. copy ≡ self.now) }
    {
        Ok(OriginSet {
            origins: Items::from_slice(alloc, self.origins.as_slice())?,
        })
    }

    /// The origins.
    pub fn as_slice(&self) -> &[Origin]
        ensures { result.now ≡ self.now }
    {
        self.origins.as_slice()
    }

    /// How many there are.
    pub fn len(&self) -> usize
        ensures { result ≡ length self.now }
    {
        self.origins.len()
    }

    /// Whether there are none.
    pub fn is_empty(&self) -> bool
        ensures { result ≡ (length self.now == 0) }
    {
        self.origins.len() == 0
    }
}
