ghost use Rattle.std.specs.Prelude.{◌≡◌, ℕ, []};
ghost use Rattle.fp_hier.specs.Targets.{AreTargets};

use fp_model::MethodId;
use sqlite_items::Items;
use std::alloc::Global;

/// What a call names.
#[derive(Clone, Copy, Debug, PartialEq, Eq)]
pub struct MethodName {
    /// The number of the method's name.
    pub name: u32,
    /// The number of its descriptor's text.
    pub descr: u32,
    /// The method of the set that the reference means, if there is one.
    pub resolved: Option<MethodId>,
}

/// The methods that objects of a class select.
#[derive(Drop)]
pub struct Targets {
    /// Those of the set, ascending and each once.
    pub methods: Items<MethodId>,
    /// Whether a method outside the set may be selected.
    pub outside: bool,
}

impl Targets {
    /// No method of the set.
    pub(crate) fn none(alloc: Global, outside: bool) -> Targets
        ensures methods { result.methods ≡ [] }
        ensures outside { result.outside ≡ outside }
        ensures told { (methods : ℕ) → AreTargets methods (record { methods = []; outside = outside }) result }
    {
        Targets {
            methods: Items::new(alloc),
            outside,
        }
    }
}
