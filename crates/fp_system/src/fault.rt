use fp_model::LimitName;
use std::alloc::{AllocError, AllocFailed};

/// Why there is no system for a set and the words of a run.
#[derive(Drop)]
pub enum SystemFault {
    /// There is no analysis of this name.
    Analysis(String),
    /// A root is no method with code of the set.
    Root(String),
    /// A shown item is neither a kind of property nor a cell.
    Show(String),
    /// The system would be larger than the bound of this name.
    Limit(LimitName, u64),
    /// Memory ran out, or there are more places than have numbers. This says nothing of the words.
    Memory,
}

impl From<AllocError> for SystemFault {
    ghost use Rattle.std.specs.Prelude.{◌≡◌};
    ghost use Rattle.fp_system.specs.declared.fault.SystemFault.TheVariants.{Memory};

    ghost from_gives = { λ _ e. e ≡ Memory };

    fn from(_error: AllocError) -> SystemFault {
        SystemFault::Memory
    }
}

impl<T: Drop> From<AllocFailed<T>> for SystemFault {
    ghost use Rattle.std.specs.Prelude.{◌≡◌};
    ghost use Rattle.fp_system.specs.declared.fault.SystemFault.TheVariants.{Memory};

    ghost from_gives = { λ _ e. e ≡ Memory };

    fn from(_failed: AllocFailed<T>) -> SystemFault {
        SystemFault::Memory
    }
}
