use fp_model::LimitName;
use std::alloc::{AllocError, AllocFailed};

/// Why there are no facts of a set.
#[derive(Clone, Copy, Debug, PartialEq, Eq)]
pub enum FactsFault {
    /// They, or a system over them, would pass the bound of this name.
    Limit(LimitName),
    /// Memory ran out. This says nothing of the set.
    Memory,
}

impl From<AllocError> for FactsFault {
    ghost use Rattle.std.specs.Prelude.{◌≡◌};
    ghost use Rattle.fp_extract.specs.declared.fault.FactsFault.TheVariants.{Memory};

    ghost from_gives = { λ _ e. e ≡ Memory };

    fn from(_error: AllocError) -> FactsFault {
        FactsFault::Memory
    }
}

impl<T: Drop> From<AllocFailed<T>> for FactsFault {
    ghost use Rattle.std.specs.Prelude.{◌≡◌};
    ghost use Rattle.fp_extract.specs.declared.fault.FactsFault.TheVariants.{Memory};

    ghost from_gives = { λ _ e. e ≡ Memory };

    fn from(_failed: AllocFailed<T>) -> FactsFault {
        FactsFault::Memory
    }
}
