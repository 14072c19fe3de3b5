ghost use Rattle.std.specs.Prelude.{◌≡◌, IfOk, string_bytes};
ghost use Rattle.fp_top.specs.Refusal as spec;

use crate::status::Status;
use fp_load::{FileRefusal, LoadFault};
use fp_model::{LimitName, SetFault};
use fp_system::SystemFault;
use sqlite_items::Items;
use std::alloc::{AllocError, Global};

/// Why there is no report.
#[derive(Drop)]
pub enum Refusal {
    /// The words are not of the grammar.
    Usage,
    /// The directory, or a file, could not be read.
    Read(String),
    /// Files are refused, by their paths and in their order.
    Files(Items<(String, FileRefusal)>),
    /// Two classes have this escaped name.
    Duplicate(String),
    /// The class of this escaped name lies on a cycle of superclasses.
    Cycle(String),
    /// The analysis, the root, or the shown item, isn't there.
    Selection(String),
    /// There is more of what is named than the bound lets.
    Limit(LimitName, u64),
    /// Memory ran out.
    Memory,
}

impl From<AllocError> for Refusal {
    ghost use Rattle.fp_top.specs.declared.refusal.Refusal.TheVariants.{Memory};

    ghost from_gives = { λ _ refusal. refusal ≡ Memory };

    fn from(_: AllocError) -> Refusal {
        Refusal::Memory
    }
}

impl From<LoadFault> for Refusal {
    ghost use Rattle.fp_top.specs.Refusal.{IsOfLoad};

    ghost from_gives = { IsOfLoad };

    fn from(fault: LoadFault) -> Refusal {
        match fault {
            LoadFault::Read(path) => Refusal::Read(path),
            LoadFault::Limit(name, most) => Refusal::Limit(name, most),
            LoadFault::Refused(files) => Refusal::Files(files),
            LoadFault::Set(SetFault::Duplicate(name)) => Refusal::Duplicate(name),
            LoadFault::Set(SetFault::SuperCycle(name)) => Refusal::Cycle(name),
            LoadFault::Set(SetFault::Memory) | LoadFault::Memory => Refusal::Memory,
        }
    }
}

impl From<SystemFault> for Refusal {
    ghost use Rattle.fp_top.specs.Refusal.{IsOfSystem};

    ghost from_gives = { IsOfSystem };

    fn from(fault: SystemFault) -> Refusal {
        match fault {
            SystemFault::Analysis(name) => Refusal::Selection(name),
            SystemFault::Root(root) => Refusal::Selection(root),
            SystemFault::Show(item) => Refusal::Selection(item),
            SystemFault::Limit(name, most) => Refusal::Limit(name, most),
            SystemFault::Memory => Refusal::Memory,
        }
    }
}

/// The status of a refusal.
pub fn status_of(refusal: &Refusal) -> Status
    ensures { result ≡ spec.status_of refusal.now }
{
    match refusal {
        Refusal::Usage => Status::Usage,
        Refusal::Read(_) => Status::ReadFault,
        Refusal::Files(_) | Refusal::Duplicate(_) | Refusal::Cycle(_) => Status::Refused,
        Refusal::Selection(_) => Status::Selection,
        Refusal::Limit(..) => Status::Limit,
        Refusal::Memory => Status::Memory,
    }
}
