use fp_model::{FileFault, LimitName, SetFault};
use sqlite_items::Items;
use std::alloc::AllocError;

/// Why a file is refused.
#[derive(Clone, Copy, Debug, PartialEq, Eq)]
pub enum FileRefusal {
    /// It is no class file.
    File(FileFault),
    /// The words of a method's frames have no kinds: the first such method, by its place in the file, and the first
    /// instruction there that can't take its frame, by its offset in the code, in bytes.
    Kinds { method: u32, pc: u16 },
}

/// Why nothing was loaded.
#[derive(Drop)]
pub enum LoadFault {
    /// The listing of a directory, or the reading of a file, failed at this path.
    Read(String),
    /// More than a limit lets, which follows.
    Limit(LimitName, u64),
    /// Files are refused, by their paths and in their order.
    Refused(Items<(String, FileRefusal)>),
    /// The classes are no sound set.
    Set(SetFault),
    /// Memory ran out.
    Memory,
}

impl From<AllocError> for LoadFault {
    ghost use Rattle.std.specs.Prelude.{◌≡◌};
    ghost use Rattle.fp_load.specs.declared.fault.LoadFault.TheVariants.{Memory};

    ghost from_gives = { λ _ fault. fault ≡ Memory };

    fn from(_: AllocError) -> LoadFault {
        LoadFault::Memory
    }
}

impl From<SetFault> for LoadFault {
    ghost use Rattle.fp_load.specs.Faults.{IsUnsound};

    ghost from_gives = { IsUnsound };

    fn from(why: SetFault) -> LoadFault {
        match why {
            SetFault::Memory => LoadFault::Memory,
            why => LoadFault::Set(why),
        }
    }
}
