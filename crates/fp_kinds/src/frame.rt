use fp_model::Sort;
use sqlite_items::Items;
use std::alloc::AllocError;

/// The kinds of the words of a frame.
#[derive(Debug, Drop)]
pub struct FrameKinds {
    /// Those of the local variables.
    pub locals: Items<Sort>,
    /// Those of the operand stack, the lowest first.
    pub stack: Items<Sort>,
}

/// The frames of a code.
#[derive(Debug, Drop)]
pub struct Kinds {
    /// The frame before each instruction, none where no way leads there.
    pub frames: Items<Option<FrameKinds>>,
}

/// Why a code has no kinds.
#[derive(Clone, Copy, Debug, PartialEq, Eq)]
pub enum KindFault {
    /// The first instruction that is reached by a frame which it can't take, by its offset in the code, in bytes.
    Bad { pc: u16 },
    /// There are more frame words than are looked at.
    Limit,
    /// There was no memory.
    Memory,
}

impl From<AllocError> for KindFault {
    ghost use Rattle.std.specs.Prelude.{◌≡◌};
    ghost use Rattle.fp_kinds.specs.declared.frame.KindFault.TheVariants.{Memory};

    ghost from_gives = { λ _ fault. fault ≡ Memory };

    fn from(_error: AllocError) -> KindFault {
        KindFault::Memory
    }
}
