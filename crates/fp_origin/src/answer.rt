use fp_facts::OriginSet;
use sqlite_items::Items;
use std::alloc::AllocError;

/// The origins of the words of a code's frames.
#[derive(Drop)]
pub struct Origins {
    /// Those of each word of the frame before each instruction, the local variables and then the stack; none where no way
    /// leads there.
    pub frames: Items<Option<Items<OriginSet>>>,
}

/// Why a code has no origins.
#[derive(Clone, Copy, Debug, PartialEq, Eq)]
pub enum OriginFault {
    /// There are more pairs of a word and an origin than are told.
    Limit,
    /// There was no memory.
    Memory,
}

impl From<AllocError> for OriginFault {
    ghost use Rattle.std.specs.Prelude.{◌≡◌};
    ghost use Rattle.fp_origin.specs.declared.answer.OriginFault.TheVariants.{Memory};

    ghost from_gives = { λ _ fault. fault ≡ Memory };

    fn from(_error: AllocError) -> OriginFault {
        OriginFault::Memory
    }
}
