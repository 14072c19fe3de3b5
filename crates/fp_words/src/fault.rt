ghost use Rattle.std.specs.Prelude.{◌≡◌};
ghost use Rattle.fp_words.specs.declared.fault.WordsFault.TheVariants.{Memory};

use std::alloc::AllocError;
use thiserror::Error;

/// Why words were not read.
#[derive(Clone, Copy, Debug, PartialEq, Eq, Error)]
pub enum WordsFault {
    /// The words are not of the grammar.
    #[error("the words are not of the grammar")]
    Usage,
    /// There was no memory to read them.
    #[error("out of memory")]
    Memory,
}

impl From<AllocError> for WordsFault {
    ghost from_gives = { λ _ fault. fault ≡ Memory };

    fn from(_error: AllocError) -> WordsFault {
        WordsFault::Memory
    }
}
