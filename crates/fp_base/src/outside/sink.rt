ghost use Rattle.std.specs.Prelude.{◌≡◌, ℕ, List, Option, OnOk, OnErr, IsErrOf};
ghost use Rattle.std.specs.Io.KnownBytes.{append_known};
ghost use Rattle.fp_base.specs.Faults.{AppendsPart, HasSinkCause};
ghost use Rattle.fp_base.specs.declared.outside.sink.SinkFault.TheVariants.{Memory};

use std::alloc::AllocError;

/// Why a [`Sink`] didn't take a piece whole.
#[derive(Debug, Clone, Copy, PartialEq, Eq)]
pub enum SinkFault {
    /// The outside failed. A first part of the piece was taken.
    Failed,
    /// Memory ran out. Nothing of the piece was taken.
    Memory,
}

impl From<AllocError> for SinkFault {
    ghost from_gives = { λ _ fault. fault ≡ Memory };

    fn from(_: AllocError) -> SinkFault {
        SinkFault::Memory
    }
}

/// A place that takes bytes in order. An implementation may tell what it has taken.
pub trait Sink {
    // The bytes that it has taken, where it tells them.
    ghost told: { Self → Option (List ℕ) };

    // How often it failed. The count stands still at the last value of a `u64`.
    ghost faults: { Self → ℕ };

    /// Takes the piece whole, or fails.
    fn put(&mut self, piece: &[u8]) -> Result<(), SinkFault>
        ensures whole { OnOk result (told self.new ≡ append_known (told self.old) piece.now) }
        ensures prefix { OnErr result (AppendsPart (told self.old) (told self.new) piece.now) }
        ensures memory { IsErrOf result SinkFault.Memory → told self.new ≡ told self.old }
        ensures cause { HasSinkCause (faults self.old) (faults self.new) result };
}
