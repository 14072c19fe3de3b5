ghost use Rattle.std.specs.Prelude.{◌≡◌, ℕ, [], take, IsTrue, IsNone, IsSomeAnd, Some, OnOk, OnErr, IsErrOf};
ghost use Rattle.std.specs.Io.KnownBytes.{append_known};
ghost use Rattle.fp_base.specs.Counters.{one_more};
ghost use Rattle.fp_base.specs.Faults.{AppendsPart, HasSinkCause};
ghost use Rattle.fp_base.specs.MemSink.{after_fault, after_put, distinct_calls, kept_at};

use crate::outside::sink::{Sink, SinkFault};
use std::alloc::Global;
use std::marker::Model;

/// A sink that keeps its bytes in memory, and fails at the calls that its maker names.
#[derive(Drop)]
pub struct MemSink {
    bytes: Vec<u8>,
    failing: Vec<(u32, u32)>,
    calls: u64,
    faults: u64,
}

impl Model for MemSink {
    ghost use Rattle.fp_base.specs.MemSink.{MemSinkState};

    ghost Value = { MemSinkState };

    ghost view = { λ s. record { bytes = s.bytes.items; failing = s.failing.items; calls = s.calls; faults = s.faults } };
}

impl MemSink {
    /// An empty sink. A pair of `failing` is a call's number, from 0, and how many bytes of its piece that call keeps.
    pub fn new(alloc: Global, failing: Vec<(u32, u32)>) -> MemSink
        requires { IsTrue (distinct_calls failing.items) }
        ensures { result ≡ record { bytes = []; failing = failing.items; calls = 0; faults = 0 } }
    {
        MemSink {
            bytes: Vec::new(alloc),
            failing,
            calls: 0,
            faults: 0,
        }
    }

    /// The bytes that it has taken.
    pub fn bytes(&self) -> &[u8]
        ensures { result.now ≡ self.now.bytes }
    {
        self.bytes.as_slice()
    }
}

/// Whether no call's number stands in two pairs.
pub fn has_distinct_calls(failing: &[(u32, u32)]) -> bool
    ensures { result ≡ distinct_calls failing.now }
{
    for (i, pair) in failing.iter().enumerate() {
        if kept_bytes(&failing[i + 1..], u64::from(pair.0)).is_some() {
            return false;
        }
    }
    true
}

/// How many bytes of its piece a failing call keeps.
fn kept_bytes(failing: &[(u32, u32)], call: u64) -> Option<u32>
    ensures { result ≡ kept_at failing.now call }
{
    for pair in failing {
        if u64::from(pair.0) == call {
            return Some(pair.1);
        }
    }
    None
}

/// The first bytes of a piece, at most this many.
fn first_part(piece: &[u8], most: u32) -> &[u8]
    ensures { result.now ≡ take most piece.now }
{
    let most = most as usize;
    if piece.len() <= most {
        piece
    } else {
        &piece[..most]
    }
}

impl Sink for MemSink {
    ghost told = { λ s. Some s.bytes };

    ghost faults = { λ s. s.faults };

    fn put(&mut self, piece: &[u8]) -> Result<(), SinkFault>
        // Which calls fail, and what each answer leaves.
        ensures whole { OnOk result (self.new ≡ after_put self.old piece.now) }
        ensures no_failing_call { OnOk result (IsNone (kept_at self.old.failing self.old.calls)) }
        ensures failing_call { IsErrOf result SinkFault.Failed
            → IsSomeAnd (kept_at self.old.failing self.old.calls) (λ kept. self.new ≡ after_fault self.old (take kept piece.now)) }
        ensures memory { IsErrOf result SinkFault.Memory
            → self.new ≡ record self.old { calls = one_more self.old.calls } }

        // What each sink promises, where these don't say it.
        ensures prefix { OnErr result (AppendsPart (Some self.old.bytes) (Some self.new.bytes) piece.now) }
        ensures cause { HasSinkCause self.old.faults self.new.faults result }
    {
        let kept = kept_bytes(&self.failing, self.calls);
        self.calls = self.calls.saturating_add(1);
        let Some(kept) = kept else {
            self.bytes.extend_from_slice(piece)?;
            return Ok(());
        };
        self.bytes.extend_from_slice(first_part(piece, kept))?;
        self.faults = self.faults.saturating_add(1);
        Err(SinkFault::Failed)
    }
}
