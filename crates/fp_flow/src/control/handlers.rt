//! Exception handlers by the numbers of the instructions that they begin at (JVMS SE 21 section 2.10).
ghost use Rattle.std.specs.Prelude.{◌≡◌, ℕ, ◌<◌, ◌≤◌, true, length, map, filter, IfOk};
ghost use Rattle.fp_model.specs.SoundCode.{ascend_from_0};
ghost use Rattle.fp_flow.specs.Handlers as defined;
ghost use Rattle.fp_flow.specs.Handlers.{HasActive, handler_of, is_near};

use super::offsets::number_of;
use fp_model::Guard;
use std::alloc::{AllocError, Global};

/// How many instructions share a list of the handlers that are near them.
const BLOCK: usize = 64;

/// A handler, and the offsets at which it is active, in bytes.
#[derive(Clone, Copy, Debug)]
pub struct Handler {
    pub start: u16,
    /// The first offset behind those.
    pub end: u16,
    /// The number of the instruction that it begins at.
    pub number: u32,
}

impl Handler {
    /// Whether it is active at an offset.
    pub fn is_active(&self, pc: u16) -> bool
        ensures { result ≡ defined.is_active pc self.now }
    {
        self.start <= pc && pc < self.end
    }

    // Whether it is active between two offsets, or at one of them.
    fn is_near(&self, first: u16, last: u16) -> bool
        ensures { result ≡ defined.is_near first last self.now }
    {
        self.start <= last && first < self.end
    }
}

/// The handlers of the rows of an exception table, in their order.
pub fn handlers_of(alloc: Global, pcs: &[u16], rows: &[Guard]) -> Result<Vec<Handler>, AllocError>
    requires { ascend_from_0 pcs.now ≡ true }
    ensures { IfOk result (λ handlers. handlers.items ≡ map (handler_of pcs.now) rows.now) }
{
    let mut handlers = Vec::with_capacity(alloc, rows.len())?;
    for row in rows {
        handlers.push(Handler {
            start: row.start,
            end: row.end,
            number: number_of(pcs, row.handler),
        })?;
    }
    Ok(handlers)
}

/// The handlers that may be active at the instructions of a block, in the order of the table. So a handler is looked at once for
/// each block, and once for each instruction of the blocks in which it is active.
#[derive(Drop)]
pub struct Near {
    pub handlers: Vec<Handler>,
    /// The number of the first instruction behind the block.
    pub until: usize,
}

impl Near {
    /// Those of no instruction.
    pub fn nothing(alloc: Global) -> Near
        ensures { result.until ≡ 0 }
    {
        Near {
            handlers: Vec::new(alloc),
            until: 0,
        }
    }

    /// Those of a block that has the instruction: the same, unless it stands behind their block.
    pub fn at(
        self,
        alloc: Global,
        handlers: &[Handler],
        pcs: &[u16],
        k: usize,
    ) -> Result<Near, AllocError>
        requires ascend { ascend_from_0 pcs.now ≡ true }
        requires within { k < length pcs.now }
        requires active { (j : ℕ) → k ≤ j → j < self.until → HasActive handlers.now pcs.now self.handlers.items j }
        ensures until { IfOk result (λ near. k < near.until) }
        ensures active { IfOk result (λ near. (j : ℕ) → k ≤ j → j < near.until → HasActive handlers.now pcs.now near.handlers.items j) }
    {
        if k < self.until {
            return Ok(self);
        }
        let until = pcs.len().min(k.saturating_add(BLOCK));
        let handlers = all_near(alloc, handlers, pcs[k], pcs[until - 1])?;
        Ok(Near { handlers, until })
    }
}

// The handlers that are active between two offsets, or at one of them.
fn all_near(
    alloc: Global,
    handlers: &[Handler],
    first: u16,
    last: u16,
) -> Result<Vec<Handler>, AllocError>
    ensures { IfOk result (λ near. near.items ≡ filter (is_near first last) handlers.now) }
{
    let mut near = Vec::new(alloc);
    for handler in handlers {
        if handler.is_near(first, last) {
            near.push(*handler)?;
        }
    }
    Ok(near)
}
