ghost use Rattle.std.specs.Prelude.{◌≡◌, ℕ, ◌+◌, ◌<◌, ◌≤◌, ◌^◌, ◌++◌, false, true, length, map, filter, sum_by, IfOk, OnOk};
ghost use Rattle.fp_model.specs.SoundCode.{IsSoundCode, ascend_from_0, branches_to, pcs_of};
ghost use Rattle.fp_facts.specs.Edges as defined;
ghost use Rattle.fp_facts.specs.Edges.{edges_from, edges_of, next_edges};
ghost use Rattle.fp_flow.specs.EdgeCounts.{IsCount, covered_count, most_edges, plain_count};
ghost use Rattle.fp_flow.specs.Handlers.{handler_of, is_active};

mod handlers;
mod laws;
mod offsets;

use fp_model::{Code, Guard, Instr};
use handlers::{Handler, Near, handlers_of};
pub use laws::law_edges;
use offsets::{count_before, number_of, offsets_of};
use sqlite_items::Items;
use std::alloc::{AllocError, Global};
use std::slice;

/// The most edges of a code that are made. No code that a compiler writes comes near; a hostile file can ask for billions, and is
/// answered by want of memory before the machine is driven out of it.
pub const MOST_EDGES: u64 = 67_108_864;

/// The ways that control takes through a code (JVMS SE 21 section 4.10.2.2).
#[derive(Debug, Drop)]
pub struct Flow {
    /// Each edge, by the numbers of the instructions that it leads from and to, and whether it leads to an exception
    /// handler. They ascend by the first.
    pub edges: Items<(u32, u32, bool)>,
}

/// The edges of a code: from each instruction to the next one, to its branch targets, and to the handlers of the rows
/// that cover it.
///
/// They are counted before the first is made, since few rows over few instructions can ask for billions: more than [`MOST_EDGES`]
/// are answered by want of memory.
pub fn edges(alloc: Global, code: &Code) -> Result<Flow, AllocError>
    requires { IsSoundCode code.now }
    ensures edges { IfOk result (λ flow. flow.edges ≡ edges_of code.now) }
    ensures few { IfOk result (λ flow. length flow.edges ≤ 67108864) }
{
    let pcs = offsets_of(alloc, code)?;
    let count = count_edges(code, pcs.as_slice());
    if count > MOST_EDGES {
        return Err(AllocError);
    }
    let handlers = handlers_of(alloc, pcs.as_slice(), code.rows.as_slice())?;
    let edges = edges_by(
        alloc,
        code,
        pcs.as_slice(),
        handlers.as_slice(),
        count as usize,
    )?;
    Ok(Flow {
        edges: Items::from_vec(edges),
    })
}

// How many edges there are at most.
fn count_edges(code: &Code, pcs: &[u16]) -> u64
    requires { ascend_from_0 pcs.now ≡ true }
    ensures { IsCount result (most_edges code.now pcs.now) }
{
    count_plain(code).saturating_add(count_covered(code, pcs))
}

// How many edges lead to next instructions and to branch targets, where the last instruction counts as if there were a next one.
fn count_plain(code: &Code) -> u64
    ensures { IsCount result (sum_by plain_count code.now.instrs) }
{
    let mut count: u64 = 0;
    for placed in code.instrs.as_slice() {
        count = count.saturating_add(plain_edges(&placed.1));
    }
    count
}

// Those of one instruction.
fn plain_edges(instr: &Instr) -> u64
    ensures { (pc : ℕ) → result ≡ plain_count (pc, instr.now) }
{
    let next = u64::from(falls_through(instr));
    next + targets(instr).len() as u64
}

// How many edges lead to handlers.
fn count_covered(code: &Code, pcs: &[u16]) -> u64
    requires { ascend_from_0 pcs.now ≡ true }
    ensures { IsCount result (sum_by (covered_count pcs.now) code.now.rows) }
{
    let mut count: u64 = 0;
    for row in code.rows.as_slice() {
        count = count.saturating_add(covered_edges(pcs, row));
    }
    count
}

// Those of one row of the exception table.
fn covered_edges(pcs: &[u16], row: &Guard) -> u64
    requires { ascend_from_0 pcs.now ≡ true }
    ensures { result ≡ covered_count pcs.now row.now }
{
    let behind = count_before(pcs, row.end);
    behind.saturating_sub(count_before(pcs, row.start)) as u64
}

// The edges, by the offsets of the instructions and the handlers. There is room for so many at first.
fn edges_by(
    alloc: Global,
    code: &Code,
    pcs: &[u16],
    handlers: &[Handler],
    room: usize,
) -> Result<Vec<(u32, u32, bool)>, AllocError>
    requires sound { IsSoundCode code.now }
    requires pcs { pcs.now ≡ pcs_of code.now }
    requires handlers { handlers.now ≡ map (handler_of pcs.now) code.now.rows }
    ensures { IfOk result (λ edges. edges.items ≡ edges_of code.now) }
{
    let mut edges = Vec::with_capacity(alloc, room)?;
    let mut near = Near::nothing(alloc);
    for (k, placed) in code.instrs.as_slice().iter().enumerate() {
        near = near.at(alloc, handlers, pcs, k)?;
        let from = k as u32;
        push_from(
            &mut edges,
            code,
            pcs,
            from,
            placed,
            near.handlers.as_slice(),
        )?;
    }
    Ok(edges)
}

// Adds the edges from one instruction, which stands at an offset, by the handlers that may be active there.
fn push_from(
    edges: &mut Vec<(u32, u32, bool)>,
    code: &Code,
    pcs: &[u16],
    from: u32,
    placed: &(u16, Instr),
    near: &[Handler],
) -> Result<(), AllocError>
    requires next { from + 1 < 2 ^ 32 }
    requires pcs { pcs.now ≡ pcs_of code.now }
    requires ascend { ascend_from_0 pcs.now ≡ true }
    requires near { filter (is_active placed.now.0) near.now ≡ filter (is_active placed.now.0) (map (handler_of pcs.now) code.now.rows) }
    ensures { OnOk result (edges.new.items ≡ edges.old.items ++ edges_from code.now from placed.now) }
{
    push_next(edges, code, from, &placed.1)?;
    push_branches(edges, pcs, from, &placed.1)?;
    push_handlers(edges, from, placed.0, near)?;
    Ok(())
}

// Adds the edge to the next instruction, where there is one.
fn push_next(
    edges: &mut Vec<(u32, u32, bool)>,
    code: &Code,
    from: u32,
    instr: &Instr,
) -> Result<(), AllocError>
    requires { from + 1 < 2 ^ 32 }
    ensures { OnOk result (edges.new.items ≡ edges.old.items ++ next_edges code.now from instr.now) }
{
    let next = from + 1;
    if falls_through(instr) && (next as usize) < code.instrs.len() {
        edges.push((from, next, false))?;
    }
    Ok(())
}

// Adds the edges to the targets of a branch.
fn push_branches(
    edges: &mut Vec<(u32, u32, bool)>,
    pcs: &[u16],
    from: u32,
    instr: &Instr,
) -> Result<(), AllocError>
    requires { ascend_from_0 pcs.now ≡ true }
    ensures { OnOk result (edges.new.items
        ≡ edges.old.items ++ map (λ pc. (from, defined.number_at pcs.now pc, false)) (branches_to instr.now)) }
{
    for pc in targets(instr) {
        edges.push((from, number_of(pcs, *pc), false))?;
    }
    Ok(())
}

// Adds the edges to the handlers that are active at an offset.
fn push_handlers(
    edges: &mut Vec<(u32, u32, bool)>,
    from: u32,
    pc: u16,
    near: &[Handler],
) -> Result<(), AllocError>
    ensures { OnOk result (edges.new.items
        ≡ edges.old.items ++ map (λ h. (from, h.number, true)) (filter (is_active pc) near.now)) }
{
    for handler in near {
        if handler.is_active(pc) {
            edges.push((from, handler.number, true))?;
        }
    }
    Ok(())
}

// Whether control may go on to the next instruction.
fn falls_through(instr: &Instr) -> bool
    ensures { result ≡ defined.falls_through instr.now }
{
    !matches!(
        instr,
        Instr::Goto { .. } | Instr::Switch { .. } | Instr::Return { .. } | Instr::Throw
    )
}

// The offsets that an instruction may branch to.
fn targets(instr: &Instr) -> &[u16]
    ensures { result.now ≡ branches_to instr.now }
{
    match instr {
        Instr::If { to, .. } | Instr::Goto { to } => slice::from_ref(to),
        Instr::Switch { to } => to.as_slice(),
        _ => &[],
    }
}
