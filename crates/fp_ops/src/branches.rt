//! Where branches lead (JVMS SE 21 section 4.9.1). Places are offsets in the code.
ghost use Rattle.std.specs.Prelude.{◌≡◌, ◌^◌, ◌<◌, ◌≤◌, ◌+◌, ◌*◌, ℕ, IfOk, false, length, slice_index_or, slice_get};
ghost use Rattle.std.specs.Int.{w16, w32};
ghost use Rattle.std.specs.List.{flat_map, list_all};
ghost use Rattle.fp_model.specs.Reading.{Gives, number_at};
ghost use Rattle.fp_model.specs.Spelling.{spelled_ins};
ghost use Rattle.fp_model.specs.Entries.{passes};
ghost use Rattle.fp_model.specs.Form.{form_of};
ghost use Rattle.fp_model.specs.Branches.{far_target, far_targets, leads_to, moved, near_target, starts_at, targets_checked, targets_of};
ghost use Rattle.fp_ops.specs.Marks.{is_marked};

use crate::forms::operands_of;
use fp_model::{FileFault, Form, RawIns};
use std::alloc::{AllocError, Global};

/// How many bytes an instruction takes.
fn size(ins: &RawIns) -> u32
    requires { length (spelled_ins ins.now) < 2 ^ 32 }
    ensures { result ≡ length (spelled_ins ins.now) }
{
    let wide = if ins.wide { 1 } else { 0 };
    wide + 1 + ins.padding.len() as u32 + ins.args.len() as u32
}

/// How many bytes instructions take.
fn total_size(code: &[RawIns]) -> u32
    requires { length (flat_map spelled_ins code.now) < 2 ^ 32 }
    ensures { result ≡ length (flat_map spelled_ins code.now) }
{
    let mut total = 0;
    for ins in code {
        total += size(ins);
    }
    total
}

/// Which places are those where an instruction begins.
pub fn starts(alloc: Global, code: &[RawIns]) -> Result<Vec<bool>, AllocError>
    requires { length (flat_map spelled_ins code.now) < 2 ^ 32 }
    ensures { IfOk result (λ marks. (place : ℕ) → is_marked marks.items place ≡ starts_at 0 code.now place) }
{
    let mut marks = vec![in alloc; false; total_size(code) as usize]?;
    let mut pc = 0;
    for ins in code {
        marks[pc] = true;
        pc += size(ins) as usize;
    }
    Ok(marks)
}

/// The place at a distance of two bytes, which the operands begin with.
#[tactic(auto, unfolding(fp_model::specs::Reading::number_at))]
pub fn near(pc: u32, args: &[u8]) -> Option<u64>
    ensures { result ≡ near_target pc args.now 0 }
{
    if args.len() < 2 {
        return None;
    }
    place(0x8000, pc, u16::from_be_bytes([args[0], args[1]]) as u32)
}

/// The place at a distance of four bytes, which stands at an offset in the operands.
#[tactic(auto, unfolding(fp_model::specs::Reading::number_at))]
pub fn far(pc: u32, args: &[u8], at: usize) -> Option<u64>
    requires { at + 4 < 2 ^ 64 }
    ensures { result ≡ far_target pc args.now at }
{
    if at + 4 > args.len() {
        return None;
    }
    let distance = u32::from_be_bytes([args[at], args[at + 1], args[at + 2], args[at + 3]]);
    place(0x8000_0000, pc, distance)
}

/// The place at a signed distance, as a number that is negative from `half` on; none before the code.
fn place(half: u32, pc: u32, distance: u32) -> Option<u64>
    ensures { result ≡ moved half pc (Ok (distance, 0)) }
{
    let sum = pc as u64 + distance as u64;
    if distance < half {
        Some(sum)
    } else {
        sum.checked_sub(2 * half as u64)
    }
}

/// Whether a place is marked.
fn is_start(marks: &[bool], place: Option<u64>) -> bool
    ensures { result ≡ passes (is_marked marks.now) place }
{
    match place {
        Some(place) => place < marks.len() as u64 && marks[place as usize],
        None => false,
    }
}

/// Whether so many places are marked, whose distances stand from the offset 12 on, each so many bytes on.
fn all_starts(marks: &[bool], pc: u32, step: usize, args: &[u8], count: usize) -> bool
    requires short { 12 + step * count < 2 ^ 63 }
    requires positive { 4 ≤ step }
    ensures { result ≡ list_all (passes (is_marked marks.now)) (far_targets pc step args.now count 12) }
{
    let mut at = 12;
    for _left in 0..count {
        if !is_start(marks, far(pc, args, at)) {
            return false;
        }
        at += step;
    }
    true
}

/// Whether an instruction leads to marked places alone.
#[tactic(auto, unfolding(fp_model::specs::Branches::targets_of))]
fn leads_to_starts(marks: &[bool], pc: u32, ins: &RawIns) -> bool
    ensures { result ≡ leads_to (is_marked marks.now) pc ins.now }
{
    let args = ins.args.as_slice();
    match operands_of(ins.op) {
        Form::Branch(2) => is_start(marks, near(pc, args)),
        Form::Branch(_) => is_start(marks, far(pc, args, 0)),
        Form::TableSwitch => {
            is_start(marks, far(pc, args, 0))
                && all_starts(marks, pc, 4, args, args.len().saturating_sub(12) / 4)
        }
        Form::LookupSwitch => {
            is_start(marks, far(pc, args, 0))
                && all_starts(marks, pc, 8, args, args.len().saturating_sub(8) / 8)
        }
        _ => true,
    }
}

/// Checks that each branch of a code that begins at an offset leads to an instruction of the code.
pub fn check_targets(alloc: Global, code: &[RawIns], at: u32) -> Result<(), FileFault>
    requires { at + length (flat_map spelled_ins code.now) < 2 ^ 32 }
    // The first instruction that leads elsewhere is told, by its offset.
    ensures { Gives result (targets_checked code.now at) }
{
    let marks = starts(alloc, code)?;
    check_each(marks.as_slice(), code, at)
}

fn check_each(marks: &[bool], code: &[RawIns], at: u32) -> Result<(), FileFault>
    requires fits { at + length (flat_map spelled_ins code.now) < 2 ^ 32 }
    requires marks { (place : ℕ) → is_marked marks.now place ≡ starts_at 0 code.now place }
    ensures { Gives result (targets_checked code.now at) }
{
    let mut next = at;
    for ins in code {
        if !leads_to_starts(marks, next - at, ins) {
            return Err(FileFault::Bounds { at: next });
        }
        next += size(ins);
    }
    Ok(())
}
