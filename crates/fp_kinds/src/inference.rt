ghost use Rattle.std.specs.Prelude.{◌≡◌, ℕ, ◌≤◌, ◌<◌, Some, length, slice_get, slice_index_or, true, false, IfOk, IfErr, MatchOption};
ghost use Rattle.fp_model.specs.SoundCode.{IsSoundCode, IsSoundMethod};
ghost use Rattle.fp_facts.specs.Edges.{edges_of};
ghost use Rattle.fp_facts.specs.Kinded as kinded;
ghost use Rattle.fp_facts.specs.Sorts as sorts;
ghost use Rattle.fp_facts.specs.Transfer as transfer;
ghost use Rattle.fp_kinds.specs.Kinds.{AreFramesOf, AreKinds, AreLabels, FailsFirst, TellsFault, fails_by, frame_of, most_frame_words};
ghost use Rattle.fp_kinds.specs.Transfers.{transfers_of};

use crate::frame::{FrameKinds, KindFault, Kinds};
use crate::problem::{KindsProblem, label_behind};
use crate::transfer::Transfer;
use crate::transfers::transfers;
use fp_facts::Label;
use fp_flow::{Flow, argument_words, entry_label, first_labels, instr_count, result_words, solve};
use fp_model::{Code, Method, Sort};
use sqlite_items::Items;
use std::alloc::{AllocError, Global};

/// What the frames of a code are sought by.
#[derive(Clone, Copy)]
struct Sides<'c> {
    /// The words of the method's arguments.
    arguments: &'c [Sort],
    /// The words of its results.
    results: &'c [Sort],
    /// What each instruction does to frames.
    transfers: &'c [Transfer],
}

/// The most frame words of a code that is looked at.
pub const MOST_FRAME_WORDS: u64 = 4_194_304;

/// The words of all frames of a code: its instructions times the words of a whole frame.
pub fn frame_words(code: &Code) -> u64
    requires { IsSoundCode code.now }
    ensures { result ≡ kinded.frame_words code.now }
{
    u64::from(instr_count(code)) * (code.max_stack as u64 + code.max_locals as u64)
}

fn is_bad(label: &Label<Sort>) -> bool
    ensures { result ≡ transfer.is_bad label.now }
{
    matches!(label, Label::Bad)
}

/// Whether the instruction of a number fails, by the labels before the instructions.
fn fails(
    alloc: Global,
    code: &Code,
    results: &[Sort],
    transfers: &[Transfer],
    labels: &[Label<Sort>],
    number: usize,
) -> Result<bool, AllocError>
    requires told { transfers.now ≡ transfers_of code.now results.now }
    requires long { length labels.now ≡ length code.now.instrs }
    requires known { number < length code.now.instrs }
    ensures { IfOk result (λ fails. fails ≡ fails_by code.now results.now labels.now number) }
{
    let behind = label_behind(alloc, code, results, transfers, number, &labels[number])?;
    Ok(is_bad(&behind))
}

/// The number of the first instruction that fails, by the labels before the instructions.
fn first_failing(
    alloc: Global,
    code: &Code,
    results: &[Sort],
    transfers: &[Transfer],
    labels: &[Label<Sort>],
) -> Result<Option<u32>, AllocError>
    requires told { transfers.now ≡ transfers_of code.now results.now }
    requires long { length labels.now ≡ length code.now.instrs }
    requires sound { IsSoundCode code.now }
    ensures { IfOk result (λ found. MatchOption found
        ((number : ℕ) → number < length code.now.instrs → fails_by code.now results.now labels.now number ≡ false)
        (FailsFirst code.now results.now labels.now)) }
{
    for number in 0..instr_count(code) {
        if fails(alloc, code, results, transfers, labels, number as usize)? {
            return Ok(Some(number));
        }
    }
    Ok(None)
}

/// The frame of a label.
fn frame(label: Label<Sort>) -> Option<FrameKinds>
    ensures { result ≡ frame_of label }
{
    match label {
        Label::Frame { locals, stack } => Some(FrameKinds { locals, stack }),
        _ => None,
    }
}

/// The frames of labels.
fn frames(alloc: Global, labels: Vec<Label<Sort>>) -> Result<Kinds, AllocError>
    ensures { IfOk result (λ k. AreFramesOf labels.items k.frames) }
{
    let mut frames = Vec::with_capacity(alloc, labels.len())?;
    for label in labels {
        frames.push(frame(label))?;
    }
    Ok(Kinds {
        frames: Items::from_vec(frames),
    })
}

/// The label before each instruction of a method's code.
fn solved(
    alloc: Global,
    code: &Code,
    flow: &Flow,
    method: &Method,
    sides: Sides<'_>,
) -> Result<Vec<Label<Sort>>, AllocError>
    requires sound { IsSoundMethod method.now }
    requires code { method.now.code ≡ Some code.now }
    requires flow { flow.now.edges ≡ edges_of code.now }
    requires arguments { sides.arguments.now ≡ sorts.argument_words method.now }
    requires results { sides.results.now ≡ sorts.result_words method.now.kinds.result }
    requires told { sides.transfers.now ≡ transfers_of code.now sides.results.now }
    ensures long { IfOk result (λ v. length v.items ≡ length code.now.instrs) }
    ensures labels { IfOk result (λ v. AreLabels method.now code.now v.items) }
{
    let count = instr_count(code);
    let entry = entry_label(alloc, code, sides.arguments, Sort::Unset)?;
    let first = first_labels(alloc, entry, count as usize)?;
    let edges = flow.edges.as_slice();
    let problem = KindsProblem {
        code,
        arguments: sides.arguments,
        results: sides.results,
        edges,
        transfers: sides.transfers,
    };
    solve(alloc, &problem, edges, first)
}

/// The labels of a code as its frames, or the first instruction that fails.
#[tactic(auto, using(crate::proofs::Arguments::sound))]
fn judged(
    alloc: Global,
    code: &Code,
    method: &Method,
    sides: Sides<'_>,
    labels: Vec<Label<Sort>>,
) -> Result<Kinds, KindFault>
    requires few { kinded.frame_words code.now ≤ most_frame_words }
    requires sound { IsSoundMethod method.now }
    requires code { method.now.code ≡ Some code.now }
    requires results { sides.results.now ≡ sorts.result_words method.now.kinds.result }
    requires told { sides.transfers.now ≡ transfers_of code.now sides.results.now }
    requires long { length labels.items ≡ length code.now.instrs }
    requires labels { AreLabels method.now code.now labels.items }
    ensures kinds { IfOk result (AreKinds method.now code.now) }
    ensures fault { IfErr result (TellsFault method.now code.now) }
{
    match first_failing(
        alloc,
        code,
        sides.results,
        sides.transfers,
        labels.as_slice(),
    )? {
        Some(number) => Err(KindFault::Bad {
            pc: code.instrs.as_slice()[number as usize].0,
        }),
        None => Ok(frames(alloc, labels)?),
    }
}

/// The frame before each instruction of a method's code, by the least solution over the flow of control, or the first
/// instruction that can't take its frame (JVMS SE 21 section 4.10).
#[tactic(auto, using(crate::proofs::Arguments::sound))]
pub fn kinds(alloc: Global, code: &Code, flow: &Flow, method: &Method) -> Result<Kinds, KindFault>
    requires sound { IsSoundMethod method.now }
    requires code { method.now.code ≡ Some code.now }
    requires flow { flow.now.edges ≡ edges_of code.now }
    ensures kinds { IfOk result (AreKinds method.now code.now) }
    ensures fault { IfErr result (TellsFault method.now code.now) }
{
    if frame_words(code) > MOST_FRAME_WORDS {
        return Err(KindFault::Limit);
    }
    let arguments = argument_words(alloc, method)?;
    let results = result_words(alloc, method.kinds.result)?;
    let transfers = transfers(alloc, code, results.as_slice())?;
    let sides = Sides {
        arguments: arguments.as_slice(),
        results: results.as_slice(),
        transfers: transfers.as_slice(),
    };
    let labels = solved(alloc, code, flow, method, sides)?;
    judged(alloc, code, method, sides, labels)
}
