ghost use Rattle.std.specs.Prelude.{◌≡◌, ◌+◌, ◌≤◌, ◌<◌, ◌++◌, Some, length, map, take, IfOk, IfErr};
ghost use Rattle.fp_model.specs.SoundCode.{IsSoundMethod};
ghost use Rattle.fp_facts.specs.Edges.{edges_of};
ghost use Rattle.fp_facts.specs.Kinded.{IsKindedCode};
ghost use Rattle.fp_origin.specs.Answers.{AreOrigins, TellsFault, most_origin_pairs};
ghost use Rattle.fp_origin.specs.Growth as defined;

mod growth;
mod lowest;
mod room;

use crate::answer::{OriginFault, Origins};
use crate::group::group_labels;
use crate::numbering::all_origins;
use fp_facts::{Label, Origin};
use fp_flow::Flow;
use fp_model::{Code, Method};
use growth::{WordSets, as_items, first_frames, grown_frames};
use room::room_after;
use std::alloc::Global;

/// The most pairs of a frame word and an origin that are told.
pub const MOST_ORIGIN_PAIRS: u64 = 16_777_216;

/// How many origins a word of 64 bits tells of.
const GROUP: usize = 64;

/// The frames as far as some origins say, and the room that is left for pairs.
#[derive(Drop)]
struct Gathered {
    frames: Vec<Option<WordSets>>,
    room: u64,
}

/// The origins of each word before each instruction of a method's code, by the least solution over the flow of control.
pub fn origins(
    alloc: Global,
    code: &Code,
    flow: &Flow,
    method: &Method,
) -> Result<Origins, OriginFault>
    requires sound { IsSoundMethod method.now }
    requires code { method.now.code ≡ Some code.now }
    requires kinded { IsKindedCode method.now code.now }
    requires flow { flow.now.edges ≡ edges_of code.now }
    ensures origins { IfOk result (AreOrigins method.now code.now) }
    ensures fault { IfErr result (TellsFault method.now code.now) }
{
    let all = all_origins(alloc, code, method)?;
    let gathered = grown_by_all(alloc, code, flow, method, all.as_slice())?;
    Ok(Origins {
        frames: as_items(alloc, gathered.frames)?,
    })
}

// The frames as far as all of these origins say, by one group of them after the other.
fn grown_by_all(
    alloc: Global,
    code: &Code,
    flow: &Flow,
    method: &Method,
    all: &[Origin],
) -> Result<Gathered, OriginFault>
    requires sound { IsSoundMethod method.now }
    requires code { method.now.code ≡ Some code.now }
    requires kinded { IsKindedCode method.now code.now }
    requires flow { flow.now.edges ≡ edges_of code.now }
    ensures grown { IfOk result (λ g. defined.IsGrown method.now code.now all.now g.frames.items g.room) }
    ensures fault { IfErr result (defined.TellsNoRoom most_origin_pairs (defined.pairs_among method.now code.now all.now)) }
{
    let mut at = all.len().min(GROUP);
    let mut gathered = first_group(alloc, code, flow, method, all, at)?;
    while at < all.len() {
        let end = at.saturating_add(GROUP).min(all.len());
        gathered = next_group(alloc, code, flow, method, gathered, all, at, end)?;
        at = end;
    }
    Ok(gathered)
}

// The frames as far as the first group says.
fn first_group(
    alloc: Global,
    code: &Code,
    flow: &Flow,
    method: &Method,
    all: &[Origin],
    end: usize,
) -> Result<Gathered, OriginFault>
    requires sound { IsSoundMethod method.now }
    requires code { method.now.code ≡ Some code.now }
    requires kinded { IsKindedCode method.now code.now }
    requires flow { flow.now.edges ≡ edges_of code.now }
    requires within { end ≤ length all.now }
    requires few { end ≤ 64 }
    ensures grown { IfOk result (λ g. defined.IsGrown method.now code.now (take end all.now) g.frames.items g.room) }
    ensures fault { IfErr result (defined.TellsNoRoom most_origin_pairs (defined.pairs_among method.now code.now all.now)) }
{
    let group = &all[..end];
    let labels = group_labels(alloc, code, flow, method, group)?;
    begun_by(alloc, labels.as_slice(), group)
}

// The frames as far as one group more says, which ends before a place.
fn next_group(
    alloc: Global,
    code: &Code,
    flow: &Flow,
    method: &Method,
    gathered: Gathered,
    all: &[Origin],
    at: usize,
    end: usize,
) -> Result<Gathered, OriginFault>
    requires sound { IsSoundMethod method.now }
    requires code { method.now.code ≡ Some code.now }
    requires kinded { IsKindedCode method.now code.now }
    requires flow { flow.now.edges ≡ edges_of code.now }
    requires behind { at ≤ end }
    requires within { end ≤ length all.now }
    requires few { end ≤ at + 64 }
    requires grown { defined.IsGrown method.now code.now (take at all.now) gathered.frames.items gathered.room }
    ensures grown { IfOk result (λ g. defined.IsGrown method.now code.now (take end all.now) g.frames.items g.room) }
    ensures fault { IfErr result (defined.TellsNoRoom most_origin_pairs (defined.pairs_among method.now code.now all.now)) }
{
    let group = &all[at..end];
    let labels = group_labels(alloc, code, flow, method, group)?;
    let Gathered { frames, room } = gathered;
    grown_by(alloc, frames, room, labels.as_slice(), group)
}

// The frames with the origins of the first group that the labels tell. Their pairs are counted before any is made.
fn begun_by(alloc: Global, labels: &[Label<u64>], group: &[Origin]) -> Result<Gathered, OriginFault>
    ensures frames { IfOk result (λ g. g.frames.items ≡ map (defined.first_frame group.now) labels.now) }
    ensures room { IfOk result (λ g. g.room + defined.group_pairs group.now labels.now ≡ most_origin_pairs) }
    ensures fault { IfErr result (defined.TellsNoRoom most_origin_pairs (defined.group_pairs group.now labels.now)) }
{
    let room = room_left(MOST_ORIGIN_PAIRS, labels, group)?;
    let frames = first_frames(alloc, labels, group)?;
    Ok(Gathered { frames, room })
}

// The room for pairs that is left behind a group, by the labels of its words.
fn room_left(room: u64, labels: &[Label<u64>], group: &[Origin]) -> Result<u64, OriginFault>
    ensures room { IfOk result (λ left. left + defined.group_pairs group.now labels.now ≡ room) }
    ensures fault { IfErr result (defined.TellsNoRoom room (defined.group_pairs group.now labels.now)) }
{
    match room_after(room, labels, group) {
        Some(left) => Ok(left),
        None => Err(OriginFault::Limit),
    }
}

// The frames with the origins of a group that the labels tell. Their pairs are counted before any is made.
fn grown_by(
    alloc: Global,
    frames: Vec<Option<WordSets>>,
    room: u64,
    labels: &[Label<u64>],
    group: &[Origin],
) -> Result<Gathered, OriginFault>
    ensures frames { IfOk result (λ g. g.frames.items ≡ defined.grown_frames group.now labels.now frames.items) }
    ensures room { IfOk result (λ g. g.room + defined.group_pairs group.now labels.now ≡ room) }
    ensures fault { IfErr result (defined.TellsNoRoom room (defined.group_pairs group.now labels.now)) }
{
    let room = room_left(room, labels, group)?;
    let frames = grown_frames(alloc, frames, labels, group)?;
    Ok(Gathered { frames, room })
}
