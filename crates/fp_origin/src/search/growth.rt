//! The sets of origins of the words of frames, which grow by a group of origins at a time.
ghost use Rattle.std.specs.Prelude.{◌≡◌, ◌<◌, ◌==◌, ◌%◌, ◌++◌, [], ◌∷◌, if◌then◌else◌, length, map, slice_get, slice_index_or, slice_set, IfOk, OnOk};
ghost use Rattle.std.specs.Option.{option_map_or};
ghost use Rattle.fp_facts.specs.Origins as words;
ghost use Rattle.fp_origin.specs.Growth as defined;

use super::lowest::low_zeros;
use fp_facts::{Label, Origin, OriginSet};
use sqlite_items::{Items, at};
use std::alloc::{AllocError, Global};
use std::marker::Model;

/// The set of origins of each word of a frame.
#[derive(Drop)]
pub(crate) struct WordSets {
    sets: Vec<OriginSet>,
}

impl Model for WordSets {
    ghost use Rattle.std.specs.Prelude.{List};
    ghost use Rattle.fp_facts.specs.declared.origin.Origin.{Origin};

    ghost Value = { List (List Origin) };

    ghost view = { λ w. w.sets.items };
}

impl WordSets {
    // The origins of a group that the local variables and the stack of a frame tell.
    fn told(
        alloc: Global,
        locals: &[u64],
        stack: &[u64],
        group: &[Origin],
    ) -> Result<WordSets, AllocError>
        ensures { IfOk result (λ w. w ≡ map (defined.chosen group.now) (locals.now ++ stack.now)) }
    {
        let count = locals.len().saturating_add(stack.len());
        let mut sets = Vec::with_capacity(alloc, count)?;
        push_told(alloc, &mut sets, locals, group)?;
        push_told(alloc, &mut sets, stack, group)?;
        Ok(WordSets { sets })
    }

    // The sets with the origins of a group that a label tells.
    #[tactic(auto, using(crate::proofs::Growing::growing))]
    fn grown(self, label: &Label<u64>, group: &[Origin]) -> Result<WordSets, AllocError>
        ensures { IfOk result (λ w. w ≡ defined.grown_sets group.now (words.label_words label.now) self) }
    {
        match label {
            Label::Frame { locals, stack } => {
                let WordSets { mut sets } = self;
                grow_sets(&mut sets, locals.as_slice(), stack.as_slice(), group)?;
                Ok(WordSets { sets })
            }
            Label::Unreached | Label::Bad => Ok(self),
        }
    }

    // The sets as a list.
    fn into_items(self) -> Items<OriginSet>
        ensures { result ≡ self }
    {
        let WordSets { sets } = self;
        Items::from_vec(sets)
    }
}

// Adds a set for each word, of the origins of a group that it tells.
fn push_told(
    alloc: Global,
    sets: &mut Vec<OriginSet>,
    words: &[u64],
    group: &[Origin],
) -> Result<(), AllocError>
    ensures { OnOk result (sets.new.items ≡ sets.old.items ++ map (defined.chosen group.now) words.now) }
{
    for word in words {
        sets.push(told_set(alloc, *word, group)?)?;
    }
    Ok(())
}

// The origins of a group that a word tells.
fn told_set(alloc: Global, word: u64, group: &[Origin]) -> Result<OriginSet, AllocError>
    ensures { IfOk result (λ s. s ≡ defined.chosen group.now word) }
{
    let mut set = OriginSet::new(alloc);
    push_chosen(&mut set, group, word)?;
    Ok(set)
}

// Adds the origins of a group whose bits are set in a word, the lowest for the first of the group.
fn push_chosen(set: &mut OriginSet, group: &[Origin], word: u64) -> Result<(), AllocError>
    ensures { OnOk result (set.new ≡ set.old ++ defined.chosen group.now word) }
{
    let first = low_zeros(word, group);
    push_from(set, &group[first as usize..], word >> first)
}

// Adds them from the lowest bit on.
fn push_from(set: &mut OriginSet, group: &[Origin], word: u64) -> Result<(), AllocError>
    ensures { OnOk result (set.new ≡ set.old ++ defined.chosen group.now word) }
{
    let mut rest = word;
    for origin in group {
        if rest == 0 {
            return Ok(());
        }
        push_lowest(set, *origin, rest)?;
        rest /= 2;
    }
    Ok(())
}

// Adds an origin where the lowest bit of a word is set.
fn push_lowest(set: &mut OriginSet, origin: Origin, word: u64) -> Result<(), AllocError>
    ensures { OnOk result (set.new ≡ set.old ++ (if word % 2 == 1 then origin ∷ [] else [])) }
{
    if word % 2 == 1 {
        set.push(origin)?;
    }
    Ok(())
}

// The word of a frame at a place, none of whose bits is set where there is no word.
fn word_of(locals: &[u64], stack: &[u64], place: usize) -> u64
    ensures { result ≡ slice_index_or (locals.now ++ stack.now) place 0 }
{
    if place < locals.len() {
        locals[place]
    } else {
        stack.get(place - locals.len()).copied().unwrap_or(0)
    }
}

// Adds what a word tells to the set at a place.
fn grow_set(
    sets: &mut Vec<OriginSet>,
    place: usize,
    word: u64,
    group: &[Origin],
) -> Result<(), AllocError>
    requires { place < length sets.old.items }
    ensures { OnOk result (sets.new.items ≡ slice_set sets.old.items place (slice_index_or sets.old.items place [] ++ defined.chosen group.now word)) }
{
    if word == 0 {
        return Ok(());
    }
    push_chosen(&mut sets[place], group, word)
}

// Adds what the words of a frame tell to their sets, in place: most words tell nothing.
fn grow_sets(
    sets: &mut Vec<OriginSet>,
    locals: &[u64],
    stack: &[u64],
    group: &[Origin],
) -> Result<(), AllocError>
    ensures { OnOk result (sets.new.items ≡ defined.grown_sets group.now (locals.now ++ stack.now) sets.old.items) }
{
    for place in 0..sets.len() {
        grow_set(sets, place, word_of(locals, stack, place), group)?;
    }
    Ok(())
}

/// The frames with the origins of the first group that the labels tell.
pub(crate) fn first_frames(
    alloc: Global,
    labels: &[Label<u64>],
    group: &[Origin],
) -> Result<Vec<Option<WordSets>>, AllocError>
    ensures { IfOk result (λ v. v.items ≡ map (defined.first_frame group.now) labels.now) }
{
    let mut frames = Vec::with_capacity(alloc, labels.len())?;
    for label in labels {
        frames.push(first_frame(alloc, label, group)?)?;
    }
    Ok(frames)
}

fn first_frame(
    alloc: Global,
    label: &Label<u64>,
    group: &[Origin],
) -> Result<Option<WordSets>, AllocError>
    ensures { IfOk result (λ frame. frame ≡ defined.first_frame group.now label.now) }
{
    match label {
        Label::Frame { locals, stack } => Ok(Some(WordSets::told(
            alloc,
            locals.as_slice(),
            stack.as_slice(),
            group,
        )?)),
        Label::Unreached | Label::Bad => Ok(None),
    }
}

// The frame with the origins of a group that its label tells.
fn grown_frame(
    frame: Option<WordSets>,
    label: &Label<u64>,
    group: &[Origin],
) -> Result<Option<WordSets>, AllocError>
    ensures { IfOk result (λ f. f ≡ defined.grown_frame group.now label.now frame) }
{
    match frame {
        Some(sets) => Ok(Some(sets.grown(label, group)?)),
        None => Ok(None),
    }
}

// The frame with what the label tells that stands at a number, where there is one.
fn grown_at(
    frame: Option<WordSets>,
    labels: &[Label<u64>],
    number: usize,
    group: &[Origin],
) -> Result<Option<WordSets>, AllocError>
    ensures { IfOk result (λ f. f ≡ option_map_or (λ label. defined.grown_frame group.now label frame) (slice_get labels.now number) frame) }
{
    match at(labels, number) {
        Some(label) => grown_frame(frame, label, group),
        None => Ok(frame),
    }
}

/// The frames with the origins of a group that the labels tell.
pub(crate) fn grown_frames(
    alloc: Global,
    frames: Vec<Option<WordSets>>,
    labels: &[Label<u64>],
    group: &[Origin],
) -> Result<Vec<Option<WordSets>>, AllocError>
    ensures { IfOk result (λ v. v.items ≡ defined.grown_frames group.now labels.now frames.items) }
{
    let mut grown = Vec::with_capacity(alloc, frames.len())?;
    let mut number = 0;
    for frame in frames {
        grown.push(grown_at(frame, labels, number, group)?)?;
        number += 1;
    }
    Ok(grown)
}

/// The frames as a list.
pub(crate) fn as_items(
    alloc: Global,
    frames: Vec<Option<WordSets>>,
) -> Result<Items<Option<Items<OriginSet>>>, AllocError>
    ensures { IfOk result (λ list. list ≡ frames.items) }
{
    let mut list = Vec::with_capacity(alloc, frames.len())?;
    for frame in frames {
        list.push(frame_items(frame))?;
    }
    Ok(Items::from_vec(list))
}

fn frame_items(frame: Option<WordSets>) -> Option<Items<OriginSet>>
    ensures { result ≡ frame }
{
    match frame {
        Some(sets) => Some(sets.into_items()),
        None => None,
    }
}
