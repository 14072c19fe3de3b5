//! The candidates of calls, once for each reference.
ghost use Rattle.std.specs.Prelude.{◌≡◌, ◌<◌, ◌==◌, ◌||◌, false, [], ◌∷◌, ◌++◌, ℕ, length, slice_get, slice_index_or, option_and_then, if◌then◌else◌, IfOk, OnOk};
ghost use Rattle.std.specs.List.{flat_map};
ghost use Rattle.fp_facts.specs.Hierarchy.{has_number};
ghost use Rattle.fp_rta.specs.CallGraph.{candidates, setting, watched_at};
ghost use Rattle.fp_rta.specs.Listed as listed;
ghost use Rattle.fp_rta.specs.Listed.{places_at};
ghost use Rattle.fp_rta.specs.Places as places;

use crate::candidate::Candidate;
use crate::places::{inst_place, reach_place};
use fp_cells::Cells;
use fp_facts::CallTargets;
use fp_model::{ClassId, MethodId};
use sqlite_items::Items;
use std::alloc::{AllocError, Global};

/// The candidates of the calls of one reference, in the order of their bits.
pub(crate) fn candidates(
    alloc: Global,
    cells: &Cells,
    call: &CallTargets,
) -> Result<Vec<Candidate>, AllocError>
    ensures { IfOk result (λ ks. ks.items ≡ candidates cells.now call.now) }
{
    let targets = call.targets.as_slice();
    let bits = targets.len() + 1;
    let always = flags(alloc, bits, call.always.as_slice())?;
    let sources = sources(alloc, bits, cells, call.watch.as_slice())?;
    built(alloc, cells, always.as_slice(), targets, sources)
}

// The candidates by the flags of those that are always set, the targets, and the places of the classes that set each.
fn built(
    alloc: Global,
    cells: &Cells,
    always: &[bool],
    targets: &[MethodId],
    sources: Vec<Items<u32>>,
) -> Result<Vec<Candidate>, AllocError>
    ensures { IfOk result (λ ks. ks.items ≡ listed.built cells.now always.now targets.now 0 sources.items) }
{
    let mut candidates = Vec::with_capacity(alloc, sources.len())?;
    let mut bit = 0;
    for places in sources {
        candidates.push(Candidate {
            always: flag_at(always, bit),
            sources: places,
            target: target_at(cells, targets, bit),
        })?;
        bit += 1;
    }
    Ok(candidates)
}

// The place of the target of a bit; the bit of the outside has none.
fn target_at(cells: &Cells, targets: &[MethodId], bit: usize) -> Option<u32>
    ensures { result ≡ option_and_then (places.reach_place cells.now) (slice_get targets.now bit) }
{
    let method = targets.get(bit)?;
    reach_place(cells, *method)
}

// The flag of a bit.
fn flag_at(flags: &[bool], bit: usize) -> bool
    ensures { result ≡ slice_index_or flags.now bit false }
{
    match flags.get(bit) {
        Some(flag) => *flag,
        None => false,
    }
}

// Whether each of so many bits is one of these.
fn flags(alloc: Global, count: usize, bits: &[u32]) -> Result<Vec<bool>, AllocError>
    ensures long { IfOk result (λ flags. length flags.items ≡ count) }
    ensures flags { IfOk result (λ flags. (b : ℕ) → b < count → slice_index_or flags.items b false ≡ has_number bits.now b) }
{
    let mut flags = vec![in alloc; false; count]?;
    for bit in bits {
        set_flag(&mut flags, *bit as usize);
    }
    Ok(flags)
}

// Sets the flag of a bit, where there is such a bit.
fn set_flag(flags: &mut Vec<bool>, bit: usize)
    ensures long { length flags.new.items ≡ length flags.old.items }
    ensures flags { (b : ℕ) → b < length flags.old.items → slice_index_or flags.new.items b false ≡ (slice_index_or flags.old.items b false || bit == b) }
{
    if bit < flags.len() {
        flags[bit] = true;
    }
}

// The places of the classes that set each of so many bits.
fn sources(
    alloc: Global,
    count: usize,
    cells: &Cells,
    watch: &[(ClassId, Items<u32>)],
) -> Result<Vec<Items<u32>>, AllocError>
    ensures long { IfOk result (λ lists. length lists.items ≡ count) }
    ensures lists { IfOk result (λ lists. (b : ℕ) → b < count → places_at lists.items b ≡ setting cells.now b watch.now) }
{
    let mut lists = empty_lists(alloc, count)?;
    for (class, bits) in watch {
        add_watched(&mut lists, cells, *class, bits.as_slice())?;
    }
    Ok(lists)
}

// Adds the place of a class to the list of each bit that it sets.
fn add_watched(
    lists: &mut Vec<Items<u32>>,
    cells: &Cells,
    class: ClassId,
    bits: &[u32],
) -> Result<(), AllocError>
    ensures long { OnOk result (length lists.new.items ≡ length lists.old.items) }
    ensures lists { OnOk result ((b : ℕ) → b < length lists.old.items → places_at lists.new.items b ≡ places_at lists.old.items b ++ watched_at cells.now b (class, bits.now)) }
{
    match inst_place(cells, class) {
        Some(place) => add_to_bits(lists, bits, place),
        None => Ok(()),
    }
}

// So many lists without places.
fn empty_lists(alloc: Global, count: usize) -> Result<Vec<Items<u32>>, AllocError>
    ensures long { IfOk result (λ lists. length lists.items ≡ count) }
    ensures lists { IfOk result (λ lists. (b : ℕ) → places_at lists.items b ≡ []) }
{
    let mut lists = Vec::with_capacity(alloc, count)?;
    for _bit in 0..count {
        lists.push(Items::new(alloc))?;
    }
    Ok(lists)
}

// Adds a place to the list of each bit.
fn add_to_bits(lists: &mut Vec<Items<u32>>, bits: &[u32], place: u32) -> Result<(), AllocError>
    ensures long { OnOk result (length lists.new.items ≡ length lists.old.items) }
    ensures lists { OnOk result ((b : ℕ) → b < length lists.old.items → places_at lists.new.items b ≡ places_at lists.old.items b ++ flat_map (λ x. if x == b then place ∷ [] else []) bits.now) }
{
    for bit in bits {
        add_to_bit(lists, *bit as usize, place)?;
    }
    Ok(())
}

// Adds a place to the list of a bit, where there is such a bit.
fn add_to_bit(lists: &mut Vec<Items<u32>>, bit: usize, place: u32) -> Result<(), AllocError>
    ensures long { OnOk result (length lists.new.items ≡ length lists.old.items) }
    ensures lists { OnOk result ((b : ℕ) → b < length lists.old.items → places_at lists.new.items b ≡ places_at lists.old.items b ++ (if bit == b then place ∷ [] else [])) }
{
    if bit < lists.len() {
        lists[bit].push(place)?;
    }
    Ok(())
}
