//! The bits of what a call reaches.
ghost use Rattle.std.specs.Prelude.{◌≡◌, ℕ, ◌<◌, ◌^◌, [], ◌∷◌, ◌++◌, not, filter, length, map, IfOk, OnOk};
ghost use Rattle.std.specs.List.{flat_map};
ghost use Rattle.std.specs.List.Sorted.{IsStrictlyIncreasing};
ghost use Rattle.std.specs.Option.{option_to_list};
ghost use Rattle.fp_facts.specs.Hierarchy.{has_number};
ghost use Rattle.fp_facts.specs.Selection.{Candidates, all_reached, bits_of};
ghost use Rattle.fp_hier.specs.Bits.{AreToldTargets, as_candidates, as_reached, bits_without, has_bits, place_in};
ghost use Rattle.fp_hier.specs.Targets.{AreCallTargets, AreTargets, AreTargetsByClass};

use crate::targets::Targets;
use fp_facts::CallTargets;
use fp_model::{ClassId, MethodId};
use sqlite_items::Items;
use std::alloc::{AllocError, Global};

/// The targets of a call by what it reaches whatever classes have objects, and by the objects of each class.
pub(crate) fn call_targets(
    alloc: Global,
    always: Targets,
    by_class: Vec<(ClassId, Targets)>,
) -> Result<CallTargets, AllocError>
    ensures { IfOk result
        (λ t. (methods : ℕ) (c : Candidates) → AreTargets methods c.always always
        → AreTargetsByClass methods c.by_class by_class.items → AreCallTargets methods c t) }
{
    told_targets(alloc, &always, by_class.as_slice())
}

// The same for lists of methods in any order.
fn told_targets(
    alloc: Global,
    always: &Targets,
    by_class: &[(ClassId, Targets)],
) -> Result<CallTargets, AllocError>
    ensures { IfOk result (AreToldTargets (as_candidates always.now by_class.now)) }
{
    let targets = ascending(all_methods(alloc, always, by_class)?);
    if targets.len() > u32::MAX as usize {
        return Err(AllocError);
    }
    let always_bits = reached_bits(alloc, targets.as_slice(), always)?;
    let watch = watched(alloc, targets.as_slice(), always_bits.as_slice(), by_class)?;
    Ok(CallTargets {
        targets: Items::from_vec(targets),
        always: Items::from_vec(always_bits),
        watch: Items::from_vec(watch),
    })
}

/// Numbers, ascending and each once. Takes no memory.
pub fn ascending(mut numbers: Vec<u32>) -> Vec<u32>
    ensures rising { IsStrictlyIncreasing result.items }
    ensures members { (n : ℕ) → has_number result.items n ≡ has_number numbers.items n }
{
    numbers.sort_unstable();
    numbers.dedup();
    numbers
}

// All methods that can be reached, one list behind the other.
fn all_methods(
    alloc: Global,
    always: &Targets,
    by_class: &[(ClassId, Targets)],
) -> Result<Vec<MethodId>, AllocError>
    ensures { IfOk result
        (λ methods. methods.items ≡ all_reached (as_candidates always.now by_class.now)) }
{
    let mut methods = Vec::new(alloc);
    methods.extend_from_slice(always.methods.as_slice())?;
    for (_, reached) in by_class {
        methods.extend_from_slice(reached.methods.as_slice())?;
    }
    Ok(methods)
}

// The bits of what is reached, ascending. Its methods may stand in any order.
fn reached_bits(
    alloc: Global,
    targets: &[MethodId],
    reached: &Targets,
) -> Result<Vec<u32>, AllocError>
    requires rising { IsStrictlyIncreasing targets.now }
    requires few { length targets.now < 2 ^ 32 }
    ensures { IfOk result (λ bits. bits.items ≡ bits_of targets.now (as_reached reached.now)) }
{
    let mut bits = places(alloc, targets, reached.methods.as_slice())?;
    push_some(&mut bits, reached.outside.then_some(targets.len() as u32))?;
    Ok(ascending(bits))
}

// The places of those methods that are targets, in the order of the methods.
fn places(alloc: Global, targets: &[MethodId], methods: &[MethodId]) -> Result<Vec<u32>, AllocError>
    requires rising { IsStrictlyIncreasing targets.now }
    requires few { length targets.now < 2 ^ 32 }
    ensures { IfOk result
        (λ places. places.items
        ≡ flat_map (λ m. option_to_list (place_in targets.now m)) methods.now) }
{
    let mut places = Vec::new(alloc);
    for method in methods {
        push_some(&mut places, place_of(targets, *method))?;
    }
    Ok(places)
}

// Puts a number, if there is one, behind the others.
fn push_some(numbers: &mut Vec<u32>, number: Option<u32>) -> Result<(), AllocError>
    ensures { OnOk result (numbers.new.items ≡ numbers.old.items ++ option_to_list number) }
{
    if let Some(number) = number {
        numbers.push(number)?;
    }
    Ok(())
}

// The place of a method among ascending ones.
fn place_of(targets: &[MethodId], method: MethodId) -> Option<u32>
    requires rising { IsStrictlyIncreasing targets.now }
    requires few { length targets.now < 2 ^ 32 }
    ensures { result ≡ place_in targets.now method }
{
    match targets.binary_search(&method) {
        Ok(place) => Some(place as u32),
        Err(_) => None,
    }
}

// The classes whose objects let a call reach more than those bits, each with the bits of that.
fn watched(
    alloc: Global,
    targets: &[MethodId],
    always: &[u32],
    by_class: &[(ClassId, Targets)],
) -> Result<Vec<(ClassId, Items<u32>)>, AllocError>
    requires rising { IsStrictlyIncreasing targets.now }
    requires few { length targets.now < 2 ^ 32 }
    requires always_rising { IsStrictlyIncreasing always.now }
    ensures { IfOk result
        (λ watch. watch.items
        ≡ filter has_bits
        (map (λ t. (t.0, bits_without targets.now always.now (as_reached t.1))) by_class.now)) }
{
    let mut watch = Vec::new(alloc);
    for (class, reached) in by_class {
        let bits = more_bits(alloc, targets, always, reached)?;
        push_bits(&mut watch, *class, bits)?;
    }
    Ok(watch)
}

// Puts a class and its bits, if it has some, behind the others.
fn push_bits(
    watch: &mut Vec<(ClassId, Items<u32>)>,
    class: ClassId,
    bits: Vec<u32>,
) -> Result<(), AllocError>
    ensures { OnOk result (watch.new.items ≡ watch.old.items ++ filter has_bits ((class, bits.items) ∷ [])) }
{
    if !bits.is_empty() {
        watch.push((class, Items::from_vec(bits)))?;
    }
    Ok(())
}

// The bits of what is reached, without some that ascend.
fn more_bits(
    alloc: Global,
    targets: &[MethodId],
    without: &[u32],
    reached: &Targets,
) -> Result<Vec<u32>, AllocError>
    requires rising { IsStrictlyIncreasing targets.now }
    requires few { length targets.now < 2 ^ 32 }
    requires without_rising { IsStrictlyIncreasing without.now }
    ensures { IfOk result
        (λ bits. bits.items ≡ bits_without targets.now without.now (as_reached reached.now)) }
{
    let mut bits = reached_bits(alloc, targets, reached)?;
    bits.retain(
        |bit: &u32| -> bool
            ensures { IsStrictlyIncreasing without.entry.now
                → result ≡ not (has_number without.entry.now bit.now) }
        { !stands_in(without, *bit) },
    );
    Ok(bits)
}

// Whether a number stands in a list that ascends.
fn stands_in(numbers: &[u32], number: u32) -> bool
    ensures { IsStrictlyIncreasing numbers.now → result ≡ has_number numbers.now number }
{
    numbers.binary_search(&number).is_ok()
}
