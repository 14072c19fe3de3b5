//! The superinterfaces of classes, by their own lists.
ghost use Rattle.std.specs.Prelude.{◌≡◌, ◌≤◌, ◌<◌, ◌+◌, ◌-◌, [], ◌∷◌, ◌++◌, ℕ, All, IfOk, List, OnOk, drop, length, reverse, slice_index, take};
ghost use Rattle.fp_model.specs.declared.class.Class.{Class};
ghost use Rattle.fp_facts.specs.Hierarchy.{superinterfaces_at};
ghost use Rattle.fp_hier.specs.Parts.{AreParts, IsWithin};
ghost use Rattle.fp_hier.specs.Tables.{all_superinterfaces};
ghost use Rattle.fp_hier.specs.Walks.{AreMarked, unmet_interfaces, walk_from};

use fp_model::{ClassId, ClassSet};
use indexmap::IndexMap;
use sqlite_items::Items;
use std::alloc::{AllocError, Global};

/// The names of the superinterfaces of each class, each name once, depth first and in the order of the files.
#[derive(Drop)]
pub(crate) struct Superinterfaces {
    // The lists are parts of this one, which may overlap, as those of interfaces in a chain or a ring do.
    names: Vec<u32>,
    parts: Vec<Part>,
    ghost within: { All (IsWithin (length names.items)) parts.items },
}

/// Where a list stands.
#[derive(Clone, Copy)]
pub(crate) struct Part {
    first: usize,
    end: usize,
}

impl Superinterfaces {
    /// Walks over the superinterfaces of each class.
    pub(crate) fn build(alloc: Global, set: &ClassSet) -> Result<Superinterfaces, AllocError>
        ensures { IfOk result (λ s. AreParts (all_superinterfaces set.now.classes) s.names.items s.parts.items) }
    {
        let (classes, _, _) = set.counts();
        let mut marks = vec![in alloc; 0u32; set.names().len() as usize]?;
        let mut names = Vec::new(alloc);
        let mut parts = Vec::new(alloc);
        let mut places = IndexMap::new(alloc);
        for id in 0..classes {
            let list = superinterface_list(alloc, set, id, marks.as_mut_slice())?;
            push_list(&mut names, &mut parts, list.as_slice(), &mut places)?;
        }
        Ok(Superinterfaces { names, parts })
    }

    /// The names of the superinterfaces of a class. Takes no memory.
    pub(crate) fn of(&self, class: ClassId) -> &[u32]
        ensures { (classes : List Class) → AreParts (all_superinterfaces classes) self.now.names.items self.now.parts.items
            → result.now ≡ superinterfaces_at classes class }
    {
        match self.parts.get(class as usize) {
            Some(part) => &self.names[part.first..part.end],
            None => &[],
        }
    }
}

// Adds a list. If the names from a known place of its first name on go as it does, they are its part.
fn push_list(
    names: &mut Vec<u32>,
    parts: &mut Vec<Part>,
    list: &[u32],
    places: &mut IndexMap<u32, usize>,
) -> Result<(), AllocError>
    ensures { (lists : List (List ℕ)) → AreParts lists names.old.items parts.old.items
        → OnOk result (AreParts (lists ++ list.now ∷ []) names.new.items parts.new.items) }
{
    let first = begin_of(names.as_slice(), known_place(places, list), list);
    let shared = names.len() - first;
    add_behind(names, list, shared, places)?;
    parts.push(Part {
        first,
        end: first + list.len(),
    })?;
    Ok(())
}

// Where the first name of a list is known to stand.
fn known_place(places: &IndexMap<u32, usize>, list: &[u32]) -> usize {
    let Some(name) = list.first() else {
        return 0;
    };
    places.get(name).copied().unwrap_or(0)
}

// A place from which on the names go as a list does: the one that is asked for, or else the end.
fn begin_of(names: &[u32], place: usize, list: &[u32]) -> usize
    ensures within { result ≤ length names.now }
    ensures alike { take (length list.now) (drop result names.now) ≡ take (length names.now - result) list.now }
{
    if place >= names.len() {
        return names.len();
    }
    let count = list.len().min(names.len() - place);
    if names[place..place + count] == list[..count] {
        return place;
    }
    names.len()
}

// Adds the names of a list but for so many of them, and keeps where each stands.
fn add_behind(
    names: &mut Vec<u32>,
    list: &[u32],
    but: usize,
    places: &mut IndexMap<u32, usize>,
) -> Result<(), AllocError>
    ensures { OnOk result (names.new.items ≡ names.old.items ++ drop but list.now) }
{
    for index in but..list.len() {
        places.insert(list[index], names.len())?;
        names.push(list[index])?;
    }
    Ok(())
}

/// The names of the superinterfaces of a class. What its walk has met is marked by the number of the class, counted from 1,
/// so that no mark of an earlier class counts.
fn superinterface_list(
    alloc: Global,
    set: &ClassSet,
    id: ClassId,
    marks: &mut [u32],
) -> Result<Items<u32>, AllocError>
    requires class { id < length set.now.classes }
    requires long { length marks.old ≡ length set.now.names }
    requires below { (n : ℕ) → slice_index marks.old n ≤ id }
    ensures list { IfOk result (λ list. list ≡ superinterfaces_at set.now.classes id) }
    ensures long { length marks.new ≡ length set.now.names }
    ensures below { OnOk result ((n : ℕ) → slice_index marks.new n ≤ id + 1) }
{
    let mut met = Items::new(alloc);
    let mut waiting = Items::new(alloc);
    push_names(&mut waiting, set.class(id).interfaces.as_slice())?;
    let walk = id + 1;
    while let Some(name) = waiting.pop() {
        visit(set, walk, name, marks, &mut met, &mut waiting)?;
    }
    Ok(met)
}

/// Visits a name of a walk. Unless it was met before, it is met now, and what its class extends is visited next.
fn visit(
    set: &ClassSet,
    walk: u32,
    name: u32,
    marks: &mut [u32],
    met: &mut Items<u32>,
    waiting: &mut Items<u32>,
) -> Result<(), AllocError>
    requires name { name < length set.now.names }
    requires marked { AreMarked (length set.now.names) walk marks.old met.old }
    requires within { All (λ n. n < length set.now.names) (reverse waiting.old) }
    ensures marked { OnOk result (AreMarked (length set.now.names) walk marks.new met.new) }
    ensures within { OnOk result (All (λ n. n < length set.now.names) (reverse waiting.new)) }
    ensures walk { OnOk result (walk_from set.now.classes met.new (reverse waiting.new)
        ≡ walk_from set.now.classes met.old (name ∷ reverse waiting.old)) }
    ensures fewer { OnOk result (unmet_interfaces set.now.classes met.new + length waiting.new
        ≤ unmet_interfaces set.now.classes met.old + length waiting.old) }
{
    if marks[name as usize] == walk {
        return Ok(());
    }
    marks[name as usize] = walk;
    met.push(name)?;
    if let Some(id) = set.find_class(name) {
        push_names(waiting, set.class(id).interfaces.as_slice())?;
    }
    Ok(())
}

/// Puts names on top of the stack of those that wait, the first of them on top.
fn push_names(waiting: &mut Items<u32>, names: &[u32]) -> Result<(), AllocError>
    ensures { OnOk result (reverse waiting.new ≡ names.now ++ reverse waiting.old) }
{
    for at in (0..names.len()).rev() {
        waiting.push(names[at])?;
    }
    Ok(())
}
