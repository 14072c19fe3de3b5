//! Which cells are shown, and which items name a cell.
ghost use Rattle.std.specs.Prelude.{◌≡◌, ℕ, ◌+◌, ◌<◌, ◌++◌, ◌∷◌, ◌||◌, [], List, length, true, if◌then◌else◌, IfOk, OnOk};
ghost use Rattle.std.specs.Str.{bytes_eq};
ghost use Rattle.fp_base.specs.Names.{has_name};
ghost use Rattle.fp_cells.specs.Entities.{IsEntityOf};
ghost use Rattle.fp_base.specs.Files.{texts};
ghost use Rattle.fp_cells.specs.Cells.{total_places};
ghost use Rattle.fp_system.specs.Java.{java_cells, shown_flags, shown_from};
ghost use Rattle.fp_system.specs.Shows.{AreEntitiesOf, KnowsParts, cell_text, is_marked, marked_flags, marked_from};

use crate::words::lengths::is_longer;
use crate::words::texts::{Wanted, add_text, index_first_parts};
use fp_base::Names;
use fp_cells::{Cells, Entity, KindId, append_entity, count_places, kind_text};
use fp_model::ClassSet;
use std::alloc::{AllocError, Global};

/// The shown items, to look them up.
#[derive(Drop)]
pub struct ShownItems {
    /// The items.
    pub items: Wanted,
    /// What stands before the first `=` of each.
    pub first_parts: Names,
    pub ghost known: { KnowsParts items.texts first_parts },
}

impl ShownItems {
    ghost use Rattle.std.specs.Prelude.{◌≡◌, List, ℕ, IfOk};
    ghost use Rattle.fp_base.specs.Files.{texts};
    ghost use Rattle.fp_base.specs.Names.{has_name};
    ghost use Rattle.fp_system.specs.Java.{has_text};

    /// The items, to look them up.
    pub fn index(alloc: Global, show: &[String]) -> Result<ShownItems, AllocError>
        ensures { IfOk result (λ s. (text : List ℕ) → has_name s.items.texts text ≡ has_text (texts show.now) text) }
    {
        let items = Wanted::index(alloc, show)?;
        let first_parts = index_first_parts(alloc, show)?;
        Ok(ShownItems { items, first_parts })
    }
}

/// What is shown of cells.
#[derive(Drop)]
pub struct Shown {
    /// Whether each place is of a shown cell.
    pub flags: Vec<bool>,
    /// The first places of the shown cells, ascending.
    pub cells: Vec<u32>,
}

/// What the items show of the cells of a set.
pub fn show_cells(
    alloc: Global,
    set: &ClassSet,
    cells: &Cells,
    show: &[String],
) -> Result<Shown, AllocError>
    requires { cells.now ≡ java_cells set.now.classes }
    ensures flags { IfOk result (λ s. s.flags.items ≡ shown_flags set.now (texts show.now) (java_cells set.now.classes)) }
    ensures cells { IfOk result (λ s. s.cells.items ≡ shown_from set.now (texts show.now) 0 (java_cells set.now.classes)) }
    ensures long { IfOk result (λ s. length s.flags.items ≡ total_places cells.now) }
{
    let items = ShownItems::index(alloc, show)?;
    find_shown(alloc, set, cells, &items)
}

// Walks over the cells once, and looks up each by its kind and by its text.
fn find_shown(
    alloc: Global,
    set: &ClassSet,
    cells: &Cells,
    show: &ShownItems,
) -> Result<Shown, AllocError>
    requires { AreEntitiesOf set.now cells.now }
    ensures flags { IfOk result (λ s. s.flags.items ≡ marked_flags set.now (has_name show.now.items.texts) cells.now) }
    ensures cells { IfOk result (λ s. s.cells.items ≡ marked_from set.now (has_name show.now.items.texts) 0 cells.now) }
{
    let mut flags = Vec::new(alloc);
    let mut firsts = Vec::new(alloc);
    let mut found = Names::new(alloc);
    let mut text = Vec::new(alloc);
    let _places = cells.places();
    for i in 0..cells.len() {
        let (kind, entity, bits) = cells.cell(i).unwrap();
        let is_shown = mark(alloc, set, kind, entity, show, &mut text, &mut found)?;
        let first = flags.len();
        push_if(is_shown, first as u32, &mut firsts)?;
        flags.resize(first + count_places(bits) as usize, is_shown)?;
    }
    Ok(Shown {
        flags,
        cells: firsts,
    })
}

/// Whether the cell is shown; notes the item that names it, if there is one.
pub fn mark(
    alloc: Global,
    set: &ClassSet,
    kind: KindId,
    entity: Entity,
    show: &ShownItems,
    text: &mut Vec<u8>,
    found: &mut Names,
) -> Result<bool, AllocError>
    requires { IsEntityOf set.now entity }
    ensures shown { IfOk result (λ b. b ≡ is_marked set.now (has_name show.now.items.texts) (record { kind = kind; entity = entity; bits = 0 })) }
    ensures found { OnOk result ((item : List ℕ) → has_name show.now.items.texts item ≡ true
        → has_name found.new item ≡ (has_name found.old item || bytes_eq item (cell_text set.now (record { kind = kind; entity = entity; bits = 0 })))) }
{
    let name = kind_text(kind);
    if show.first_parts.find(name).is_none() {
        return Ok(false);
    }
    if is_longer(set, entity, show.items.longest) {
        return Ok(show.items.texts.find(name).is_some());
    }
    text.clear();
    text.extend_from_slice(name)?;
    text.push(b'=')?;
    append_entity(set, entity, text)?;
    if show.items.texts.find(text.as_slice()).is_none() {
        return Ok(show.items.texts.find(name).is_some());
    }
    add_text(alloc, text.as_slice(), found)?;
    Ok(true)
}

fn push_if(is_shown: bool, place: u32, places: &mut Vec<u32>) -> Result<(), AllocError>
    ensures { OnOk result (places.new.items ≡ places.old.items ++ (if is_shown then place ∷ [] else [])) }
{
    if is_shown {
        places.push(place)?;
    }
    Ok(())
}
