//! Which roots are methods with code.
ghost use Rattle.std.specs.Prelude.{◌≡◌, ℕ, ◌<◌, ◌&&◌, ◌||◌, List, length, true, IfOk, OnOk};
ghost use Rattle.std.specs.Str.{bytes_eq};
ghost use Rattle.fp_base.specs.Files.{texts};
ghost use Rattle.fp_base.specs.Names.{has_name};
ghost use Rattle.fp_model.specs.ClassSet.{methods_of};
ghost use Rattle.fp_cells.specs.Entities.{entity_text};
ghost use Rattle.fp_system.specs.Java.{has_code, reach_cells};
ghost use Rattle.fp_system.specs.Roots.{FindsRoots, HasEntities};

use crate::words::lengths::is_longer;
use crate::words::texts::{Wanted, add_text};
use fp_base::Names;
use fp_cells::{Entity, append_entity};
use fp_model::{ClassSet, Method, MethodId};
use std::alloc::{AllocError, Global};

/// The roots that are methods with code. Where there are no roots, no method is looked at.
pub fn find_roots(alloc: Global, set: &ClassSet, roots: &[String]) -> Result<Names, AllocError>
    ensures { IfOk result (λ found. FindsRoots set.now (texts roots.now) found) }
{
    if roots.is_empty() {
        return Ok(Names::new(alloc));
    }
    let wanted = Wanted::index(alloc, roots)?;
    find_methods(alloc, set, &wanted)
}

// Walks over the methods once, and looks up each that has code by its text.
fn find_methods(alloc: Global, set: &ClassSet, wanted: &Wanted) -> Result<Names, AllocError>
    ensures { IfOk result (λ found. HasEntities set.now wanted.now.texts found (reach_cells set.now.classes)) }
{
    let (_, _, methods) = set.counts();
    let mut found = Names::new(alloc);
    let mut text = Vec::new(alloc);
    for id in 0..methods {
        let method = set.method(id);
        note_method(alloc, set, id, method, wanted, &mut text, &mut found)?;
    }
    Ok(found)
}

// Notes the text of the method, where it has code and the text is wanted.
fn note_method(
    alloc: Global,
    set: &ClassSet,
    id: MethodId,
    method: &Method,
    wanted: &Wanted,
    text: &mut Vec<u8>,
    found: &mut Names,
) -> Result<(), AllocError>
    requires { id < length (methods_of set.now.classes) }
    ensures { OnOk result ((root : List ℕ) → has_name wanted.now.texts root ≡ true
        → has_name found.new root ≡ (has_name found.old root || (has_code method.now && bytes_eq root (entity_text set.now (Entity.Method id))))) }
{
    if method.code.is_none() {
        return Ok(());
    }
    if is_longer(set, Entity::Method(id), wanted.longest) {
        return Ok(());
    }
    text.clear();
    append_entity(set, Entity::Method(id), text)?;
    if wanted.texts.find(text.as_slice()).is_none() {
        return Ok(());
    }
    add_text(alloc, text.as_slice(), found)?;
    Ok(())
}
