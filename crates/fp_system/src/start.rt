//! What the selected analyses begin with.
ghost use Rattle.std.specs.Prelude.{◌≡◌, ◌<◌, ◌^◌, [], codes, length, if◌then◌else◌, IfOk};
ghost use Rattle.fp_base.specs.Files.{texts};
ghost use Rattle.fp_base.specs.Names.{has_name};
ghost use Rattle.fp_cells.specs.Cells.{total_places};
ghost use Rattle.fp_system.specs.ClassEquations.{class_tasks};
ghost use Rattle.fp_system.specs.Java.{fixed_words, java_cells, selected_tasks};

use crate::declared::DeclaredTasks;
use crate::fixed::start_words;
use crate::words::texts::index_texts;
use fp_base::Names;
use fp_cells::Cells;
use fp_model::ClassSet;
use std::alloc::{AllocError, Global};

/// The equations of the selected analyses, and the word that each place starts with.
#[derive(Drop)]
pub struct Started {
    /// The equations of `declared`.
    pub declared: DeclaredTasks,
    /// The words.
    pub fixed: Vec<u64>,
}

/// The equations of the selected analyses, and the words.
pub fn start_analyses(
    alloc: Global,
    set: &ClassSet,
    cells: &Cells,
    analyses: &[String],
) -> Result<Started, AllocError>
    requires { cells.now ≡ java_cells set.now.classes }
    ensures rows { IfOk result (λ s. s.declared.rows ≡ selected_tasks set.now (texts analyses.now)) }
    ensures fixed { IfOk result (λ s. s.fixed.items ≡ fixed_words (texts analyses.now) (java_cells set.now.classes)) }
    ensures places { IfOk result (λ s. s.declared.places ≡ length s.fixed.items) }
    ensures long { IfOk result (λ s. length s.fixed.items ≡ total_places cells.now) }
    ensures few { IfOk result (λ s. length s.fixed.items < 2 ^ 32) }
{
    let _places = cells.places();
    let selected = index_texts(alloc, analyses)?;
    let fixed = start_words(alloc, cells, &selected)?;
    let declared = select_declared(alloc, set, cells, &selected)?;
    Ok(Started { declared, fixed })
}

// The equations of `declared`, where that is selected.
fn select_declared(
    alloc: Global,
    set: &ClassSet,
    cells: &Cells,
    selected: &Names,
) -> Result<DeclaredTasks, AllocError>
    requires { cells.now ≡ java_cells set.now.classes }
    ensures rows { IfOk result (λ d. d.rows ≡ (if has_name selected.now (codes "declared") then class_tasks set.now cells.now else [])) }
    ensures places { IfOk result (λ d. d.places ≡ total_places cells.now) }
{
    if selected.find(b"declared").is_some() {
        DeclaredTasks::make(alloc, set, cells)
    } else {
        Ok(DeclaredTasks::none(alloc, cells.places()))
    }
}
