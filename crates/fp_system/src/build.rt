//! The system of a set and of the words of a run.
ghost use Rattle.std.specs.Prelude.{◌≡◌, None, IfErr, IfOk, OnOk};
ghost use Rattle.fp_base.specs.Files.{texts};
ghost use Rattle.fp_system.specs.Java.{java_cells, java_equations, shown_from, system_refusal};
ghost use Rattle.fp_system.specs.Faults.{TellsSystemRefusal};
ghost use Rattle.fp_system.specs.Systems.{system_cells, system_equations, system_shown_cells};

use crate::cells::make_cells;
use crate::fault::SystemFault;
use crate::start::{Started, start_analyses};
use crate::survey::survey_cells;
use crate::system::JavaSystem;
use crate::words::check::check_words;
use crate::words::roots::find_roots;
use crate::words::shown::{Shown, ShownItems, show_cells};
use fp_facts::Loaded;
use fp_model::ClassSet;
use fp_words::Job;
use std::alloc::{AllocError, Global};

// Makes the system of a set for the words of a run, whatever these are.
fn make_system(
    alloc: Global,
    set: &ClassSet,
    analyses: &[String],
    show: &[String],
) -> Result<JavaSystem, AllocError>
    ensures cells { IfOk result (λ s. system_cells s ≡ java_cells set.now.classes) }
    ensures equations { IfOk result (λ s. system_equations s ≡ java_equations set.now (texts analyses.now) (texts show.now)) }
    ensures shown { IfOk result (λ s. system_shown_cells s ≡ shown_from set.now (texts show.now) 0 (java_cells set.now.classes)) }
{
    let cells = make_cells(alloc, set)?;
    let Started { declared, fixed } = start_analyses(alloc, set, &cells, analyses)?;
    let Shown {
        flags,
        cells: first_places,
    } = show_cells(alloc, set, &cells, show)?;
    Ok(JavaSystem::new(alloc, cells, declared, fixed, flags, first_places))
}

// Refuses the first of what `build` refuses. No cell is made for it, so a set that is too large takes no memory for cells.
fn check_run(
    alloc: Global,
    set: &ClassSet,
    analyses: &[String],
    roots: &[String],
    show: &[String],
) -> Result<(), SystemFault>
    ensures accepted { OnOk result (system_refusal set.now (texts analyses.now) (texts roots.now) (texts show.now) ≡ None) }
    ensures refused { IfErr result (TellsSystemRefusal (system_refusal set.now (texts analyses.now) (texts roots.now) (texts show.now))) }
{
    let found_roots = find_roots(alloc, set, roots)?;
    let items = ShownItems::index(alloc, show)?;
    let survey = survey_cells(alloc, set, &items)?;
    check_words(
        set,
        analyses,
        roots,
        show,
        &found_roots,
        &survey.found,
        survey.places,
    )
}

impl JavaSystem {
    /// Builds the system of a set for the words of a run, or tells the first of: an analysis that there isn't, a root that is no
    /// method with code, a shown item that is neither a kind nor a cell, more places than a system may have.
    pub fn build(alloc: Global, loaded: &Loaded, job: &Job) -> Result<JavaSystem, SystemFault>
        ensures cells { IfOk result (λ s. system_cells s ≡ java_cells loaded.now.set.classes) }
        ensures equations { IfOk result (λ s. system_equations s
            ≡ java_equations loaded.now.set (texts job.now.analyses) (texts job.now.show)) }
        ensures shown { IfOk result (λ s. system_shown_cells s
            ≡ shown_from loaded.now.set (texts job.now.show) 0 (java_cells loaded.now.set.classes)) }
        ensures accepted { OnOk result
            (system_refusal loaded.now.set (texts job.now.analyses) (texts job.now.roots) (texts job.now.show) ≡ None) }
        ensures refused { IfErr result
            (TellsSystemRefusal (system_refusal loaded.now.set (texts job.now.analyses) (texts job.now.roots) (texts job.now.show))) }
    {
        let set = &loaded.set;
        let analyses = job.analyses.as_slice();
        let roots = job.roots.as_slice();
        let show = job.show.as_slice();
        check_run(alloc, set, analyses, roots, show)?;
        Ok(make_system(alloc, set, analyses, show)?)
    }
}
