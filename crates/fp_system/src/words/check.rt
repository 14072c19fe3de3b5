//! Which words and sets are refused.
ghost use Rattle.std.specs.Prelude.{◌≡◌, Some, None, string_bytes, IfErr, OnOk};
ghost use Rattle.fp_base.specs.Files.{texts};
ghost use Rattle.fp_cells.specs.Cells.{total_places};
ghost use Rattle.fp_system.specs.Faults.{TellsLimit, TellsSystemRefusal, TellsWord, is_known};
ghost use Rattle.fp_system.specs.Java.{first_failing, is_kind_text, java_cells, places_refusal, system_refusal};
ghost use Rattle.fp_system.specs.Roots.{FindsRoots};
ghost use Rattle.fp_system.specs.Shows.{FindsItems};
ghost use Rattle.fp_system.specs.Surveys.{told_places};

use crate::fault::SystemFault;
use crate::limits::check_limits;
use fp_base::Names;
use fp_cells::{KindId, kind_text};
use fp_model::ClassSet;

/// The analyses that there are.
const DECLARED: &[u8] = b"declared";

/// What a word of a run names.
#[derive(Clone, Copy, Debug, PartialEq, Eq)]
pub enum Word {
    /// An analysis.
    Analysis,
    /// A method with code where the program begins.
    Root,
    /// A kind of property or a cell that is shown.
    Item,
}

/// Refuses the first of: an analysis that there isn't, a root that is no method with code, a shown item that is neither a kind nor a
/// cell, more places than a system may have.
pub fn check_words(
    set: &ClassSet,
    analyses: &[String],
    roots: &[String],
    show: &[String],
    found_roots: &Names,
    found_items: &Names,
    places: u64,
) -> Result<(), SystemFault>
    requires places { places ≡ told_places (total_places (java_cells set.now.classes)) }
    requires roots { FindsRoots set.now (texts roots.now) found_roots.now }
    requires items { FindsItems set.now (texts show.now) found_items.now }
    ensures accepted { OnOk result (system_refusal set.now (texts analyses.now) (texts roots.now) (texts show.now) ≡ None) }
    ensures refused { IfErr result (TellsSystemRefusal (system_refusal set.now (texts analyses.now) (texts roots.now) (texts show.now))) }
{
    check_sort(Word::Analysis, analyses, found_roots)?;
    check_sort(Word::Root, roots, found_roots)?;
    check_sort(Word::Item, show, found_items)?;
    check_places(places)
}

// There are at most as many uses, and as many gives, as there are places: these can't pass their bounds where the places don't.
fn check_places(places: u64) -> Result<(), SystemFault>
    ensures accepted { OnOk result (places_refusal places ≡ None) }
    ensures refused { IfErr result (TellsLimit (places_refusal places)) }
{
    match check_limits(places, 0, 0) {
        Ok(()) => Ok(()),
        Err((name, bound)) => Err(SystemFault::Limit(name, bound)),
    }
}

// Refuses the first word of a sort that isn't known; `found` are the roots or items that name something.
fn check_sort(sort: Word, words: &[String], found: &Names) -> Result<(), SystemFault>
    ensures accepted { OnOk result (first_failing (is_known sort found.now) (texts words.now) ≡ None) }
    ensures refused { IfErr result (TellsWord sort (first_failing (is_known sort found.now) (texts words.now))) }
{
    for word in words {
        if !is_known(sort, word.as_bytes(), found) {
            return Err(unknown(sort, word));
        }
    }
    Ok(())
}

fn is_known(sort: Word, text: &[u8], found: &Names) -> bool
    ensures { result ≡ is_known sort found.now text.now }
{
    match sort {
        Word::Analysis => text == DECLARED,
        Word::Root => found.find(text).is_some(),
        Word::Item => names_kind(text) || found.find(text).is_some(),
    }
}

fn unknown(sort: Word, word: &String) -> SystemFault
    ensures { TellsWord sort (Some (string_bytes word.now)) result }
{
    let Ok(word) = word.clone() else {
        return SystemFault::Memory;
    };
    match sort {
        Word::Analysis => SystemFault::Analysis(word),
        Word::Root => SystemFault::Root(word),
        Word::Item => SystemFault::Show(word),
    }
}

// Whether the text is the name of a kind.
fn names_kind(text: &[u8]) -> bool
    ensures { result ≡ is_kind_text text.now }
{
    text == kind_text(KindId::Declared)
        || text == kind_text(KindId::Inst)
        || text == kind_text(KindId::Reach)
        || text == kind_text(KindId::Callees)
        || text == kind_text(KindId::Assign)
        || text == kind_text(KindId::Immut)
        || text == kind_text(KindId::Timmut)
        || text == kind_text(KindId::Fresh)
        || text == kind_text(KindId::Leak)
        || text == kind_text(KindId::Escape)
        || text == kind_text(KindId::Purity)
}
