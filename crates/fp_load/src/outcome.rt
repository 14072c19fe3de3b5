ghost use Rattle.std.specs.Prelude.{◌≡◌, ◌≤◌, List, length, All, IfOk, IfErr, Ok};
ghost use Rattle.fp_base.specs.Files.{File};
ghost use Rattle.fp_load.specs.Faults.{Tells};
ghost use Rattle.fp_load.specs.Gathering.{IsGathered};
ghost use Rattle.fp_load.specs.Load.{faults_of, loaded_of_faults, loaded_of_set};
ghost use Rattle.fp_load.specs.Steps.{IsInner};
ghost use Rattle.fp_model.specs.ClassSet.{AreFew, IsClassOver, methods_of, refusal_of};
ghost use Rattle.fp_model.specs.SoundCode.{IsSoundMethod};
ghost use Rattle.fp_facts.specs.Kinded.{IsKindedMethod};

use crate::fault::LoadFault;
use crate::gathering::Gathered;
use crate::judging::judge;
use fp_base::{MAX_NAMES, Names};
use fp_model::{Class, ClassSet, LimitName};
use std::alloc::Global;

/// The most methods that a set may have.
const MOST_METHODS: u32 = 262_144;

/// The set of the classes that were gathered, or why there is none.
pub fn finish(alloc: Global, gathered: Gathered) -> Result<ClassSet, LoadFault>
    requires { (files : List File) × (length files ≤ 20000) × IsGathered files gathered }
    ensures set { IfOk result (λ set. (files : List File) → IsGathered files gathered → loaded_of_faults files (faults_of files) ≡ Ok set) }
    ensures fault { IfErr result (λ fault. (files : List File) → IsGathered files gathered → Tells (loaded_of_faults files (faults_of files)) fault) }
    ensures inner { IfErr result IsInner }
    ensures sound { IfOk result (λ set. All IsSoundMethod (methods_of set.classes)) }
    ensures kinded { IfOk result (λ set. All IsKindedMethod (methods_of set.classes)) }
{
    let Gathered {
        names,
        classes,
        paths,
        faults,
        full,
    } = gathered;
    if !faults.is_empty() {
        return Err(LoadFault::Refused(faults));
    }
    if full {
        return Err(LoadFault::Limit(LimitName::Names, u64::from(MAX_NAMES)));
    }
    judge(alloc, classes.as_slice(), paths.as_slice())?;
    build_set(alloc, classes, names)
}

/// The set of classes, or why they are none.
fn build_set(alloc: Global, classes: Vec<Class>, names: Names) -> Result<ClassSet, LoadFault>
    requires over { All (IsClassOver names) classes.items }
    requires few { AreFew classes.items }
    ensures same { IfOk result (λ set. set ≡ record { classes = classes.items; names = names }) }
    ensures set { IfOk result (λ set. loaded_of_set (record { classes = classes.items; names = names }) (refusal_of (record { classes = classes.items; names = names })) ≡ Ok set) }
    ensures fault { IfErr result (λ fault. Tells (loaded_of_set (record { classes = classes.items; names = names }) (refusal_of (record { classes = classes.items; names = names }))) fault) }
    ensures inner { IfErr result IsInner }
{
    let set = ClassSet::build(alloc, classes, names)?;
    let (_classes, _fields, methods) = set.counts();
    if methods > MOST_METHODS {
        return Err(LoadFault::Limit(LimitName::Methods, u64::from(MOST_METHODS)));
    }
    Ok(set)
}
