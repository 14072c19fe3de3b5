ghost use Rattle.std.specs.Prelude.{◌≡◌, ◌≤◌, ◌<◌, List, [], length, All, Ok, IfOk, IfErr, IsTrue, string_bytes};
ghost use Rattle.fp_base.specs.Files.{File};
ghost use Rattle.fp_facts.specs.Kinded.{IsKindedMethod};
ghost use Rattle.fp_load.specs.Causes.{Blames, Keeps};
ghost use Rattle.fp_load.specs.Faults.{Tells};
ghost use Rattle.fp_load.specs.Gathering.{IsGathered};
ghost use Rattle.fp_load.specs.Load.{faults_of, loaded_of, loaded_of_faults, most_files};
ghost use Rattle.fp_model.specs.ClassSet.{methods_of};
ghost use Rattle.fp_model.specs.SoundCode.{IsSoundMethod};

use crate::fault::LoadFault;
use crate::gathering::{Gathered, gather, nothing};
use crate::outcome::finish;
use crate::paths::list_paths;
use fp_base::ClassDir;
use fp_facts::{Assume, Loaded};
use fp_words::Job;
use std::alloc::Global;

/// Reads the class files below the directory that the words name, each once and in the order of their paths, into a set of
/// classes. Nothing is taken for granted of other classes.
///
/// The first refusal in this order is told: more than 20,000 files; file by file, more than 4,194,304 bytes, and then more than
/// 268,435,456 bytes so far; the files that are no class files; more than 16,777,216 names; a code of more than 4,194,304 frame
/// words; the files with a method whose words have no kinds, each with the first such method (JVMS SE 21 section 4.10); two
/// classes of one name; a cycle of superclasses; more than 262,144 methods. A module gives no class (section 4.1).
pub fn load<D: ClassDir>(alloc: Global, dir: &mut D, job: &Job) -> Result<Loaded, LoadFault>
    ensures keeps { Keeps (D.tells dir.old) (D.files dir.old) (D.failed dir.old) (D.tells dir.new) (D.files dir.new) (D.failed dir.new) }
    // The set is that of the told files.
    ensures set { IfOk result (λ loaded. IsTrue (D.tells dir.old) → loaded_of (D.files dir.old) (string_bytes job.now.dir) ≡ Ok loaded.set) }
    // Its codes are sound and kinded, whatever the directory tells.
    ensures sound { IfOk result (λ loaded. All IsSoundMethod (methods_of loaded.set.classes)) }
    ensures kinded { IfOk result (λ loaded. All IsKindedMethod (methods_of loaded.set.classes)) }
    ensures assume { IfOk result (λ loaded. (loaded.assume.pure ≡ []) × (loaded.assume.sef ≡ []) × (loaded.assume.fixed ≡ [])) }
    // A fault is what they call for.
    ensures fault { IfErr result (λ fault. IsTrue (D.tells dir.old) → Tells (loaded_of (D.files dir.old) (string_bytes job.now.dir)) fault) }
    ensures blames { IfErr result (λ fault. Blames (string_bytes job.now.dir) (D.listed dir.new) (D.failed dir.old) (D.failed dir.new) fault) }
    // Of too many files none is read.
    ensures unread { most_files < length (D.listed dir.new) → D.readings dir.new ≡ D.readings dir.old }
{
    let gathered = gather_below(alloc, dir, job.dir.as_str())?;
    let set = finish(alloc, gathered)?;
    Ok(Loaded {
        set,
        assume: Assume::none(alloc),
    })
}

/// What is gathered of the class files below a directory, of which there are not too many.
fn gather_below<D: ClassDir>(alloc: Global, dir: &mut D, path: &str) -> Result<Gathered, LoadFault>
    ensures keeps { Keeps (D.tells dir.old) (D.files dir.old) (D.failed dir.old) (D.tells dir.new) (D.files dir.new) (D.failed dir.new) }
    ensures gathered { IfOk result (λ gathered. (files : List File) × (length files ≤ 20000) × IsGathered files gathered
        × (IsTrue (D.tells dir.old) → loaded_of (D.files dir.old) path.now ≡ loaded_of_faults files (faults_of files))) }
    ensures fault { IfErr result (λ fault. IsTrue (D.tells dir.old) → Tells (loaded_of (D.files dir.old) path.now) fault) }
    ensures blames { IfErr result (λ fault. Blames path.now (D.listed dir.new) (D.failed dir.old) (D.failed dir.new) fault) }
    ensures unread { most_files < length (D.listed dir.new) → D.readings dir.new ≡ D.readings dir.old }
{
    let paths = list_paths(alloc, dir, path)?;
    let mut gathered = nothing(alloc);
    gather(alloc, dir, paths.as_slice(), &mut gathered)?;
    Ok(gathered)
}
