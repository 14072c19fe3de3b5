ghost use Rattle.std.specs.Prelude.{◌≡◌, ℕ, ◌≤◌, ◌<◌, false, ◌++◌, ◌∷◌, [], List, length, map, All, IsSome, IsTrue, OnOk, IfErr, Err};
ghost use Rattle.fp_base.specs.Files.{File, bytes_at, texts};
ghost use Rattle.fp_class.specs.ClassFile.{class_of, IsWellFormed};
ghost use Rattle.fp_load.specs.Causes.{Keeps};
ghost use Rattle.fp_load.specs.Gathering.{AreNumbered, HasRead, IsGathered, path_of};
ghost use Rattle.fp_load.specs.Load.{passed_from};
ghost use Rattle.fp_load.specs.Steps.{file_at, BlamesReading, TellsPassed};
ghost use Rattle.fp_model.specs.declared.raw.Raw.{Raw};

use crate::fault::{FileRefusal, LoadFault};
use crate::reading::read_file;
use fp_base::{ClassDir, NameFault, Names};
use fp_class::{read_class, to_class};
use fp_model::{Class, FileFault, Raw};
use sqlite_items::Items;
use std::alloc::{AllocError, Global};

/// What is gathered of the files that were read.
#[derive(Drop)]
pub struct Gathered {
    /// The names of the classes.
    pub names: Names,
    /// The classes, in the order of their files.
    pub classes: Vec<Class>,
    /// The paths of their files.
    pub paths: Vec<String>,
    /// The files that are no class files.
    pub faults: Items<(String, FileRefusal)>,
    /// Whether there are more names than a table holds; then no further class is gathered.
    pub full: bool,
}

/// Nothing, which takes no memory.
pub fn nothing(alloc: Global) -> Gathered
    ensures { IsGathered [] result }
{
    Gathered {
        names: Names::new(alloc),
        classes: Vec::new(alloc),
        paths: Vec::new(alloc),
        faults: Items::new(alloc),
        full: false,
    }
}

/// Adds a class and the path of its file.
fn add_class(
    alloc: Global,
    class: Class,
    path: &str,
    classes: &mut Vec<Class>,
    paths: &mut Vec<String>,
) -> Result<(), AllocError>
    ensures classes { OnOk result (classes.new.items ≡ classes.old.items ++ class ∷ []) }
    ensures paths { OnOk result (texts paths.new.items ≡ texts paths.old.items ++ path.now ∷ []) }
{
    let path = String::from_str(alloc, path)?;
    classes.push(class)?;
    paths.push(path)?;
    Ok(())
}

/// Adds the class of a class file, while the table of names has room. A module has no class.
fn add_raw(alloc: Global, gathered: &mut Gathered, path: &str, raw: &Raw) -> Result<(), AllocError>
    requires { IsWellFormed raw.now }
    ensures faults { OnOk result (gathered.new.faults ≡ gathered.old.faults) }
    ensures room { OnOk result (gathered.new.full ≡ false → gathered.old.full ≡ false) }
    ensures paths { OnOk result (gathered.new.full ≡ false → texts gathered.new.paths.items ≡ texts gathered.old.paths.items ++ path_of path.now raw.now) }
    ensures numbered { OnOk result ((raws : List Raw) → AreNumbered raws gathered.old.names gathered.old.classes.items gathered.old.full
        → AreNumbered (raws ++ raw.now ∷ []) gathered.new.names gathered.new.classes.items gathered.new.full) }
{
    if gathered.full {
        return Ok(());
    }
    match to_class(alloc, raw, &mut gathered.names) {
        Ok(Some(class)) => {
            add_class(
                alloc,
                class,
                path,
                &mut gathered.classes,
                &mut gathered.paths,
            )?;
            Ok(())
        }
        Ok(None) => Ok(()),
        Err(NameFault::Full) => {
            gathered.full = true;
            Ok(())
        }
        Err(NameFault::Memory) => Err(AllocError),
    }
}

/// Adds a file that is no class file.
fn add_fault(
    alloc: Global,
    gathered: &mut Gathered,
    path: &str,
    fault: FileFault,
) -> Result<(), AllocError>
    ensures { OnOk result ((files : List File) (file : File) → file.path ≡ path.now → class_of file.bytes ≡ Err fault → IsGathered files gathered.old → IsGathered (files ++ file ∷ []) gathered.new) }
{
    let path = String::from_str(alloc, path)?;
    gathered.faults.push((path, FileRefusal::File(fault)))
}

/// Adds a file that was read.
fn add_file(
    alloc: Global,
    gathered: &mut Gathered,
    path: &str,
    bytes: &[u8],
) -> Result<(), AllocError>
    requires { length bytes.now ≤ 4194304 }
    ensures { OnOk result ((files : List File) → IsGathered files gathered.old → IsGathered (files ++ record { path = path.now; bytes = bytes.now } ∷ []) gathered.new) }
{
    match read_class(alloc, bytes) {
        Ok(raw) => add_raw(alloc, gathered, path, &raw),
        Err(FileFault::Memory) => Err(AllocError),
        Err(fault) => add_fault(alloc, gathered, path, fault),
    }
}

/// Reads and gathers the files at these paths, in their order. No more than one file's bytes are held at a time.
pub fn gather<D: ClassDir>(
    alloc: Global,
    dir: &mut D,
    paths: &[String],
    gathered: &mut Gathered,
) -> Result<(), LoadFault>
    requires there { IsTrue (D.tells dir.old) → All (λ p. IsSome (bytes_at (D.files dir.old) p)) (texts paths.now) }
    requires empty { IsGathered [] gathered.old }
    ensures keeps { Keeps (D.tells dir.old) (D.files dir.old) (D.failed dir.old) (D.tells dir.new) (D.files dir.new) (D.failed dir.new) }
    ensures listed { D.listed dir.new ≡ D.listed dir.old }

    ensures read { OnOk result ((sum : ℕ) × HasRead (D.tells dir.old) (D.files dir.old) (texts paths.now) sum gathered.new) }

    ensures passed { IfErr result (λ fault. IsTrue (D.tells dir.old) → TellsPassed (passed_from 0 (map (file_at (D.files dir.old)) (texts paths.now))) fault) }
    ensures blames { IfErr result (λ fault. BlamesReading (texts paths.now) (D.failed dir.old) (D.failed dir.new) fault) }
{
    let mut sum = 0;
    for path in paths {
        let bytes = read_file(alloc, dir, path.as_str(), sum)?;
        sum += bytes.len() as u64;
        add_file(alloc, gathered, path.as_str(), &bytes)?;
    }
    Ok(())
}
