ghost use Rattle.std.specs.Prelude.{◌≡◌, ◌≤◌, length, All, Contains, IsSome, IsTrue, IfOk, OnOk, IfErr};
ghost use Rattle.std.specs.List.{AllPass};
ghost use Rattle.fp_base.specs.Files.{bytes_at, class_paths, is_class_file, texts};
ghost use Rattle.fp_base.specs.Order.{in_text_order};
ghost use Rattle.fp_load.specs.Causes.{Blames, Keeps};
ghost use Rattle.fp_load.specs.Faults.{Tells};
ghost use Rattle.fp_load.specs.Load.{loaded_of};
ghost use Rattle.fp_load.specs.Steps.{IsReadAt};

use crate::fault::LoadFault;
use fp_base::{ClassDir, DirFault};
use fp_model::LimitName;
use std::alloc::Global;

/// The most class files that are read.
const MOST_FILES: usize = 20_000;

/// The paths of the class files below a directory, in the order of their bytes.
pub fn list_paths<D: ClassDir>(
    alloc: Global,
    dir: &mut D,
    path: &str,
) -> Result<Vec<String>, LoadFault>
    ensures keeps { Keeps (D.tells dir.old) (D.files dir.old) (D.failed dir.old) (D.tells dir.new) (D.files dir.new) (D.failed dir.new) }
    ensures unread { D.readings dir.new ≡ D.readings dir.old }

    // The paths that are told; each of them was listed.
    ensures told { IfOk result (λ paths. IsTrue (D.tells dir.old) → texts paths.items ≡ in_text_order (class_paths (D.files dir.old) path.now)) }
    ensures there { IfOk result (λ paths. IsTrue (D.tells dir.old) → All (λ p. IsSome (bytes_at (D.files dir.old) p)) (texts paths.items)) }
    ensures listed { IfOk result (λ paths. All (Contains (D.listed dir.new)) (texts paths.items)) }
    ensures below { IfOk result (λ paths. AllPass (is_class_file path.now) (texts paths.items)) }
    ensures few { IfOk result (λ paths. length paths.items ≤ 20000) }
    ensures listed_few { OnOk result (length (D.listed dir.new) ≤ 20000) }
    ensures told_few { IfOk result (λ paths. IsTrue (D.tells dir.old) → length (class_paths (D.files dir.old) path.now) ≤ 20000) }

    ensures fault { IfErr result (λ fault. IsTrue (D.tells dir.old) → Tells (loaded_of (D.files dir.old) path.now) fault) }
    ensures blames { IfErr result (λ fault. Blames path.now (D.listed dir.new) (D.failed dir.old) (D.failed dir.new) fault) }
{
    let mut paths = match dir.list(alloc, path) {
        Ok(paths) => paths,
        Err(DirFault::Failed) => return Err(unread(alloc, path)),
        Err(DirFault::Memory) => return Err(LoadFault::Memory),
        Err(DirFault::Absent) => unreachable!(),
    };
    if paths.len() > MOST_FILES {
        return Err(LoadFault::Limit(LimitName::Files, MOST_FILES as u64));
    }
    paths.sort()?;
    Ok(paths)
}

/// That a path could not be read.
pub fn unread(alloc: Global, path: &str) -> LoadFault
    ensures { IsReadAt path.now result }
{
    match String::from_str(alloc, path) {
        Ok(path) => LoadFault::Read(path),
        Err(_) => LoadFault::Memory,
    }
}
