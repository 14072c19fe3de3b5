ghost use Rattle.std.specs.Prelude.{◌≡◌, ◌↔◌, ◌+◌, ◌≤◌, ◌∷◌, ◌++◌, length, string_bytes, IfOk};
ghost use Rattle.std.specs.List.{AllPass};
ghost use Rattle.std.specs.IoError.{error_kind};
ghost use Rattle.std.specs.declared.io.ErrorKind.TheVariants.{OutOfMemory};
ghost use Rattle.fp_base.specs.declared.host.walk.HostFault.TheVariants.{Memory};
ghost use Rattle.fp_base.specs.Files.{is_class_file as is_class_path, texts};
ghost use Rattle.fp_base.specs.Host.{visits_left};

use crate::outside::paths::is_class_file;
use std::alloc::{AllocError, AllocFailed, Global};
use std::io::ErrorKind;
use std::rt::Files;
use std::{fs, io};

/// How many entries a walk meets at most.
const MAX_ENTRIES: u32 = 4_194_304;

/// How far below its root a walk goes at most.
const MAX_DEPTH: u32 = 64;

/// Why a walk or a read on the host has no answer.
#[derive(Debug, Clone, Copy, PartialEq, Eq)]
pub enum HostFault {
    /// The system failed, or a limit was met.
    Failed,
    /// Memory ran out.
    Memory,
}

impl From<AllocError> for HostFault {
    ghost from_gives = { λ _ fault. fault ≡ Memory };

    fn from(_: AllocError) -> HostFault {
        HostFault::Memory
    }
}

impl<T: Drop> From<AllocFailed<T>> for HostFault {
    ghost from_gives = { λ _ fault. fault ≡ Memory };

    fn from(_: AllocFailed<T>) -> HostFault {
        HostFault::Memory
    }
}

impl From<io::Error> for HostFault {
    ghost from_gives = { λ error fault. (fault ≡ Memory) ↔ (error_kind error ≡ OutOfMemory) };

    fn from(error: io::Error) -> HostFault {
        if error.kind() == ErrorKind::OutOfMemory {
            HostFault::Memory
        } else {
            HostFault::Failed
        }
    }
}

/// A directory that a walk has still to visit.
#[derive(Drop)]
struct Pending {
    path: String,
    depth: u32,
}

/// What a walk has found, and what it has still to visit.
#[derive(Drop)]
struct Walk {
    found: Vec<String>,
    pending: Vec<Pending>,
    entries: u32,
}

/// The paths of the class files below a directory. Links are not followed. A name that isn't UTF-8, more than
/// [`MAX_ENTRIES`] entries and a directory below [`MAX_DEPTH`] are faults.
pub fn class_files<R: Files>(alloc: Global, rt: &R, root: &str) -> Result<Vec<String>, HostFault>
    ensures { IfOk result (λ found. AllPass (is_class_path root.now) (texts found.items)) }
{
    let mut walk = Walk {
        found: Vec::new(alloc),
        pending: Vec::new(alloc),
        entries: 0,
    };
    walk.pending.push(Pending {
        path: String::from_str(alloc, root)?,
        depth: 0,
    })?;
    while let Some(dir) = walk.pending.pop() {
        visit(alloc, rt, root, &dir, &mut walk)?;
    }
    Ok(walk.found)
}

/// Takes up each entry of a directory.
fn visit<R: Files>(
    alloc: Global,
    rt: &R,
    root: &str,
    dir: &Pending,
    walk: &mut Walk,
) -> Result<(), HostFault>
    requires { AllPass (is_class_path root.now) (texts walk.old.found.items) }
    ensures below { AllPass (is_class_path root.now) (texts walk.new.found.items) }
    ensures ends { visits_left walk.new ≤ visits_left walk.old }
{
    let runtime = (rt, alloc);
    for entry in fs::read_dir(&runtime, dir.path.as_str())? {
        let entry = entry?;
        if walk.entries >= MAX_ENTRIES {
            return Err(HostFault::Failed);
        }
        walk.entries += 1;
        let path = join(alloc, dir.path.as_str(), entry.file_name())?;
        let kind = entry.file_type()?;
        if kind.is_dir() {
            enter(walk, path, dir.depth)?;
        } else if kind.is_file() {
            keep(walk, root, path)?;
        }
    }
    Ok(())
}

/// A directory's path, a slash, and a name.
fn join(alloc: Global, dir: &str, name: &str) -> Result<String, AllocError>
    ensures { IfOk result (λ path. string_bytes path ≡ dir.now ++ (47 ∷ name.now)) }
{
    let mut path = String::from_str(alloc, dir)?;
    path.push('/')?;
    path.push_str(name)?;
    Ok(path)
}

/// Notes a directory that is to be visited.
fn enter(walk: &mut Walk, path: String, depth: u32) -> Result<(), HostFault>
    ensures found { walk.new.found ≡ walk.old.found }
    ensures entries { walk.new.entries ≡ walk.old.entries }
    ensures pending { length walk.new.pending.items ≤ length walk.old.pending.items + 1 }
{
    if depth >= MAX_DEPTH {
        return Err(HostFault::Failed);
    }
    walk.pending.push(Pending {
        path,
        depth: depth + 1,
    })?;
    Ok(())
}

/// Keeps the path of a class file.
fn keep(walk: &mut Walk, root: &str, path: String) -> Result<(), HostFault>
    requires { AllPass (is_class_path root.now) (texts walk.old.found.items) }
    ensures below { AllPass (is_class_path root.now) (texts walk.new.found.items) }
    ensures ends { visits_left walk.new ≡ visits_left walk.old }
{
    if is_class_file(root, path.as_str()) {
        walk.found.push(path)?;
    }
    Ok(())
}

#[cfg(test)]
mod tests {
    use super::*;
    use std::alloc::Allocator;
    use std::fs::{File, Metadata, OpenOptions};
    use std::test::Fail;

    const FOLDER: &str = "host_walk_test";

    /// How many class files a walk finds.
    fn count<R: Files>(alloc: Global, rt: &R, root: &str) -> Result<usize, HostFault> {
        Ok(class_files(alloc, rt, root)?.len())
    }

    #[test]
    fn a_walk_goes_no_deeper_than_its_bound(rt: HostRuntime) -> Result<(), Fail> {
        let alloc = rt.alloc();
        let _ = fs::remove_dir_all(&rt, FOLDER);
        let mut path = String::from_str(alloc, FOLDER)?;
        for (deeper, expected) in [(MAX_DEPTH, Ok(1)), (1, Err(HostFault::Failed))] {
            for _ in 0..deeper {
                path.push_str("/d")?;
            }
            fs::create_dir_all(&rt, path.as_str())?;
            fs::write(&rt, join(alloc, path.as_str(), "A.class")?.as_str(), "a")?;
            assert_eq!(rt; count(alloc, &rt, FOLDER), expected, "at {path}");
        }
        fs::remove_dir_all(&rt, FOLDER)?;
        Ok(())
    }

    /// A system whose directories have these names, each with a 0 behind it, all of them of files.
    #[derive(Drop)]
    struct Named {
        names: &'static [u8],
    }

    fn unsupported<T>() -> io::Result<T> {
        Err(io::Error::from(ErrorKind::Unsupported))
    }

    impl Files for Named {
        type File = File;

        type Dir = &'static [u8];

        fn open_file(&self, _how: &OpenOptions, _path: &str) -> io::Result<File> {
            unsupported()
        }

        fn open_dir(&self, _path: &str) -> io::Result<&'static [u8]> {
            Ok(self.names)
        }

        fn metadata(&self, _path: &str) -> io::Result<Metadata> {
            Ok(Metadata::of_file(0))
        }

        fn symlink_metadata(&self, _path: &str) -> io::Result<Metadata> {
            Ok(Metadata::of_file(0))
        }

        fn copy(&self, _from: &str, _to: &str) -> io::Result<u64> {
            unsupported()
        }

        fn rename(&self, _from: &str, _to: &str) -> io::Result<()> {
            unsupported()
        }

        fn remove_file(&self, _path: &str) -> io::Result<()> {
            unsupported()
        }

        fn create_dir(&self, _path: &str) -> io::Result<()> {
            unsupported()
        }

        fn remove_dir(&self, _path: &str) -> io::Result<()> {
            unsupported()
        }

        fn remove_dir_all<B: Allocator>(&self, _alloc: B, _path: &str) -> io::Result<()> {
            unsupported()
        }
    }

    #[test]
    fn a_name_that_is_no_text_is_a_fault(rt: HostRuntime) {
        for (names, expected) in [
            (b"".as_slice(), Ok(0)),
            (b"A.class\0B.txt\0C.class\0", Ok(2)),
            (b"A.class\0\xff.class\0", Err(HostFault::Failed)),
        ] {
            assert_eq!(rt; count(rt.alloc(), &Named { names }, "d"), expected);
        }
    }
}
