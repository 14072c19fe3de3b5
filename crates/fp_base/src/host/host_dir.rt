ghost use Rattle.std.specs.Prelude.{◌≡◌, [], ◌∷◌, ◌++◌, false, refl, IfOk, OnErr, IsErrOf};
ghost use Rattle.std.specs.List.{AllPass};
ghost use Rattle.fp_base.specs.Counters.{one_more};
ghost use Rattle.fp_base.specs.Files.{is_class_file, texts};
ghost use Rattle.fp_base.specs.Calls.{HasDirCause};
ghost use Rattle.fp_base.specs.Calls.Call.{Listing, Reading};

use crate::host::walk::{HostFault, class_files};
use crate::outside::call::{CallKind, DirCall, note_failed};
use crate::outside::dir::{ClassDir, DirFault, READ_LIMIT};
use std::alloc::{AllocError, Global};
use std::fs::{self, OpenFile};
use std::io::Read;
use std::marker::Model;
use std::rt::Files;

/// The files of the system. It tells none of them, and a file that isn't there is a fault.
#[derive(Drop)]
pub struct HostDir<'a, R: Files> {
    rt: &'a R,
    listed: Vec<String>,
    failed: Vec<DirCall>,
    readings: u64,
}

impl<'a, R: Files> Model for HostDir<'a, R> {
    ghost use Rattle.std.specs.Prelude.{map};
    ghost use Rattle.fp_base.specs.Host.{HostDirState};
    ghost use Rattle.fp_base.specs.Files.{texts};
    ghost use Rattle.fp_base.specs.Calls.{call_of};

    ghost Value = { HostDirState };

    ghost view = { λ d. record { listed = texts d.listed.items; failed = map call_of d.failed.items; readings = d.readings } };
}

impl<'a, R: Files> HostDir<'a, R> {
    /// The files that the runtime reaches.
    pub fn new(alloc: Global, rt: &'a R) -> HostDir<'a, R>
        ensures listed { result.listed ≡ [] }
        ensures failed { result.failed ≡ [] }
        ensures readings { result.readings ≡ 0 }
    {
        HostDir {
            rt,
            listed: Vec::new(alloc),
            failed: Vec::new(alloc),
            readings: 0,
        }
    }
}

/// The first bytes of a file. As many as the system tells are read at once, and then what it doesn't tell, which is mostly
/// nothing. A file that gets shorter meanwhile is a fault.
fn first_bytes<R: Files>(alloc: Global, rt: &R, path: &str) -> Result<Vec<u8>, HostFault> {
    let mut file = fs::open(rt, path)?;
    let length = file.metadata()?.len().min(READ_LIMIT as u64);
    // One byte more, so that the end is met without further room.
    let mut bytes = Vec::with_capacity(alloc, length as usize + 1)?;
    bytes.resize(length as usize, 0)?;
    file.read_exact(&mut bytes)?;
    file.take(READ_LIMIT as u64 - length)
        .read_to_end(&mut bytes)?;
    Ok(bytes)
}

/// Copies of paths.
fn copies(alloc: Global, paths: &[String]) -> Result<Vec<String>, AllocError>
    ensures { IfOk result (λ copies. texts copies.items ≡ texts paths.now) }
{
    let mut copies = Vec::new(alloc);
    for path in paths {
        copies.push(String::from_str(alloc, path.as_str())?)?;
    }
    Ok(copies)
}

impl<'a, R: Files> ClassDir for HostDir<'a, R> {
    ghost tells = { λ _. false };

    ghost files = { λ _. [] };

    ghost apart = { λ _. refl };

    ghost listed = { λ d. d.listed };

    ghost failed = { λ d. d.failed };

    ghost readings = { λ d. d.readings };

    fn list(&mut self, alloc: Global, path: &str) -> Result<Vec<String>, DirFault>
        ensures readings { self.new.readings ≡ self.old.readings }
        ensures listed { IfOk result (λ paths. self.new.listed ≡ texts paths.items) }
        ensures kept { OnErr result (self.new.listed ≡ self.old.listed) }
        ensures noted { IsErrOf result DirFault.Failed → self.new.failed ≡ self.old.failed ++ Listing path.now ∷ [] }
        ensures not_noted { (IsErrOf result DirFault.Failed → ⊥) → self.new.failed ≡ self.old.failed }
        ensures present { IsErrOf result DirFault.Absent → ⊥ }

        // What each directory promises, where these don't say it.
        ensures below { IfOk result (λ paths. AllPass (is_class_file path.now) (texts paths.items)) }
        ensures cause { HasDirCause self.old.failed self.new.failed (Listing path.now) result }
    {
        let found = match class_files(alloc, self.rt, path) {
            Ok(found) => found,
            Err(HostFault::Failed) => {
                return Err(note_failed(alloc, &mut self.failed, CallKind::Listing, path));
            }
            Err(HostFault::Memory) => return Err(DirFault::Memory),
        };
        self.listed = copies(alloc, &found)?;
        Ok(found)
    }

    fn read(&mut self, alloc: Global, path: &str) -> Result<Vec<u8>, DirFault>
        ensures readings { self.new.readings ≡ one_more self.old.readings }
        ensures listed { self.new.listed ≡ self.old.listed }
        ensures noted { IsErrOf result DirFault.Failed → self.new.failed ≡ self.old.failed ++ Reading path.now ∷ [] }
        ensures not_noted { (IsErrOf result DirFault.Failed → ⊥) → self.new.failed ≡ self.old.failed }
        ensures present { IsErrOf result DirFault.Absent → ⊥ }

        // What each directory promises, where these don't say it.
        ensures cause { HasDirCause self.old.failed self.new.failed (Reading path.now) result }
    {
        self.readings = self.readings.saturating_add(1);
        match first_bytes(alloc, self.rt, path) {
            Ok(bytes) => Ok(bytes),
            Err(HostFault::Failed) => {
                Err(note_failed(alloc, &mut self.failed, CallKind::Reading, path))
            }
            Err(HostFault::Memory) => Err(DirFault::Memory),
        }
    }
}

#[cfg(test)]
mod tests {
    use super::*;
    use std::os::unix::fs::symlink;
    use std::test::Fail;

    const FOLDER: &str = "host_dir_test";

    fn make_folder(rt: &HostRuntime) -> Result<(), Fail> {
        let _ = fs::remove_dir_all(rt, FOLDER);
        fs::create_dir_all(rt, "host_dir_test/e/f")?;
        for (path, text) in [
            ("host_dir_test/A.class", "a"),
            ("host_dir_test/note.txt", "b"),
            ("host_dir_test/empty.class", ""),
            ("host_dir_test/e/B.class", "cc"),
            ("host_dir_test/e/f/C.class", "d"),
        ] {
            fs::write(rt, path, text)?;
        }
        symlink(rt, "e", "host_dir_test/link")?;
        let long = vec![in rt.alloc(); 0u8; 4_194_306]?;
        fs::write(rt, "host_dir_test/long.class", long.as_slice())?;
        Ok(())
    }

    /// The paths that a listing answers, in their order, or its fault.
    fn listing<R: Files>(
        alloc: Global,
        dir: &mut HostDir<'_, R>,
        path: &str,
    ) -> Result<String, Fail> {
        match dir.list(alloc, path) {
            Ok(mut paths) => {
                paths.sort()?;
                Ok(paths.join(alloc, " ")?)
            }
            Err(fault) => Ok(format!(in alloc; "{fault:?}")?),
        }
    }

    /// How many bytes a reading answers, and the first of them, or its fault.
    fn reading<R: Files>(
        alloc: Global,
        dir: &mut HostDir<'_, R>,
        path: &str,
    ) -> Result<String, Fail> {
        match dir.read(alloc, path) {
            Ok(bytes) => Ok(format!(in alloc; "{} {:?}", bytes.len(), bytes.first())?),
            Err(fault) => Ok(format!(in alloc; "{fault:?}")?),
        }
    }

    #[test]
    fn real_files_are_listed_and_read(rt: HostRuntime) -> Result<(), Fail> {
        let alloc = rt.alloc();
        make_folder(&rt)?;
        let mut dir = HostDir::new(alloc, &rt);
        for (path, expected) in [
            ("host_dir_test/g", "Failed"),
            ("host_dir_test/A.class", "Failed"),
            (
                "host_dir_test/e",
                "host_dir_test/e/B.class host_dir_test/e/f/C.class",
            ),
            (
                FOLDER,
                "host_dir_test/A.class host_dir_test/e/B.class host_dir_test/e/f/C.class \
                    host_dir_test/empty.class host_dir_test/long.class",
            ),
        ] {
            assert_eq!(rt;
                listing(alloc, &mut dir, path)?.as_str(),
                expected,
                "at {path}"
            );
        }
        for (path, expected) in [
            ("host_dir_test/e/B.class", "2 Some(99)"),
            ("host_dir_test/empty.class", "0 None"),
            ("host_dir_test/long.class", "4194305 Some(0)"),
            ("host_dir_test/Z.class", "Failed"),
            ("host_dir_test/e", "Failed"),
        ] {
            assert_eq!(rt;
                reading(alloc, &mut dir, path)?.as_str(),
                expected,
                "at {path}"
            );
        }
        assert_eq!(rt;
            (dir.listed.len(), dir.failed.len(), dir.readings),
            (5, 4, 5)
        );
        fs::remove_dir_all(&rt, FOLDER)?;
        Ok(())
    }
}
