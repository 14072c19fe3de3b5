ghost use Rattle.std.specs.Prelude.{◌≡◌, [], ◌∷◌, ◌++◌, true, false, IsTrue, IfOk, OnOk, OnErr, IsErrOf, Some, None, take, ◌↔◌};
ghost use Rattle.std.specs.Option.{option_map};
ghost use Rattle.std.specs.List.{AllPass};
ghost use Rattle.fp_base.specs.Counters.{one_more};
ghost use Rattle.fp_base.specs.Files.{bytes_at, class_paths as class_paths_of, distinct_paths, files_of, first_bytes, is_class_file, texts};
ghost use Rattle.fp_base.specs.Calls.{HasDirCause};
ghost use Rattle.fp_base.specs.Calls.Call.{Listing, Reading};
ghost use Rattle.fp_base.specs.MemDir.{Counts};
ghost use Rattle.fp_base.specs.MemDir as spec;

use crate::memory::files::{class_paths, contents_at};
use crate::outside::call::{CallKind, DirCall, note_failed};
use crate::outside::dir::{ClassDir, DirFault, READ_LIMIT};
use indexmap::IndexMap;
use std::alloc::{AllocError, Global};
use std::marker::Model;

/// A directory in memory, which tells its files, and fails at the calls that its maker names.
#[derive(Drop)]
pub struct MemDir {
    files: IndexMap<String, Vec<u8>>,
    failing: Vec<u32>,
    calls: u64,
    readings: u64,
    listed: Vec<String>,
    failed: Vec<DirCall>,
    ghost apart: { IsTrue (distinct_paths (files_of files.entries)) },
}

impl Model for MemDir {
    ghost use Rattle.std.specs.Prelude.{map};
    ghost use Rattle.fp_base.specs.MemDir.{MemDirState};
    ghost use Rattle.fp_base.specs.Files.{files_of, texts};
    ghost use Rattle.fp_base.specs.Calls.{call_of};

    ghost Value = { MemDirState };

    ghost view = { λ d. record {
      files = files_of d.files.entries;
      failing = d.failing.items;
      calls = d.calls;
      readings = d.readings;
      listed = texts d.listed.items;
      failed = map call_of d.failed.items;
      apart = d.apart;
    } };
}

impl MemDir {
    /// A directory of these files, by their paths. `failing` has the numbers of the calls that fail: listings
    /// and readings are numbered together, from 0.
    pub fn new(alloc: Global, files: IndexMap<String, Vec<u8>>, failing: Vec<u32>) -> MemDir
        ensures files { result.files ≡ files_of files.entries }
        ensures failing { result.failing ≡ failing.items }
        ensures calls { result.calls ≡ 0 }
        ensures readings { result.readings ≡ 0 }
        ensures listed { result.listed ≡ [] }
        ensures failed { result.failed ≡ [] }
    {
        let _paths = files.len();
        MemDir {
            files,
            failing,
            calls: 0,
            readings: 0,
            listed: Vec::new(alloc),
            failed: Vec::new(alloc),
        }
    }
}

/// Whether the call of this number fails.
fn is_failing(failing: &[u32], call: u64) -> bool
    ensures { result ≡ spec.is_failing failing.now call }
{
    failing.iter().any(|number| u64::from(*number) == call)
}

/// The first bytes, at most this many.
fn prefix(alloc: Global, bytes: &[u8], most: usize) -> Result<Vec<u8>, AllocError>
    ensures { IfOk result (λ part. part.items ≡ take most bytes.now) }
{
    let part = if bytes.len() <= most {
        bytes
    } else {
        &bytes[..most]
    };
    Vec::from_slice(alloc, part)
}

/// What a read gives of a file's bytes.
fn front(alloc: Global, bytes: &[u8]) -> Result<Vec<u8>, AllocError>
    ensures { IfOk result (λ part. part.items ≡ first_bytes bytes.now) }
{
    prefix(alloc, bytes, READ_LIMIT)
}

impl ClassDir for MemDir {
    ghost tells = { λ _. true };

    ghost files = { λ d. d.files };

    ghost apart = { λ d. d.apart };

    ghost listed = { λ d. d.listed };

    ghost failed = { λ d. d.failed };

    ghost readings = { λ d. d.readings };

    fn list(&mut self, alloc: Global, path: &str) -> Result<Vec<String>, DirFault>
        ensures counts { Counts self.old self.new }
        ensures whole { IfOk result (λ paths. texts paths.items ≡ class_paths_of self.old.files path.now) }
        ensures readings { self.new.readings ≡ self.old.readings }
        ensures listed { IfOk result (λ paths. self.new.listed ≡ texts paths.items) }
        ensures kept { OnErr result (self.new.listed ≡ self.old.listed) }

        // Which calls fail.
        ensures no_failing_call { OnOk result (spec.is_failing self.old.failing self.old.calls ≡ false) }
        ensures failing_call { IsErrOf result DirFault.Failed
            → spec.is_failing self.old.failing self.old.calls ≡ true }
        ensures noted { IsErrOf result DirFault.Failed → self.new.failed ≡ self.old.failed ++ Listing path.now ∷ [] }
        ensures not_noted { (IsErrOf result DirFault.Failed → ⊥) → self.new.failed ≡ self.old.failed }
        ensures present { IsErrOf result DirFault.Absent → ⊥ }

        // What each directory promises, where these don't say it.
        ensures below { IfOk result (λ paths. AllPass (is_class_file path.now) (texts paths.items)) }
        ensures cause { HasDirCause self.old.failed self.new.failed (Listing path.now) result }
    {
        let number = self.calls;
        self.calls = self.calls.saturating_add(1);
        if is_failing(&self.failing, number) {
            return Err(note_failed(alloc, &mut self.failed, CallKind::Listing, path));
        }
        let paths = class_paths(alloc, &self.files, path)?;
        self.listed = class_paths(alloc, &self.files, path)?;
        Ok(paths)
    }

    fn read(&mut self, alloc: Global, path: &str) -> Result<Vec<u8>, DirFault>
        ensures counts { Counts self.old self.new }
        ensures whole { IfOk result (λ bytes. option_map first_bytes (bytes_at self.old.files path.now) ≡ Some bytes.items) }
        ensures readings { self.new.readings ≡ one_more self.old.readings }
        ensures listed { self.new.listed ≡ self.old.listed }

        // Which calls fail.
        ensures no_failing_call { OnOk result (spec.is_failing self.old.failing self.old.calls ≡ false) }
        ensures failing_call { IsErrOf result DirFault.Failed
            → spec.is_failing self.old.failing self.old.calls ≡ true }
        ensures noted { IsErrOf result DirFault.Failed → self.new.failed ≡ self.old.failed ++ Reading path.now ∷ [] }
        ensures not_noted { (IsErrOf result DirFault.Failed → ⊥) → self.new.failed ≡ self.old.failed }
        ensures absent { IsErrOf result DirFault.Absent
            ↔ ((bytes_at self.old.files path.now ≡ None) × (spec.is_failing self.old.failing self.old.calls ≡ false)) }

        // What each directory promises, where these don't say it.
        ensures cause { HasDirCause self.old.failed self.new.failed (Reading path.now) result }
    {
        let number = self.calls;
        self.calls = self.calls.saturating_add(1);
        self.readings = self.readings.saturating_add(1);
        if is_failing(&self.failing, number) {
            return Err(note_failed(alloc, &mut self.failed, CallKind::Reading, path));
        }
        match contents_at(&self.files, path) {
            None => Err(DirFault::Absent),
            Some(bytes) => Ok(front(alloc, bytes)?),
        }
    }
}
