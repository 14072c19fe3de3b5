ghost use Rattle.std.specs.Prelude.{◌≡◌, Bool, ℕ, List, IsTrue, IfOk, OnErr, IsErrOf, IsPermutation, Some, None};
ghost use Rattle.std.specs.Option.{option_map};
ghost use Rattle.std.specs.List.{AllPass};
ghost use Rattle.fp_base.specs.Files.{File, bytes_at, class_paths, distinct_paths, first_bytes, is_class_file, texts};
ghost use Rattle.fp_base.specs.Calls.{Call, HasDirCause};
ghost use Rattle.fp_base.specs.Counters.{one_more};
ghost use Rattle.fp_base.specs.declared.outside.dir.DirFault.TheVariants.{Memory};
ghost use Rattle.fp_base.specs.Calls.Call.{Listing, Reading};

use std::alloc::{AllocError, Global};

/// How many bytes of a file a read gives at most: one more than a class file may have.
pub const READ_LIMIT: usize = 4_194_305;

/// Why a call on a [`ClassDir`] has no answer.
#[derive(Debug, Clone, Copy, PartialEq, Eq)]
pub enum DirFault {
    /// The directory tells its files, and the path isn't among them.
    Absent,
    /// The outside failed.
    Failed,
    /// Memory ran out.
    Memory,
}

impl From<AllocError> for DirFault {
    ghost from_gives = { λ _ fault. fault ≡ Memory };

    fn from(_: AllocError) -> DirFault {
        DirFault::Memory
    }
}

/// Directories with class files below them. An implementation may tell its files: then its answers are theirs.
/// No call changes them.
pub trait ClassDir {
    // Whether it tells its files.
    ghost tells: { Self → Bool };

    // The files that it tells.
    ghost files: { Self → List File };

    // No two of them have one path.
    ghost apart: { (dir : Self) → IsTrue (distinct_paths (files dir)) };

    // The paths that its last listing answered.
    ghost listed: { Self → List (List ℕ) };

    // The calls that failed, the oldest first.
    ghost failed: { Self → List Call };

    // How often a file was asked for. The count stands still at the last value of a `u64`.
    ghost readings: { Self → ℕ };

    /// The paths below `path` that end in `.class`, each with `path` and `/` before it, in any order. Where files
    /// are told, these are exactly the told paths of this form, each once. Never [`DirFault::Absent`].
    fn list(&mut self, alloc: Global, path: &str) -> Result<Vec<String>, DirFault>
        ensures tells { tells self.new ≡ tells self.old }
        ensures files { files self.new ≡ files self.old }
        ensures below { IfOk result (λ paths. AllPass (is_class_file path.now) (texts paths.items)) }
        ensures told { IfOk result (λ paths. IsTrue (tells self.old)
            → IsPermutation (class_paths (files self.old) path.now) (texts paths.items)) }
        ensures listed { IfOk result (λ paths. listed self.new ≡ texts paths.items) }
        ensures kept { OnErr result (listed self.new ≡ listed self.old) }
        ensures present { IsErrOf result DirFault.Absent → ⊥ }
        ensures cause { HasDirCause (failed self.old) (failed self.new) (Listing path.now) result }
        ensures readings { readings self.new ≡ readings self.old };

    /// The bytes of the file at `path`, or its first 4,194,305 bytes where it is longer.
    fn read(&mut self, alloc: Global, path: &str) -> Result<Vec<u8>, DirFault>
        ensures tells { tells self.new ≡ tells self.old }
        ensures files { files self.new ≡ files self.old }
        ensures listed { listed self.new ≡ listed self.old }
        ensures told { IfOk result (λ bytes. IsTrue (tells self.old)
            → option_map first_bytes (bytes_at (files self.old) path.now) ≡ Some bytes.items) }
        ensures absent { IsErrOf result DirFault.Absent
            → IsTrue (tells self.old) × (bytes_at (files self.old) path.now ≡ None) }
        ensures absent_is_no_fault { IsErrOf result DirFault.Absent → failed self.new ≡ failed self.old }
        ensures cause { HasDirCause (failed self.old) (failed self.new) (Reading path.now) result }
        ensures readings { readings self.new ≡ one_more (readings self.old) };
}
