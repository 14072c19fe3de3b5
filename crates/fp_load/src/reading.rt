ghost use Rattle.std.specs.Prelude.{◌≡◌, ◌+◌, ◌≤◌, List, length, IsSome, Some, IsTrue, IfOk, IfErr, [], ◌∷◌};
ghost use Rattle.fp_base.specs.Files.{File, bytes_at};
ghost use Rattle.fp_load.specs.Causes.{Keeps};
ghost use Rattle.fp_load.specs.Load.{passed_from};
ghost use Rattle.fp_load.specs.Steps.{file_at, BlamesReading, TellsPassed};

use crate::fault::LoadFault;
use crate::paths::unread;
use fp_base::{ClassDir, DirFault};
use fp_model::LimitName;
use std::alloc::Global;

/// The most bytes that a file may have.
const MOST_FILE_BYTES: u64 = 4_194_304;

/// The most bytes that all files may have.
const MOST_BYTES: u64 = 268_435_456;

/// The bytes of a file that was listed, so many bytes having been read before.
pub fn read_file<D: ClassDir>(
    alloc: Global,
    dir: &mut D,
    path: &str,
    before: u64,
) -> Result<Vec<u8>, LoadFault>
    requires there { IsTrue (D.tells dir.old) → IsSome (bytes_at (D.files dir.old) path.now) }
    requires before { before ≤ 268435456 }
    ensures keeps { Keeps (D.tells dir.old) (D.files dir.old) (D.failed dir.old) (D.tells dir.new) (D.files dir.new) (D.failed dir.new) }
    ensures listed { D.listed dir.new ≡ D.listed dir.old }

    ensures bytes { IfOk result (λ bytes. IsTrue (D.tells dir.old) → bytes_at (D.files dir.old) path.now ≡ Some bytes.items) }
    ensures short { IfOk result (λ bytes. length bytes.items ≤ 4194304) }
    ensures room { IfOk result (λ bytes. before + length bytes.items ≤ 268435456) }

    ensures passed { IfErr result (λ fault. IsTrue (D.tells dir.old) → (rest : List File) → TellsPassed (passed_from before (file_at (D.files dir.old) path.now ∷ rest)) fault) }
    ensures blames { IfErr result (λ fault. BlamesReading (path.now ∷ []) (D.failed dir.old) (D.failed dir.new) fault) }
{
    let bytes = match dir.read(alloc, path) {
        Ok(bytes) => bytes,
        Err(DirFault::Failed) => return Err(unread(alloc, path)),
        Err(DirFault::Memory) => return Err(LoadFault::Memory),
        Err(DirFault::Absent) => unreachable!(),
    };
    let length = bytes.len() as u64;
    if length > MOST_FILE_BYTES {
        return Err(LoadFault::Limit(LimitName::FileBytes, MOST_FILE_BYTES));
    }
    if before + length > MOST_BYTES {
        return Err(LoadFault::Limit(LimitName::AllBytes, MOST_BYTES));
    }
    Ok(bytes)
}
