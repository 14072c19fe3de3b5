ghost use Rattle.std.specs.Prelude.{◌≡◌, [], ◌∷◌, ◌++◌, map, List};
ghost use Rattle.fp_base.specs.Calls.{call_at, call_of};

use crate::outside::dir::DirFault;
use std::alloc::Global;

/// What a call on a [`ClassDir`](crate::ClassDir) asks for.
#[derive(Clone, Copy, Debug, PartialEq, Eq)]
pub enum CallKind {
    /// The paths of the class files below a directory.
    Listing,
    /// The bytes of a file.
    Reading,
}

/// A call on a [`ClassDir`](crate::ClassDir), with its path.
#[derive(Drop)]
pub struct DirCall {
    kind: CallKind,
    path: String,
}

/// Notes a call that failed. Where memory runs out nothing is noted.
pub fn note_failed(alloc: Global, failed: &mut Vec<DirCall>, kind: CallKind, path: &str) -> DirFault
    ensures noted { result ≡ DirFault.Failed → map call_of failed.new.items ≡ map call_of failed.old.items ++ call_at kind path.now ∷ [] }
    ensures memory { result ≡ DirFault.Memory → failed.new.items ≡ failed.old.items }
    ensures present { result ≡ DirFault.Absent → ⊥ }
{
    let Ok(path) = String::from_str(alloc, path) else {
        return DirFault::Memory;
    };
    if failed.push(DirCall { kind, path }).is_err() {
        return DirFault::Memory;
    }
    DirFault::Failed
}
