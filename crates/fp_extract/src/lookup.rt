//! The fields that instructions read and write.
ghost use Rattle.std.specs.Prelude.{◌≡◌, ◌<◌, length, IfSome};
ghost use Rattle.fp_model.specs.ClassSet.{fields_of};
ghost use Rattle.fp_extract.specs.Accessed.{accessed_field};
ghost use Rattle.fp_hier.specs.Hierarchies.{IsHierOf};

use fp_hier::Hier;
use fp_model::{ClassSet, FieldId, Instr};

/// The field of the set that an instruction reads or writes, static or not. Takes no memory.
pub(crate) fn accessed_field(set: &ClassSet, hier: &Hier, instr: &Instr) -> Option<FieldId>
    requires { IsHierOf set.now hier.now }
    ensures field { result ≡ accessed_field set.now.classes instr.now }
    ensures known { IfSome result (λ id. id < length (fields_of set.now.classes)) }
{
    match instr {
        Instr::GetStatic {
            class,
            name,
            descr,
            ..
        }
        | Instr::PutStatic {
            class,
            name,
            descr,
            ..
        }
        | Instr::GetField {
            class,
            name,
            descr,
            ..
        }
        | Instr::PutField {
            class,
            name,
            descr,
            ..
        } => hier.resolve_field(set, *class, *name, *descr),
        _ => None,
    }
}
