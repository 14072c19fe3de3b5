//! Which field a reference means (JVMS SE 21 section 5.4.3.2).
ghost use Rattle.std.specs.Prelude.{◌≡◌, ◌<◌, length, IfSome};
ghost use Rattle.fp_model.specs.ClassSet.{fields_of};
ghost use Rattle.fp_facts.specs.Hierarchy.{superinterfaces_at};
ghost use Rattle.fp_facts.specs.Resolution as resolution;
ghost use Rattle.fp_facts.specs.Resolution.{class_and_superinterfaces, declared_field, first_given};
ghost use Rattle.fp_hier.specs.Hierarchies.{IsHierOf};

use crate::hier::Hier;
use crate::lineage::Lineage;
use crate::signature::Signature;
use fp_model::{ClassId, ClassSet, FieldId};

/// The field that a reference means: of the class, of its superinterfaces, of its superclass, and so on up.
pub(crate) fn resolve_field(
    hier: &Hier,
    set: &ClassSet,
    class: u32,
    signature: Signature,
) -> Option<FieldId>
    requires { IsHierOf set.now hier.now }
    ensures field { result ≡ resolution.resolve_field set.now.classes class signature.name signature.descr }
    ensures known { IfSome result (λ id. id < length (fields_of set.now.classes)) }
{
    let class = set.find_class(class)?;
    let mut rest = Lineage::of(set, class);
    while let Some(id) = rest.step(set) {
        let names = hier.superinterfaces.of(id);
        if let Some(field) = own_field(hier, set, id, names, signature) {
            return Some(field);
        }
    }
    None
}

// The field of a class, or else of its superinterfaces, which have these names.
fn own_field(
    hier: &Hier,
    set: &ClassSet,
    class: ClassId,
    names: &[u32],
    signature: Signature,
) -> Option<FieldId>
    requires hier { IsHierOf set.now hier.now }
    requires names { names.now ≡ superinterfaces_at set.now.classes class }
    ensures { result ≡ first_given (declared_field set.now.classes signature.name signature.descr) (class_and_superinterfaces set.now.classes class) }
{
    if let Some(field) = hier.declared.field(class, signature) {
        return Some(field);
    }
    for interface in names {
        let Some(id) = set.find_class(*interface) else {
            continue;
        };
        if let Some(field) = hier.declared.field(id, signature) {
            return Some(field);
        }
    }
    None
}
