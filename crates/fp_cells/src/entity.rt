//! The names of kinds and entities, as reports and words have them.
ghost use Rattle.std.specs.Prelude.{◌≡◌, ◌<◌, ◌++◌, ◌∷◌, length, All, OnOk, OnErr};
ghost use Rattle.fp_model.specs.ClassSet.{IsSet, SetView, fields_of, methods_of};
ghost use Rattle.fp_model.specs.Descriptor.{text_of};
ghost use Rattle.fp_cells.specs.Entities.{IsEntityOf, class_text, entity_text, kind_text};
ghost use Rattle.fp_cells.specs.Distinct.{HasApartMembers, TellEntities};
ghost use Rattle.fp_base.specs.Escape.{AreBytes, escaped_name};
ghost use Rattle.fp_cells.specs.Lists.{Extends};

use crate::kind::{Entity, KindId};
use fp_base::{Names, escape_name, escape_text};
use fp_model::{Class, ClassSet, FieldId, MethodId, name_text};
use itoa::Buffer;
use std::alloc::AllocError;

/// The name of a kind of property.
pub fn kind_text(kind: KindId) -> &'static [u8]
    ensures { result.now ≡ kind_text kind }
{
    match kind {
        KindId::Declared => b"declared",
        KindId::Inst => b"inst",
        KindId::Reach => b"reach",
        KindId::Callees => b"callees",
        KindId::Assign => b"assign",
        KindId::Immut => b"immut",
        KindId::Timmut => b"timmut",
        KindId::Fresh => b"fresh",
        KindId::Leak => b"leak",
        KindId::Escape => b"escape",
        KindId::Purity => b"purity",
    }
}

/// Appends the text of an entity of the set: the escaped name of a class, `class.name:descriptor` of a field,
/// `class.name(parameters)result` of a method, and `method@pc` of a site. Where there is no memory, `to` stays as it was.
pub fn append_entity(set: &ClassSet, entity: Entity, to: &mut Vec<u8>) -> Result<(), AllocError>
    requires { IsEntityOf set.now entity }
    ensures ok { OnOk result (to.new.items ≡ to.old.items ++ entity_text set.now entity) }
    ensures err { OnErr result (to.new.items ≡ to.old.items) }
{
    let start = to.len();
    let appended = append_parts(set, entity, to);
    if appended.is_err() {
        to.truncate(start);
    }
    appended
}

fn append_parts(set: &ClassSet, entity: Entity, to: &mut Vec<u8>) -> Result<(), AllocError>
    requires { IsEntityOf set.now entity }
    ensures ok { OnOk result (to.new.items ≡ to.old.items ++ entity_text set.now entity) }
    ensures err { OnErr result (Extends to.old.items to.new.items) }
{
    match entity {
        Entity::Class(id) => append_class(set.names(), set.class(id), to),
        Entity::Field(id) => append_field(set, id, to),
        Entity::Method(id) => append_method(set, id, to),
        Entity::Site(site) => {
            append_method(set, site.method, to)?;
            to.push(b'@')?;
            to.extend_from_slice(Buffer::new().format(site.pc).as_bytes())
        }
    }
}

fn append_field(set: &ClassSet, id: FieldId, to: &mut Vec<u8>) -> Result<(), AllocError>
    requires { id < length (fields_of set.now.classes) }
    ensures ok { OnOk result (to.new.items ≡ to.old.items ++ entity_text set.now (Entity.Field id)) }
    ensures err { OnErr result (Extends to.old.items to.new.items) }
{
    let names = set.names();
    let field = set.field(id);
    let class = set.class(set.class_of_field(id));
    append_member(names, class, field.name, to)?;
    to.push(b':')?;
    escape_text(name_text(names, field.descr), to)
}

fn append_method(set: &ClassSet, id: MethodId, to: &mut Vec<u8>) -> Result<(), AllocError>
    requires { id < length (methods_of set.now.classes) }
    ensures ok { OnOk result (to.new.items ≡ to.old.items ++ entity_text set.now (Entity.Method id)) }
    ensures err { OnErr result (Extends to.old.items to.new.items) }
{
    let names = set.names();
    let method = set.method(id);
    let class = set.class(set.class_of_method(id));
    append_member(names, class, method.name, to)?;
    escape_text(name_text(names, method.descr), to)
}

fn append_class(names: &Names, class: &Class, to: &mut Vec<u8>) -> Result<(), AllocError>
    ensures ok { OnOk result (to.new.items ≡ to.old.items ++ class_text names.now class.now) }
    ensures err { OnErr result (Extends to.old.items to.new.items) }
{
    escape_name(name_text(names, class.name), to)
}

// Appends the name of a class, a dot, and the name of a member.
fn append_member(
    names: &Names,
    class: &Class,
    member: u32,
    to: &mut Vec<u8>,
) -> Result<(), AllocError>
    ensures ok { OnOk result (to.new.items ≡ to.old.items
        ++ (class_text names.now class.now ++ (46 ∷ escaped_name (text_of names.now member)))) }
    ensures err { OnErr result (Extends to.old.items to.new.items) }
{
    append_class(names, class, to)?;
    to.push(b'.')?;
    escape_name(name_text(names, member), to)
}

/// No two entities of one kind have one text: classes, fields, methods and sites of a set whose classes have no two members of one
/// name and descriptor, and whose names are byte strings.
pub fn law_texts()
    ensures { (set : SetView) → IsSet set → All AreBytes set.names → All HasApartMembers set.classes → TellEntities set }
{}
