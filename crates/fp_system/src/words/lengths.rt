//! Which entities have long texts, told without writing these.
ghost use Rattle.std.specs.Prelude.{◌≡◌, ◌<◌, ◌≤◌, length, true};
ghost use Rattle.fp_model.specs.ClassSet.{fields_of, methods_of};
ghost use Rattle.fp_model.specs.Descriptor.{text_of};
ghost use Rattle.fp_cells.specs.Entities.{IsEntityOf, class_text, entity_text};

use fp_base::Names;
use fp_cells::Entity;
use fp_model::{ClassSet, FieldId, MethodId, name_text};

/// Whether a name in the text of the entity is longer than this, and so the text is. Files choose their names, and a text
/// may be a thousand times as long as any that is looked for.
pub fn is_longer(set: &ClassSet, entity: Entity, most: usize) -> bool
    requires { IsEntityOf set.now entity }
    ensures { result ≡ true → most < length (entity_text set.now entity) }
{
    match entity {
        Entity::Class(id) => has_longer(set.names(), set.class(id).name, most),
        Entity::Field(id) => is_longer_field(set, id, most),
        Entity::Method(id) => is_longer_method(set, id, most),
        Entity::Site(site) => is_longer_method(set, site.method, most),
    }
}

fn is_longer_field(set: &ClassSet, id: FieldId, most: usize) -> bool
    requires { id < length (fields_of set.now.classes) }
    ensures { result ≡ true → most < length (entity_text set.now (Entity.Field id)) }
{
    let names = set.names();
    let field = set.field(id);
    let class = set.class(set.class_of_field(id));
    if has_longer(names, class.name, most) {
        return true;
    }
    if has_longer(names, field.name, most) {
        return true;
    }
    has_longer(names, field.descr, most)
}

fn is_longer_method(set: &ClassSet, id: MethodId, most: usize) -> bool
    requires { id < length (methods_of set.now.classes) }
    ensures { result ≡ true → most < length (entity_text set.now (Entity.Method id)) }
{
    let names = set.names();
    let method = set.method(id);
    let class = set.class(set.class_of_method(id));
    if has_longer(names, class.name, most) {
        return true;
    }
    if has_longer(names, method.name, most) {
        return true;
    }
    has_longer(names, method.descr, most)
}

// Whether the name is longer than this.
fn has_longer(names: &Names, number: u32, most: usize) -> bool
    ensures { result ≡ true → most < length (text_of names.now number) }
{
    name_text(names, number).len() > most
}
