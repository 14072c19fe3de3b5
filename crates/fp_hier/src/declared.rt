//! The members that classes declare, by their names and descriptors.
ghost use Rattle.std.specs.Prelude.{◌≡◌, ◌<◌, None, Some, length, if◌then◌else◌, IfOk, OnOk};
ghost use Rattle.std.specs.Option.{option_or};
ghost use Rattle.std.specs.Map.{lookup};
ghost use Rattle.fp_facts.specs.Resolution.{declared_field, declared_method};
ghost use Rattle.fp_model.specs.ClassSet.{SetView};
ghost use Rattle.fp_hier.specs.Members.{IsDeclaredOf, TellsFields, TellsMethods, field_of_class, is_key, method_of_class};

use crate::signature::Signature;
use fp_model::{ClassId, ClassSet, FieldId, MethodId};
use indexmap::IndexMap;
use std::alloc::{AllocError, Global};

/// What a member is looked up by.
#[derive(Clone, Copy, Debug, PartialEq, Eq, Hash)]
struct Member {
    class: ClassId,
    name: u32,
    descr: u32,
}

/// The first method and the first field of each class, name and descriptor.
#[derive(Drop)]
pub(crate) struct Declared {
    methods: IndexMap<Member, MethodId>,
    fields: IndexMap<Member, FieldId>,
}

impl Declared {
    /// Looks through the members of all classes.
    pub(crate) fn build(alloc: Global, set: &ClassSet) -> Result<Declared, AllocError>
        ensures { IfOk result (IsDeclaredOf set.now) }
    {
        let methods = all_methods(alloc, set)?;
        let fields = all_fields(alloc, set)?;
        Ok(Declared { methods, fields })
    }

    /// The first method of a name and a descriptor that a class declares. Takes no memory.
    pub(crate) fn method(&self, class: ClassId, signature: Signature) -> Option<MethodId>
        ensures { (set : SetView) → IsDeclaredOf set self.now → result ≡ declared_method set.classes signature.name signature.descr class }
    {
        let Signature { name, descr } = signature;
        let key = Member { class, name, descr };
        self.methods.get(&key).copied()
    }

    /// The first field of a name and a descriptor that a class declares. Takes no memory.
    pub(crate) fn field(&self, class: ClassId, signature: Signature) -> Option<FieldId>
        ensures { (set : SetView) → IsDeclaredOf set self.now → result ≡ declared_field set.classes signature.name signature.descr class }
    {
        let Signature { name, descr } = signature;
        let key = Member { class, name, descr };
        self.fields.get(&key).copied()
    }
}

// Keeps the number of a member, unless there is one of its key.
fn keep_first(table: &mut IndexMap<Member, u32>, key: Member, id: u32) -> Result<(), AllocError>
    ensures { OnOk result ((k : Member) → lookup (is_key k) table.new.entries
        ≡ option_or (lookup (is_key k) table.old.entries) (if is_key k key then Some id else None)) }
{
    if table.get(&key).is_none() {
        table.insert(key, id)?;
    }
    Ok(())
}

// Adds the methods of a class.
fn add_methods(
    table: &mut IndexMap<Member, MethodId>,
    set: &ClassSet,
    class: ClassId,
) -> Result<(), AllocError>
    requires { class < length set.now.classes }
    ensures { OnOk result ((k : Member) → lookup (is_key k) table.new.entries
        ≡ option_or (lookup (is_key k) table.old.entries) (method_of_class set.now.classes class k)) }
{
    let mut id = set.first_method(class);
    for method in set.class(class).methods.as_slice() {
        let key = Member {
            class,
            name: method.name,
            descr: method.descr,
        };
        keep_first(table, key, id)?;
        id += 1;
    }
    Ok(())
}

// Adds the fields of a class.
fn add_fields(
    table: &mut IndexMap<Member, FieldId>,
    set: &ClassSet,
    class: ClassId,
) -> Result<(), AllocError>
    requires { class < length set.now.classes }
    ensures { OnOk result ((k : Member) → lookup (is_key k) table.new.entries
        ≡ option_or (lookup (is_key k) table.old.entries) (field_of_class set.now.classes class k)) }
{
    let mut id = set.first_field(class);
    for field in set.class(class).fields.as_slice() {
        let key = Member {
            class,
            name: field.name,
            descr: field.descr,
        };
        keep_first(table, key, id)?;
        id += 1;
    }
    Ok(())
}

// The methods of all classes.
fn all_methods(alloc: Global, set: &ClassSet) -> Result<IndexMap<Member, MethodId>, AllocError>
    ensures { IfOk result (λ table. TellsMethods set.now.classes table.entries) }
{
    let mut table = IndexMap::new(alloc);
    let (classes, _, _) = set.counts();
    for class in 0..classes {
        add_methods(&mut table, set, class)?;
    }
    Ok(table)
}

// The fields of all classes.
fn all_fields(alloc: Global, set: &ClassSet) -> Result<IndexMap<Member, FieldId>, AllocError>
    ensures { IfOk result (λ table. TellsFields set.now.classes table.entries) }
{
    let mut table = IndexMap::new(alloc);
    let (classes, _, _) = set.counts();
    for class in 0..classes {
        add_fields(&mut table, set, class)?;
    }
    Ok(table)
}
