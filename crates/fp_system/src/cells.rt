//! The cells of a set of classes.
ghost use Rattle.std.specs.Prelude.{◌≡◌, ◌≤◌, ◌+◌, ◌++◌, ◌∷◌, [], false, if◌then◌else◌, IfOk, OnOk};
ghost use Rattle.fp_model.specs.ClassSet.{methods_of};
ghost use Rattle.fp_cells.specs.Cells.{has_cell};
ghost use Rattle.fp_system.specs.Java.{arguments, class_cells, field_cells, is_reference, java_cells, lacks, method_cells};
ghost use Rattle.fp_system.specs.Kinds.{AreBefore, method_bits, method_has, rank};

use fp_cells::{Cells, Entity, KindId, count_places};
use fp_model::flags::{ACC_ABSTRACT, ACC_INTERFACE, is_static};
use fp_model::{Class, ClassId, ClassSet, Kind, Method, MethodId};
use std::alloc::{AllocError, Global};

/// A kind of property of classes.
#[derive(Clone, Copy, Debug, PartialEq, Eq)]
pub struct ClassProperty {
    /// Its kind.
    pub kind: KindId,
    /// How many bits it has.
    pub bits: u32,
    /// Access flags (JVMS SE 21 section 4.1). A class with one of them has no such property.
    pub without: u16,
}

/// Each class has it.
pub const DECLARED: ClassProperty = ClassProperty {
    kind: KindId::Declared,
    bits: 1,
    without: 0,
};

/// A class has it that may be the own class of objects.
pub const INST: ClassProperty = ClassProperty {
    kind: KindId::Inst,
    bits: 1,
    without: ACC_INTERFACE | ACC_ABSTRACT,
};

/// A class has it that is no interface.
pub const IMMUT: ClassProperty = ClassProperty {
    kind: KindId::Immut,
    bits: 2,
    without: ACC_INTERFACE,
};

/// Each class has it.
pub const TIMMUT: ClassProperty = ClassProperty {
    kind: KindId::Timmut,
    bits: 2,
    without: 0,
};

/// The most parameters for which the bits of a method's cells have numbers. A class file has far fewer.
const MOST_PARAMETERS: usize = 0xFFFF_0000;

/// The cells of a set, kind by kind.
pub fn make_cells(alloc: Global, set: &ClassSet) -> Result<Cells, AllocError>
    ensures { IfOk result (λ cells. cells ≡ java_cells set.now.classes) }
{
    let mut cells = Cells::new(alloc);
    add_class_cells(set, DECLARED, &mut cells)?;
    add_class_cells(set, INST, &mut cells)?;
    add_method_cells(set, KindId::Reach, &mut cells)?;
    add_field_cells(set, KindId::Assign, 1, &mut cells)?;
    add_class_cells(set, IMMUT, &mut cells)?;
    add_class_cells(set, TIMMUT, &mut cells)?;
    add_method_cells(set, KindId::Fresh, &mut cells)?;
    add_method_cells(set, KindId::Leak, &mut cells)?;
    add_method_cells(set, KindId::Purity, &mut cells)?;
    Ok(cells)
}

// Adds a cell for each class that has the property.
fn add_class_cells(
    set: &ClassSet,
    property: ClassProperty,
    cells: &mut Cells,
) -> Result<(), AllocError>
    requires { AreBefore (rank property.kind) cells.old }
    ensures added { OnOk result (cells.new ≡ cells.old ++ class_cells property.kind property.bits (lacks property.without) 0 set.now.classes) }
    ensures order { OnOk result (AreBefore (rank property.kind + 1) cells.new) }
{
    let (classes, _, _) = set.counts();
    for id in 0..classes {
        let class = set.class(id);
        add_class_cell(class, id, property, cells)?;
    }
    Ok(())
}

fn add_class_cell(
    class: &Class,
    id: ClassId,
    property: ClassProperty,
    cells: &mut Cells,
) -> Result<(), AllocError>
    requires { has_cell cells.old property.kind (Entity.Class id) ≡ false }
    ensures { OnOk result (cells.new ≡ cells.old
        ++ (if lacks property.without class.now then record { kind = property.kind; entity = Entity.Class id; bits = property.bits } ∷ [] else [])) }
{
    if class.flags & property.without != 0 {
        return Ok(());
    }
    add_cell(property.kind, Entity::Class(id), property.bits, cells)
}

// Adds a cell of the kind for each field.
fn add_field_cells(
    set: &ClassSet,
    kind: KindId,
    bits: u32,
    cells: &mut Cells,
) -> Result<(), AllocError>
    requires { AreBefore (rank kind) cells.old }
    ensures added { OnOk result (cells.new ≡ cells.old ++ field_cells kind bits set.now.classes) }
    ensures order { OnOk result (AreBefore (rank kind + 1) cells.new) }
{
    let (_, fields, _) = set.counts();
    for id in 0..fields {
        add_cell(kind, Entity::Field(id), bits, cells)?;
    }
    Ok(())
}

// Adds a cell of the kind for each method that has one.
fn add_method_cells(set: &ClassSet, kind: KindId, cells: &mut Cells) -> Result<(), AllocError>
    requires { AreBefore (rank kind) cells.old }
    ensures added { OnOk result (cells.new
        ≡ cells.old ++ method_cells kind (method_bits kind) (method_has kind) 0 (methods_of set.now.classes)) }
    ensures order { OnOk result (AreBefore (rank kind + 1) cells.new) }
{
    let (_, _, methods) = set.counts();
    for id in 0..methods {
        let method = set.method(id);
        add_method_cell(method, id, kind, cells)?;
    }
    Ok(())
}

fn add_method_cell(
    method: &Method,
    id: MethodId,
    kind: KindId,
    cells: &mut Cells,
) -> Result<(), AllocError>
    requires { has_cell cells.old kind (Entity.Method id) ≡ false }
    ensures { OnOk result (cells.new ≡ cells.old
        ++ (if method_has kind method.now then record { kind = kind; entity = Entity.Method id; bits = method_bits kind method.now } ∷ [] else [])) }
{
    if !has_method_cell(method, kind) {
        return Ok(());
    }
    let bits = count_bits(method, kind)?;
    add_cell(kind, Entity::Method(id), bits, cells)
}

/// Whether the method has a cell of the kind.
pub fn has_method_cell(method: &Method, kind: KindId) -> bool
    ensures { result ≡ method_has kind method.now }
{
    match kind {
        KindId::Reach => method.code.is_some(),
        KindId::Fresh => method.code.is_some() && is_reference(method.kinds.result),
        _ => true,
    }
}

// Whether values of the type are references.
fn is_reference(kind: Option<Kind>) -> bool
    ensures { result ≡ is_reference kind }
{
    match kind {
        Some(Kind::Class(_) | Kind::Array(_, _)) => true,
        _ => false,
    }
}

/// How many bits the method's cell of the kind has.
pub fn count_bits(method: &Method, kind: KindId) -> Result<u32, AllocError>
    ensures { IfOk result (λ bits. bits ≡ method_bits kind method.now) }
{
    match kind {
        KindId::Leak => count_arguments(method),
        KindId::Purity => Ok(count_arguments(method)? + 2),
        _ => Ok(1),
    }
}

// How many arguments the method has, with its receiver.
fn count_arguments(method: &Method) -> Result<u32, AllocError>
    ensures count { IfOk result (λ count. count ≡ arguments method.now) }
    ensures few { IfOk result (λ count. count ≤ MOST_PARAMETERS + 1) }
{
    let count = method.kinds.args.len();
    if count > MOST_PARAMETERS {
        return Err(AllocError);
    }
    if is_static(method.flags) {
        Ok(count as u32)
    } else {
        Ok(count as u32 + 1)
    }
}

fn add_cell(kind: KindId, entity: Entity, bits: u32, cells: &mut Cells) -> Result<(), AllocError>
    requires { has_cell cells.old kind entity ≡ false }
    ensures { OnOk result (cells.new ≡ cells.old ++ record { kind = kind; entity = entity; bits = bits } ∷ []) }
{
    // Places without numbers can't be had, as if there were no memory for them.
    if u32::MAX - cells.places() < count_places(bits) {
        return Err(AllocError);
    }
    cells.add(kind, entity, bits)?;
    Ok(())
}
