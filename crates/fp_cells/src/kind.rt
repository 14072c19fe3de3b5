use fp_model::{ClassId, FieldId, MethodId, SiteId};

/// A kind of property. Its values are sets of bits.
#[derive(Clone, Copy, Debug, PartialEq, Eq, Hash)]
pub enum KindId {
    /// Whether the instance fields of a class and of its superclasses are all declared final.
    Declared,
    /// Whether a class has instances.
    Inst,
    /// Whether a method is reached.
    Reach,
    /// Which methods a call site calls.
    Callees,
    /// Whether a field is assigned after its making.
    Assign,
    /// How deep the instances of a class are immutable.
    Immut,
    /// How deep the instances of a type are immutable.
    Timmut,
    /// Whether a method returns a new object.
    Fresh,
    /// Which arguments a method lets go.
    Leak,
    /// How far an allocated object gets.
    Escape,
    /// What a method reads and writes.
    Purity,
}

/// What a property is of.
#[derive(Clone, Copy, Debug, PartialEq, Eq, Hash)]
pub enum Entity {
    /// A class or interface.
    Class(ClassId),
    /// A field.
    Field(FieldId),
    /// A method.
    Method(MethodId),
    /// A call or an allocation in the code of a method.
    Site(SiteId),
}
