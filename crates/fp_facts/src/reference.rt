use fp_model::ClassId;

/// How a call finds its methods.
#[derive(Clone, Copy, Debug, PartialEq, Eq, Hash)]
pub enum CallForm {
    /// An `invokestatic`.
    Static,
    /// An `invokespecial`.
    Special,
    /// An `invokevirtual` or `invokeinterface`, which goes by the receiver's class.
    Virtual,
    /// An `invokedynamic`.
    Dynamic,
}

/// A symbolic reference to a method (JVMS SE 21 section 5.1), as a call of some form has it. Calls of one reference can reach the same
/// methods.
#[derive(Clone, Copy, Debug, PartialEq, Eq, Hash)]
pub struct Reference {
    pub form: CallForm,
    /// The number of the name of the method's class; for an `invokedynamic` the method is that which makes its call site.
    pub class: u32,
    /// The number of the method's name.
    pub name: u32,
    /// The number of its descriptor's text.
    pub descr: u32,
    /// The calling class, where the call goes by it: for an `invokespecial`. Else 0.
    pub caller: ClassId,
}
