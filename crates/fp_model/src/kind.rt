use sqlite_items::Items;

/// A type that a descriptor names (JVMS SE 21 section 4.3.2).
#[derive(Clone, Copy, Debug, PartialEq, Eq)]
pub enum Kind {
    /// A type that is computed with as an int, by its letter: `Z`, `B`, `C`, `S` or `I`.
    Int(u8),
    Long,
    Float,
    Double,
    /// A class or interface, by the number of its name.
    Class(u32),
    /// An array: how many dimensions it has, 1 to 255, and the type of its innermost elements.
    Array(u8, Elem),
}

/// The type of an array's innermost elements.
#[derive(Clone, Copy, Debug, PartialEq, Eq)]
pub enum Elem {
    /// A primitive type, by its letter: `B`, `C`, `D`, `F`, `I`, `J`, `S` or `Z`.
    Prim(u8),
    /// A class or interface, by the number of its name.
    Class(u32),
}

/// A method descriptor (JVMS SE 21 section 4.3.3).
#[derive(Drop)]
pub struct Descr {
    /// The types of the parameters, in order, without a receiver.
    pub args: Items<Kind>,
    /// The type of the result, none for `V`.
    pub result: Option<Kind>,
}

/// The kind of one word of a frame.
#[derive(Clone, Copy, Debug, PartialEq, Eq)]
pub enum Sort {
    Int,
    Long,
    Float,
    Double,
    Ref,
    /// The second word of a long or double.
    Half,
    /// A word that holds no value that may be used.
    Unset,
}
