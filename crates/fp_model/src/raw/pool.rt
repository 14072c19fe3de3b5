use sqlite_items::Items;

/// The constant pool, by index (JVMS SE 21 section 4.4). Index 0 and the second index of a
/// `Long` or `Double` are `Entry::Unused`.
#[derive(Drop)]
pub struct Pool {
    pub entries: Items<Entry>,
}

/// What a constant pool index holds (JVMS SE 21 table 4.4-A). Numbers are kept as their bits, and an index in an entry is one
/// of the same pool.
#[derive(Drop)]
pub enum Entry {
    /// No entry: index 0, or the index behind a `Long` or `Double`.
    Unused,
    /// The bytes of a text, in modified UTF-8 (section 4.4.7).
    Utf8(Items<u8>),
    /// The bits of an int (section 4.4.4).
    Integer(u32),
    /// The bits of a float (section 4.4.4).
    Float(u32),
    /// The bits of a long, which takes two indexes (section 4.4.5).
    Long(u64),
    /// The bits of a double, which takes two indexes (section 4.4.5).
    Double(u64),
    /// The index of a class's name (section 4.4.1).
    Class(u16),
    /// A `CONSTANT_String`: the index of its text (section 4.4.3).
    Text(u16),
    /// A reference to a field: the indexes of its class, and of its name and type (section 4.4.2).
    FieldRef { class: u16, pair: u16 },
    /// A reference to a method of a class: the indexes of its class, and of its name and type (section 4.4.2).
    MethodRef { class: u16, pair: u16 },
    /// A reference to a method of an interface: the indexes of the interface, and of its name and type (section 4.4.2).
    InterfaceRef { class: u16, pair: u16 },
    /// A `CONSTANT_NameAndType`: the indexes of the texts of a name and of a descriptor (section 4.4.6).
    Pair { name: u16, descr: u16 },
    /// A method handle: its kind, and the index of the member (section 4.4.8).
    Handle { kind: u8, index: u16 },
    /// The index of a method descriptor (section 4.4.9).
    MethodType(u16),
    /// A constant that a bootstrap method computes: the number of its row in `BootstrapMethods`, and the index of its name and
    /// type (section 4.4.10).
    Dynamic { boot: u16, pair: u16 },
    /// A call site that a bootstrap method computes: the same two (section 4.4.10).
    InvokeDynamic { boot: u16, pair: u16 },
    /// The index of a module's name (section 4.4.11).
    Module(u16),
    /// The index of a package's name (section 4.4.12).
    Package(u16),
}
