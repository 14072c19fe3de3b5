use sqlite_items::Items;

/// An attribute (JVMS SE 21 section 4.7).
#[cycle(attribute)]
#[derive(Drop)]
pub struct RawAttr {
    /// The constant pool index of the name.
    pub name: u16,
    pub body: RawBody,
}

/// What an attribute holds.
#[cycle(attribute)]
#[derive(Drop)]
pub enum RawBody {
    /// An attribute that is kept unread.
    Bytes(Items<u8>),
    Code(RawCode),
    /// The rows of `BootstrapMethods`.
    Boot(Items<BootRow>),
    /// The index of a `ConstantValue`.
    Constant(u16),
}

/// A `Code` attribute (JVMS SE 21 section 4.7.3).
#[cycle(attribute)]
#[derive(Drop)]
pub struct RawCode {
    /// In words.
    pub max_stack: u16,
    /// In words.
    pub max_locals: u16,
    pub code: Items<RawIns>,
    pub rows: Items<CatchRow>,
    pub attributes: Items<RawAttr>,
}

/// A row of `BootstrapMethods` (JVMS SE 21 section 4.7.23).
#[derive(Drop)]
pub struct BootRow {
    /// The constant pool index of the method handle.
    pub method: u16,
    /// The constant pool indexes of the static arguments.
    pub args: Items<u16>,
}

/// A row of the exception table. Places are offsets in the code, in bytes.
#[derive(Clone, Copy, Debug, PartialEq, Eq)]
pub struct CatchRow {
    pub start: u16,
    pub end: u16,
    pub handler: u16,
    /// The constant pool index of the class that is caught, 0 for any.
    pub class: u16,
}

/// One instruction as its bytes (JVMS SE 21 chapter 6).
#[derive(Drop)]
pub struct RawIns {
    /// The opcode, behind `wide` where there is one.
    pub op: u8,
    pub wide: bool,
    /// The padding of a switch.
    pub padding: Items<u8>,
    /// The bytes of the operands.
    pub args: Items<u8>,
}
