/// What stands behind an opcode, and what it has to be (JVMS SE 21 chapter 6). Locals are counted in words, operands
/// in bytes.
#[derive(Clone, Copy, Debug, PartialEq, Eq)]
pub enum Form {
    /// The byte is no opcode, or it is `wide`, which stands before one.
    Unknown,
    /// `jsr`, `jsr_w` or `ret`.
    Subroutine,
    /// No operand.
    Plain,
    /// A constant of so many bytes.
    Push(u8),
    /// The index of a local of so many words.
    Local(u8),
    /// A local that the opcode names, of so many words.
    Near { local: u8, words: u8 },
    /// The index of a local, and a constant.
    Increment,
    /// An offset of so many bytes.
    Branch(u8),
    TableSwitch,
    LookupSwitch,
    /// An index of one byte to a constant of one word.
    ShortConstant,
    /// An index to a constant of so many words.
    Constant(u8),
    /// An index to an entry with one of two tags.
    Refers { tag: u8, or_tag: u8 },
    /// An index to a method of an interface, a count, and 0.
    InvokeInterface,
    /// An index to a call site, and twice 0.
    InvokeDynamic,
    /// An index to a class that is no array.
    New,
    /// The code of a primitive type.
    NewArray,
    /// An index to an array class, and how many of its dimensions are made.
    MultiNewArray,
}
