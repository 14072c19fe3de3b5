pub mod instr;

use crate::kind::{Descr, Kind};
use crate::shared::Shared;
use instr::Instr;
use sqlite_items::Items;

/// The number of a class in its set, by the order of the classes.
pub type ClassId = u32;

/// The number of a field in its set, by the order of the classes and then that of the file.
pub type FieldId = u32;

/// The number of a method in its set, by the order of the classes and then that of the file.
pub type MethodId = u32;

/// A place in the code of a method.
#[derive(Clone, Copy, Debug, PartialEq, Eq, Hash)]
pub struct SiteId {
    pub method: MethodId,
    /// The offset of the instruction in the code, in bytes.
    pub pc: u16,
}

/// A class or interface. Names are numbers of a table of names.
#[derive(Drop)]
pub struct Class {
    pub name: u32,
    /// The name of the superclass, none for `java/lang/Object`.
    pub parent: Option<u32>,
    /// The names of the direct superinterfaces.
    pub interfaces: Items<u32>,
    /// The access flags.
    pub flags: u16,
    pub fields: Items<Field>,
    pub methods: Items<Method>,
}

/// A field.
#[derive(Clone, Copy, Debug, PartialEq, Eq)]
pub struct Field {
    pub name: u32,
    /// The number of the descriptor's text.
    pub descr: u32,
    /// What the descriptor says.
    pub kind: Kind,
    /// The access flags.
    pub flags: u16,
}

/// A method.
#[derive(Drop)]
pub struct Method {
    pub name: u32,
    /// The number of the descriptor's text.
    pub descr: u32,
    /// What the descriptor says, shared with the instructions that have it.
    pub kinds: Shared<Descr>,
    /// The access flags.
    pub flags: u16,
    /// None for an abstract or native method.
    pub code: Option<Code>,
}

/// The code of a method.
#[derive(Drop)]
pub struct Code {
    /// Each instruction with its offset in the code, in bytes.
    pub instrs: Items<(u16, Instr)>,
    pub rows: Items<Guard>,
    /// In words.
    pub max_stack: u16,
    /// In words.
    pub max_locals: u16,
}

/// A row of the exception table (JVMS SE 21 section 4.7.3): while an instruction of a range of the code runs, a thrown object
/// of a class is caught. Earlier rows come before later ones. Places are offsets in the code, in bytes.
#[derive(Clone, Copy, Debug, PartialEq, Eq)]
pub struct Guard {
    /// The first instruction of the range.
    pub start: u16,
    /// The first instruction behind the range, or the length of the code.
    pub end: u16,
    /// The first instruction of the handler.
    pub handler: u16,
    /// The name of the class whose objects, and those of its subclasses, are caught, none for any.
    pub class: Option<u32>,
}
