use crate::kind::{Descr, Kind, Sort};
use crate::shared::Shared;
use sqlite_items::Items;

/// The forms of instructions. An `op` is an opcode, without `wide`; a `to` is an offset in the code,
/// in bytes; classes, names and descriptors are numbers of a table of names. What descriptors say, and the static arguments
/// of bootstrap methods, are shared, so that a class has each once however many instructions name it.
#[derive(Drop)]
pub enum Instr {
    Nop,
    Null,
    Const {
        sort: Sort,
    },
    ConstRef,
    Load {
        sort: Sort,
        at: u16,
    },
    Store {
        sort: Sort,
        at: u16,
    },
    ArrayLoad {
        op: u8,
    },
    ArrayStore {
        op: u8,
    },
    Shuffle {
        op: u8,
    },
    Op {
        op: u8,
    },
    Inc {
        at: u16,
    },
    If {
        op: u8,
        to: u16,
    },
    Goto {
        to: u16,
    },
    /// The default, and then the other targets in the order of the file.
    Switch {
        to: Items<u16>,
    },
    Return {
        op: u8,
    },
    GetStatic {
        class: u32,
        name: u32,
        descr: u32,
        kind: Kind,
    },
    PutStatic {
        class: u32,
        name: u32,
        descr: u32,
        kind: Kind,
    },
    GetField {
        class: u32,
        name: u32,
        descr: u32,
        kind: Kind,
    },
    PutField {
        class: u32,
        name: u32,
        descr: u32,
        kind: Kind,
    },
    InvokeVirtual {
        class: u32,
        name: u32,
        descr: u32,
        kinds: Shared<Descr>,
    },
    InvokeSpecial {
        class: u32,
        name: u32,
        descr: u32,
        kinds: Shared<Descr>,
    },
    InvokeStatic {
        class: u32,
        name: u32,
        descr: u32,
        kinds: Shared<Descr>,
    },
    InvokeInterface {
        class: u32,
        name: u32,
        descr: u32,
        kinds: Shared<Descr>,
    },
    InvokeDynamic {
        name: u32,
        descr: Shared<Descr>,
        boot: BootRef,
        args: Shared<Items<BootArg>>,
    },
    New {
        class: u32,
    },
    /// How many dimensions are made, and the type of the array's elements.
    NewArray {
        dims: u8,
        element: Kind,
    },
    ArrayLength,
    Throw,
    CheckCast {
        class: u32,
    },
    InstanceOf {
        class: u32,
    },
    Monitor,
}

/// The reference of a method handle (JVMS SE 21 section 4.4.8).
#[derive(Clone, Copy, Debug, PartialEq, Eq)]
pub struct BootRef {
    pub kind: u8,
    pub class: u32,
    pub name: u32,
    pub descr: u32,
}

/// A static argument of a bootstrap method.
#[derive(Drop)]
pub enum BootArg {
    /// A method type.
    Sig(Shared<Descr>),
    /// A method handle.
    Ref(BootRef),
    Other,
}
