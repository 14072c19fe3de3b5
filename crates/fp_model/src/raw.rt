pub mod attribute;
pub mod pool;

use attribute::RawAttr;
use pool::Pool;
use sqlite_items::Items;

/// A class file as it is cut into its parts, in the order of the file (JVMS SE 21 section 4.1).
#[derive(Drop)]
pub struct Raw {
    pub minor: u16,
    pub major: u16,
    pub pool: Pool,
    /// The access flags.
    pub flags: u16,
    /// The constant pool index of this class.
    pub this: u16,
    /// The constant pool index of the superclass, or 0.
    pub parent: u16,
    /// The constant pool indexes of the direct superinterfaces.
    pub interfaces: Items<u16>,
    pub fields: Items<RawMember>,
    pub methods: Items<RawMember>,
    pub attributes: Items<RawAttr>,
}

/// A field or a method (JVMS SE 21 sections 4.5 and 4.6).
#[derive(Drop)]
pub struct RawMember {
    /// The access flags.
    pub flags: u16,
    /// The constant pool index of the name.
    pub name: u16,
    /// The constant pool index of the descriptor.
    pub descr: u16,
    pub attributes: Items<RawAttr>,
}
