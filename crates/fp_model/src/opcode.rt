//! Opcodes that more than one layer names (JVMS SE 21 section 6.5).

/// `ret`.
pub const RET: u8 = 169;

/// `invokedynamic`.
pub const INVOKE_DYNAMIC: u8 = 186;

/// `wide`, which stands before another opcode.
pub const WIDE: u8 = 196;
