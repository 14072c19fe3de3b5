use std::alloc::{AllocError, AllocFailed};

/// Why a file was refused (JVMS SE 21 section 4.8): the first fault in the order in which a file is read. Each `at` is an
/// offset in the file, in bytes. An item that is read again in a later phase is told by its offset in the file too.
#[derive(Clone, Copy, Debug, PartialEq, Eq)]
pub enum FileFault {
    /// A number or a run of bytes doesn't lie whole in the file, nor in the attribute or code that it belongs to. `at` is where
    /// its first byte would stand.
    Truncated { at: u32 },
    /// The file doesn't begin with the magic number (section 4.1).
    Magic,
    /// The version of the class file format is not supported (section 4.1): the major version is below 50 or above 65, or the
    /// minor version is not 0. Both are told as they stand in the file.
    Version { major: u16, minor: u16 },
    /// A constant pool tag is none of the format's (table 4.4-A). `at` is the tag's offset.
    Tag { at: u32, tag: u8 },
    /// A constant pool index refers to no entry, or to one of another sort than the format asks for there (section 4.4). `at`
    /// is the offset of the index. A `Long` or `Double` at the last index has its own index, at its tag; and of a constant
    /// that a bootstrap method computes, `index` is the row's number where there is no such row (section 4.7.23).
    Index { at: u32, index: u16 },
    /// A text is no descriptor of the sort that is asked for (section 4.3), or names the class of an array and is no descriptor
    /// (section 4.4.1), or is that of a method whose arguments take more than 255 words (section 4.3.3). `at` is the offset of
    /// the index that asks for it.
    Descriptor { at: u32 },
    /// A byte is no opcode, or none that `wide` may stand before (chapter 6). `at` is the byte's offset.
    Opcode { at: u32, byte: u8 },
    /// An instruction is `jsr`, `jsr_w` or `ret`, which class files of these versions don't have (section 4.9.1). `at` is the
    /// opcode's offset, behind `wide` where there is one.
    Subroutine { at: u32 },
    /// A number is out of its range. `at` is the number's offset where it is the constant pool's count (section 4.1), the kind
    /// of a method handle (section 4.4.8), the length of a `ConstantValue` (section 4.7.2), `max_locals` or the length of a
    /// code (section 4.7.3); that of the row where it is in an exception table; and that of the opcode, or of `wide` before
    /// it, where it is an operand or where a branch leads (section 4.9.1).
    Bounds { at: u32 },
    /// A native or abstract method has a `Code`, or another has not exactly one (section 4.7.3). `method` is its number among
    /// the methods of the file, from 0.
    CodeCount { method: u32 },
    /// A second field, or method, has the name and descriptor of an earlier one (sections 4.5 and 4.6). `at` is where the
    /// second begins.
    Repeat { at: u32 },
    /// There are bytes behind the last attribute of the class, or behind what an attribute holds and before its end (section
    /// 4.8). `at` is the offset of the first of them.
    Trailing { at: u32 },
    /// Memory ran out. This says nothing of the file.
    Memory,
}

impl From<AllocError> for FileFault {
    ghost use Rattle.std.specs.Prelude.{◌≡◌};
    ghost use Rattle.fp_model.specs.declared.fault.FileFault.TheVariants.{Memory};

    ghost from_gives = { λ _ e. e ≡ Memory };

    fn from(_error: AllocError) -> FileFault {
        FileFault::Memory
    }
}

impl<T: Drop> From<AllocFailed<T>> for FileFault {
    ghost use Rattle.std.specs.Prelude.{◌≡◌};
    ghost use Rattle.fp_model.specs.declared.fault.FileFault.TheVariants.{Memory};

    ghost from_gives = { λ _ e. e ≡ Memory };

    fn from(_failed: AllocFailed<T>) -> FileFault {
        FileFault::Memory
    }
}
