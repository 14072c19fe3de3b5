use sqlite_items::Items;

/// What is known of the frame before an instruction, as words of any sort.
#[derive(Debug, Drop)]
pub enum Label<W> {
    /// No way leads there.
    Unreached,
    /// The ways that lead there have frames with no join, or an operand was wrong on one.
    Bad,
    /// The words of the local variables, and those of the operand stack, whose top stands last.
    Frame { locals: Items<W>, stack: Items<W> },
}
