use crate::operands::Operands;
use fp_model::Sort;
use sqlite_items::Items;

/// What an instruction does to the words of a frame (JVMS SE 21 section 6.5).
#[derive(Drop)]
pub enum Effect {
    /// Pushes the value of a local variable.
    Loads {
        sort: Sort,
        at: u16,
    },
    /// Pops a value into a local variable.
    Stores {
        sort: Sort,
        at: u16,
    },
    /// Changes an int in a local variable.
    Counts {
        at: u16,
    },
    /// Looks at a reference and leaves it on the stack.
    Keeps,
    /// Moves the words on top of the stack.
    Shuffles(Shuffling),
    /// Pops the operands and pushes the results, each with the lowest word first.
    Takes {
        operands: Operands,
        results: Items<Sort>,
    },
}

/// How the words on top of the stack are moved. A depth of 1 is the top.
#[derive(Drop)]
pub struct Shuffling {
    /// How many words are taken from the stack.
    pub takes: u8,
    /// The depths at which the second word of a value would be cut from its first.
    pub cuts: Items<u8>,
    /// The depths of the words that are put back, the lowest first.
    pub order: Items<u8>,
}
