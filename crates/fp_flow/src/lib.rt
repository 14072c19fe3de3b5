//! The flow of control through a code, and the least solution of dataflow problems over it.
#![tactic(auto)]

mod control;
mod count;
mod dataflow;
mod effects;
mod join;
mod operands;
mod sorts;
mod word;
mod words;
mod worklist;

pub use control::{Flow, MOST_EDGES, edges, law_edges};
pub use count::instr_count;
pub use dataflow::Dataflow;
pub use effects::{effect, return_takes};
pub use join::join_label;
pub use operands::{below_operands, operand_words, without_operands};
pub use sorts::{
    argument_words, is_wide, push_kinds, push_words, result_words, sort_of, width, words_of,
};
pub use word::{Word, same_sort};
pub use words::{entry_label, first_labels, shuffled, without_top, word_at, word_at_depth};
pub use worklist::solve;
