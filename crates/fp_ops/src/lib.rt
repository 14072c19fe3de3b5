//! Decodes instructions, and tells the form of each (JVMS SE 21 chapter 6), in numbers of a table of names.
#![tactic(auto)]

mod boot_memo;
mod branches;
mod constants;
mod forms;
mod instr;
mod jumps;
mod kinds;
mod law;
mod memo;
mod named;
pub mod naming;
mod operands;
mod plain;
mod reading;
mod references;
mod sites;
mod soundness;
mod switches;
mod texts;

pub use boot_memo::{BootMemo, empty_boot_memo};
pub use branches::{check_targets, starts};
pub use forms::operands_of;
pub use instr::{instr_with, to_instr};
pub use kinds::{kind_at, kinds_at};
pub use law::{law_decoded_gives_forms, law_pool_gives_forms};
pub use memo::{Memo, empty_memo};
pub use reading::decode;
pub use soundness::has_form;
