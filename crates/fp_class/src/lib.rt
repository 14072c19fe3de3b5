//! Reads a class file (JVMS SE 21 chapter 4).
#![tactic(auto)]

mod code;
mod descriptors;
mod file;
mod law;
mod layout;
mod members;
mod methods;
mod naming;
mod numbers;
mod texts;

pub use code::to_code;
pub use file::read_class;
pub use law::{law_one_class, law_sound_codes, law_sound_methods, law_spelling};
pub use naming::to_class;
