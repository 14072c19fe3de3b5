//! The plain data of class files and of sets of classes (JVMS SE 21 chapter 4).
#![tactic(auto)]

mod class;
mod class_set;
mod descriptor;
mod fault;
pub mod flags;
mod form;
mod kind;
mod limit;
pub mod look_up;
mod name;
pub mod opcode;
mod raw;
pub mod reading;
mod shared;

pub use class::instr::{BootArg, BootRef, Instr};
pub use class::{Class, ClassId, Code, Field, FieldId, Guard, Method, MethodId, SiteId};
pub use class_set::fault::SetFault;
pub use class_set::{ClassSet, law_methods_over, law_refused, law_sound};
pub use descriptor::{
    DescrFault, arg_words, is_descr, is_kind, law_method_descriptor, law_one_kind, read_descr,
    read_kind,
};
pub use fault::FileFault;
pub use form::Form;
pub use kind::{Descr, Elem, Kind, Sort};
pub use limit::LimitName;
pub use name::name_text;
pub use raw::attribute::{BootRow, CatchRow, RawAttr, RawBody, RawCode, RawIns};
pub use raw::pool::{Entry, Pool};
pub use raw::{Raw, RawMember};
pub use shared::Shared;
