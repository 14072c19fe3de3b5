//! Writes the bytes of a class file (JVMS SE 21 chapter 4).
#![tactic(auto)]

mod attributes;
mod code;
mod members;
mod numbers;
mod pool;
mod speller;
mod unread;

pub use speller::spell;
