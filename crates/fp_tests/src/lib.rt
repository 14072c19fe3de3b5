//! The tests of public functions that no run of a program shows, a module for each crate that it tests.
#![tactic(auto)]

mod bytes;
#[cfg(test)]
mod tests;

pub use bytes::short;
