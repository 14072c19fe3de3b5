//! The words of the command line.
#![tactic(auto)]

mod command;
mod fault;
mod grammar;
mod job;
mod law;
mod list;
mod number;
mod read;

pub use fault::WordsFault;
pub use job::{Job, Order};
pub use law::options_may_change_places;
pub use list::list_items;
pub use number::{number_between, workers_of};
pub use read::read_words;
