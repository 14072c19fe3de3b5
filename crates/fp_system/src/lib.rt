//! The system of equations of a run over Java classes: its cells, the tasks of the selected analyses, and what is shown.
#![tactic(auto)]

mod build;
mod cells;
mod declared;
mod fault;
mod fixed;
mod limits;
mod start;
mod survey;
mod system;
mod words;

pub use fault::SystemFault;
pub use limits::check_limits;
pub use system::JavaSystem;
