//! The words of a run, looked up among the analyses, the methods and the cells that there are.

pub mod check;
mod lengths;
pub mod roots;
pub mod shown;
pub mod texts;
