//! The property store's words: kinds of properties, the cells that hold their values, and the texts of values.
#![tactic(auto)]

mod cells;
mod entity;
mod kind;
mod text;
mod view;

pub use cells::{Cells, count_places, law_places};
pub use entity::{append_entity, kind_text, law_texts};
pub use kind::{Entity, KindId};
pub use text::value_text;
pub use view::JavaView;
