use crate::cells::Cells;
use fp_model::{MethodId, SiteId};
use sqlite_items::Items;

/// What a report of a solved system reads of it, beside the values.
#[derive(Clone, Copy)]
pub struct JavaView<'a> {
    /// The cells of the system.
    pub cells: &'a Cells,
    /// The targets of each call site whose targets are known, in the order of their bits.
    pub targets: &'a [(SiteId, Items<MethodId>)],
    /// The first places of the shown cells, ascending.
    pub shown: &'a [u32],
    /// The edges between cells, by their first places: where they lead from, and where to.
    pub edges: &'a [(u32, u32)],
}
