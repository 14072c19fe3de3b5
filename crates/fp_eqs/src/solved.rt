use sqlite_items::Items;

/// What a solver found: a value for each place, and whether the place is demanded.
#[derive(Debug, Drop)]
pub struct Solved {
    /// The values, by place. Those of places that are not demanded may stay within the solution.
    pub values: Items<u64>,
    /// Whether each place is demanded.
    pub wanted: Items<bool>,
}
