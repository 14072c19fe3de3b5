use sqlite_items::Items;

/// What a bit of a call's callees needs and brings. Calls of one reference share their candidates.
#[derive(Drop)]
pub struct Candidate {
    /// Whether the bit is set as soon as the call is reached.
    pub always: bool,
    /// The places of the classes whose objects set it.
    pub sources: Items<u32>,
    /// The place of the method that it stands for, none for the outside.
    pub target: Option<u32>,
}
