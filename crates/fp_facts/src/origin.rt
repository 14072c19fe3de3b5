/// Where a reference may come from.
#[derive(Clone, Copy, Debug, PartialEq, Eq, PartialOrd, Ord)]
pub enum Origin {
    /// An argument, by its number, where the receiver of an instance method is 0.
    Param(u16),
    /// The `new` or the creation of an array at an offset in the code, in bytes.
    New(u16),
    /// The result of the call at an offset in the code, in bytes.
    Result(u16),
    /// A field, an array, a constant or a caught object.
    Other,
}
