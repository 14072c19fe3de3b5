/// How a run ended.
#[derive(Clone, Copy, Debug, PartialEq, Eq)]
pub enum Status {
    /// The whole report is written.
    Done,
    /// A file, or the set of files, is refused.
    Refused,
    /// The words are not of the grammar.
    Usage,
    /// The directory or a file could not be read.
    ReadFault,
    /// The report could not be written.
    WriteFault,
    /// An analysis, a root or a shown item is unknown.
    Selection,
    /// A limit is passed.
    Limit,
    /// Memory ran out.
    Memory,
}
