/// What an attribute belongs to, which decides with its name how it is read (JVMS SE 21 table 4.7-C).
#[derive(Clone, Copy, Debug, PartialEq, Eq)]
pub enum Owner {
    Class,
    Field,
    Method {
        /// The words that the method's arguments take, the receiver counted.
        words: u16,
    },
    /// A `Code` attribute. All of its attributes are kept unread.
    Code,
}
