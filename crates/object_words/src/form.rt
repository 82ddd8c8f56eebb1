/// Where the code units of a value stand.
#[derive(Clone, Copy, Debug, PartialEq, Eq)]
pub enum Form {
    /// In the value's own two words: up to 15 bytes of UTF-8.
    Small,
    /// In a slot of the shared storage, as UTF-8.
    Native,
    /// In a row of the program's literals, as UTF-8.
    Literal,
    /// In a slot of the shared storage, as UTF-16.
    Foreign,
    /// In a vector of the value's own.
    Owned,
}
