/// The sizes of a heap. Every value of the three fields is a layout here; a crate that opens a heap sets its own limits.
#[derive(Clone, Copy, Debug, PartialEq, Eq)]
pub struct Layout {
    /// How many words of 64 bits a slot has room for.
    pub capacity_words: u32,
    /// How many slots there are. They are numbered from 0.
    pub slots: u32,
    /// How many references and drafts there can be at a time. No event depends on it.
    pub credits: u32,
}
