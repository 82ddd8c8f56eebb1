//! Where an edit put the new text.

/// Where the new text of a value stands.
#[derive(Clone, Copy, Debug, PartialEq, Eq)]
pub enum Wrote {
    /// In the slot of the old text, of which the value is the only holder.
    InPlace,
    /// In the value's two words: at most 15 bytes of UTF-8.
    Small,
    /// In a slot of its own, which it was copied to. The slot of the text before is given up.
    Copied,
    /// In a vector of the value's own.
    Owned,
}
