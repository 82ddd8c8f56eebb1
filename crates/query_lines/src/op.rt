//! What a line asks of one text.

use crate::Bytes;

/// A view of a text, by the elements that it counts.
#[derive(Clone, Copy, Debug, PartialEq, Eq)]
pub enum View {
    /// Unicode scalars.
    Scalars,
    /// UTF-8 bytes.
    Utf8,
    /// UTF-16 code units.
    Utf16,
    /// Extended grapheme clusters.
    Characters,
}

/// One op on a text. Offsets are from the text's start, as they were given.
#[derive(Debug, Drop)]
pub enum Op {
    /// The place at an offset in UTF-16 code units.
    At(u64),
    /// The place at an offset in UTF-8 bytes.
    Place(u64),
    /// The text between two offsets in UTF-16 code units.
    Slice(u64, u64),
    /// `with` in place of what stands between two offsets in UTF-16 code units.
    Edit { a: u64, b: u64, with: Bytes },
    /// The number of a view's elements.
    Count(View),
    /// The whole text.
    All,
}
