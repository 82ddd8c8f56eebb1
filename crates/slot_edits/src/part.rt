//! A part of a text.

/// A part of the bytes of a text: from place `low` to before place `high`, of `count` in all.
#[derive(Clone, Copy, Debug)]
pub struct Part {
    pub low: u64,
    pub high: u64,
    pub count: u64,
}
