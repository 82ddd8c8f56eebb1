//! The limits of a heap. Slots, words and literals are counted from these numbers alone.

/// The fewest words that a slot may have room for.
pub const LEAST_CAPACITY_WORDS: u32 = 2;

/// The most words that a slot may have room for.
pub const MOST_CAPACITY_WORDS: u32 = 1_048_576;

/// The most slots of a heap.
pub const MOST_SLOTS: u32 = 65_536;

/// The fewest credits of a heap.
pub const LEAST_CREDITS: u32 = 1;

/// The most credits of a heap.
pub const MOST_CREDITS: u32 = 1_048_576;

/// The most words that all slots of a heap have room for together.
pub const MOST_WORDS: u64 = 16_777_216;

/// The most literals of a heap.
pub const MOST_LITERALS: usize = 256;
