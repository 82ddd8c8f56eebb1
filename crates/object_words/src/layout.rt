//! The places and the marks of an object's two words, but for those of the count word.

/// The most bytes that a Small value holds.
pub const SMALL_CAPACITY: usize = 15;

/// The bytes of one word.
pub const WORD_BYTES: usize = 8;

/// The bytes of both words.
pub const OBJECT_BYTES: usize = 16;

/// How many bits of word 1 hold the number of a slot or a literal, from bit 0 up.
pub const SLOT_WIDTH: u32 = 32;

/// The lowest bit of the byte of word 1 that tells the form.
pub const TOP_SHIFT: u32 = 56;

/// That byte of a Native value.
pub const NATIVE_TOP: u64 = 0x00;

/// That byte of a Foreign value.
pub const FOREIGN_TOP: u64 = 0x10;

/// That byte of an Owned value.
pub const OWNED_TOP: u64 = 0x20;

/// That byte of a Literal value.
pub const LITERAL_TOP: u64 = 0x80;

/// That byte of a Small value that isn't ASCII, less the number of its bytes: the lowest of all Small values.
pub const SMALL_TOP: u64 = 0xA0;

/// That byte of a Small value that is ASCII, less the number of its bytes.
pub const SMALL_ASCII_TOP: u64 = 0xE0;

/// How many lengths a Small value may have: the number of its bytes is the rest of its top byte by this.
pub const SMALL_COUNTS: u64 = 16;
