/// The most bytes of a line before its newline.
pub const LINE_LIMIT: usize = 4_194_304;

/// The most bytes of an input.
pub const INPUT_LIMIT: usize = 67_108_864;

/// The bytes of the buffer of reads at first.
pub(crate) const FIRST_ROOM: usize = 65_536;

/// How many bytes of replies are gathered before they are written.
pub(crate) const PIECE: usize = 65_536;

/// The words of a slot of the heap that a run opens.
pub const CAPACITY_WORDS: u32 = 8_192;

/// The slots of that heap.
pub const SLOTS: u32 = 256;

/// The credits of that heap.
pub const CREDITS: u32 = 4_096;
