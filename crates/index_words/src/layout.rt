//! The places of an index word's fields, in bits, and how a field is read.
ghost use Rattle.std.specs.Prelude.{◌≡◌, ◌/◌, ◌%◌, ◌^◌, ◌<◌};

/// The bit that says "scalar aligned".
pub const SCALAR_ALIGNED_BIT: u32 = 0;

/// The bit that says "Character aligned".
pub const CHARACTER_ALIGNED_BIT: u32 = 1;

/// The bit that marks an index for UTF-8.
pub const UTF8_BIT: u32 = 2;

/// The bit that marks an index for UTF-16.
pub const UTF16_BIT: u32 = 3;

/// The lowest bit of the part that is zero in each index.
pub const ZERO_SHIFT: u32 = 4;

/// How many bits are zero in each index.
pub const ZERO_WIDTH: u32 = 4;

/// The lowest bit of the cached stride.
pub const STRIDE_SHIFT: u32 = 8;

/// How many bits the cached stride has.
pub const STRIDE_WIDTH: u32 = 6;

/// The lowest bit of the transcoded offset, and so the lowest that comparisons look at.
pub const TRANSCODED_SHIFT: u32 = 14;

/// How many bits the transcoded offset has.
pub const TRANSCODED_WIDTH: u32 = 2;

/// The lowest bit of the position.
pub const POSITION_SHIFT: u32 = 16;

/// How many bits the position has.
pub const POSITION_WIDTH: u32 = 48;

/// The field of `width` bits whose lowest bit is `shift`.
pub fn field(word: u64, shift: u32, width: u32) -> u64
    requires shift_in { shift < 64 }
    requires width_in { width < 64 }
    ensures { result ≡ word / 2 ^ shift % 2 ^ width }
{
    (word >> shift) % (1 << width)
}
