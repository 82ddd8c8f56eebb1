//! The count word: word 0 of a value that isn't Small, and the word in front of a stored text's content words.
ghost use Rattle.std.specs.Prelude.{◌≡◌, ◌^◌, ◌<◌};
ghost use Rattle.object_words.specs.CountWord as words;

/// The bit that says "each code unit is below 0x80".
pub const ASCII_BIT: u32 = 63;

/// The bit that says "in NFC".
pub const NFC_BIT: u32 = 62;

/// The bit that says "natively stored".
pub const NATIVE_BIT: u32 = 61;

/// The bit that says "UTF-8 in a row of the table, after its count word".
pub const TABLE_BIT: u32 = 60;

/// The bit that says "UTF-16".
pub const UTF16_BIT: u32 = 59;

/// How many bits hold the number of code units, from bit 0 up.
pub const COUNT_WIDTH: u32 = 48;

/// The word of these flags and so many code units, below 2^48. The bits are apart, so their sum is the word.
pub fn count_word(ascii: bool, nfc: bool, native: bool, table: bool, utf16: bool, count: u64) -> u64
    requires { count < 2 ^ COUNT_WIDTH }
    ensures { result ≡ words.count_word ascii nfc native table utf16 count }
{
    (u64::from(ascii) << ASCII_BIT)
        + (u64::from(nfc) << NFC_BIT)
        + (u64::from(native) << NATIVE_BIT)
        + (u64::from(table) << TABLE_BIT)
        + (u64::from(utf16) << UTF16_BIT)
        + count
}

/// Whether a count word marks its content as UTF-16.
pub fn marks_utf16(word: u64) -> bool
    ensures { result ≡ words.marks_utf16 word }
{
    (word >> UTF16_BIT) % 2 == 1
}

/// The number of code units that a count word says, below 2^48: bytes of UTF-8 or 16-bit units of UTF-16.
pub fn unit_count(word: u64) -> u64
    ensures { result ≡ words.unit_count word }
{
    word % (1 << COUNT_WIDTH)
}
