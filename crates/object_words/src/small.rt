//! The sixteen bytes of a Small value.
ghost use Rattle.std.specs.Prelude.{◌≡◌, ◌≤◌, ◌++◌, length};
ghost use Rattle.std.specs.Int.{w64, from_le_bytes, to_le_bytes};
ghost use Rattle.object_words.specs.Rows as rows;

use crate::layout::{OBJECT_BYTES, SMALL_ASCII_TOP, SMALL_CAPACITY, SMALL_TOP, WORD_BYTES};

/// Whether all bytes are ASCII.
fn is_ascii(bytes: &[u8]) -> bool
    ensures { result ≡ rows.is_ascii bytes.now }
{
    bytes.is_ascii()
}

/// The bytes of the text, zeros, and the byte that tells the form.
pub fn small_bytes(bytes: &[u8]) -> [u8; OBJECT_BYTES]
    requires { length bytes.now ≤ SMALL_CAPACITY }
    ensures { result ≡ rows.small_bytes bytes.now }
{
    let mark = if is_ascii(bytes) {
        SMALL_ASCII_TOP
    } else {
        SMALL_TOP
    };
    let mut block = [0; OBJECT_BYTES];
    block[..bytes.len()].copy_from_slice(bytes);
    block[SMALL_CAPACITY] = (mark + bytes.len() as u64) as u8;
    block
}

/// The word of eight bytes, least first.
pub fn word_of(bytes: &[u8]) -> u64
    requires { length bytes.now ≡ WORD_BYTES }
    ensures { result ≡ from_le_bytes w64 bytes.now }
{
    u64::from_le_bytes([
        bytes[0], bytes[1], bytes[2], bytes[3], bytes[4], bytes[5], bytes[6], bytes[7],
    ])
}

/// The sixteen bytes of two words, least first.
pub fn bytes_of(w0: u64, w1: u64) -> [u8; OBJECT_BYTES]
    ensures { result ≡ to_le_bytes w64 w0 ++ to_le_bytes w64 w1 }
{
    let mut block = [0; OBJECT_BYTES];
    block[..WORD_BYTES].copy_from_slice(&w0.to_le_bytes());
    block[WORD_BYTES..].copy_from_slice(&w1.to_le_bytes());
    block
}
