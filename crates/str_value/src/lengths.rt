//! The lengths of a text in its three units.
ghost use Rattle.std.specs.Prelude.{◌≡◌, ◌+◌, ◌≤◌, length, count_by, nat_lt};
ghost use Rattle.str_value.specs.Leading.{starts_scalar, starts_pair};

use std::simd::prelude::*;

/// The lengths of one text.
#[derive(Clone, Copy, Debug, PartialEq, Eq)]
pub struct Lengths {
    /// Unicode scalars.
    pub scalars: u64,
    /// UTF-16 code units.
    pub utf16: u64,
    /// UTF-8 bytes.
    pub utf8: u64,
}

/// How many bytes are counted at a time.
const BLOCK: usize = 64;

/// The lengths of the text that UTF-8 `bytes` spell, in one pass over them by blocks.
pub(crate) fn lengths_of(bytes: &[u8]) -> Lengths
    ensures scalars { result.scalars ≡ count_by starts_scalar bytes.now }
    ensures utf16 { result.utf16 ≡ count_by starts_scalar bytes.now + count_by starts_pair bytes.now }
    ensures utf8 { result.utf8 ≡ length bytes.now }
{
    let mut scalars: u64 = 0;
    let mut pairs: u64 = 0;
    let mut at = 0;
    'pieces: while bytes.len() - at >= BLOCK {
        let (more, wide) = begun_in_block(u8x64::from_slice(&bytes[at..]));
        scalars += more;
        pairs += wide;
        at += BLOCK;
    }
    let (more, wide) = begun(&bytes[at..]);
    scalars += more;
    pairs += wide;
    Lengths {
        scalars,
        utf16: scalars + pairs,
        utf8: bytes.len() as u64,
    }
}

/// How many scalars begin in a block, and how many of them take two units of UTF-16.
#[inline(always)]
fn begun_in_block(block: u8x64) -> (u64, u64)
    ensures scalars { result.0 ≡ count_by starts_scalar block }
    ensures pairs { result.1 ≡ count_by starts_pair block }
    ensures few { (result.0 ≤ 64) × (result.1 ≤ 64) }
{
    let ascii = below(block, 0x80);
    let before_leads = below(block, 0xc0);
    let before_pairs = below(block, 0xf0);
    (
        (BLOCK as u64 - before_leads) + ascii,
        BLOCK as u64 - before_pairs,
    )
}

/// How many bytes of a block are below `limit`.
#[inline(always)]
fn below(block: u8x64, limit: u8) -> u64
    ensures count { result ≡ count_by (λ b. nat_lt b limit) block }
    ensures long { length block ≡ 64 }
    ensures few { result ≤ 64 }
{
    block.simd_lt(u8x64::splat(limit)).to_bitmask().count_ones() as u64
}

/// The same of bytes, one after another.
fn begun(bytes: &[u8]) -> (u64, u64)
    ensures scalars { result.0 ≡ count_by starts_scalar bytes.now }
    ensures pairs { result.1 ≡ count_by starts_pair bytes.now }
    ensures few { (result.0 ≤ length bytes.now) × (result.1 ≤ length bytes.now) }
{
    let mut scalars: u64 = 0;
    let mut pairs: u64 = 0;
    for byte in bytes {
        if *byte < 0x80 || *byte >= 0xc0 {
            scalars += 1;
        }
        if *byte >= 0xf0 {
            pairs += 1;
        }
    }
    (scalars, pairs)
}
