//! Content words out of bytes and units that are kept apart.
ghost use Rattle.std.specs.Prelude.{◌≡◌, ◌+◌, ◌*◌, ◌<◌, ◌≤◌, length, slice_index};
ghost use Rattle.std.specs.Int.{w64, from_le_bytes};
ghost use Rattle.word_units.specs.Packing as packing;

/// Word `k` of bytes: bytes `8 * k` on, least first, and zeros past the last.
pub fn byte_word(bytes: &[u8], k: usize) -> u64
    requires { 8 * k < length bytes.now }
    ensures { result ≡ packing.byte_word bytes.now k }
{
    let rest = &bytes[8 * k..];
    if rest.len() >= 8 {
        whole_word(rest)
    } else {
        last_word(rest)
    }
}

// The word of the first eight bytes.
fn whole_word(bytes: &[u8]) -> u64
    requires { 8 ≤ length bytes.now }
    ensures { result ≡ from_le_bytes w64 bytes.now }
{
    u64::from_le_bytes([
        bytes[0], bytes[1], bytes[2], bytes[3], bytes[4], bytes[5], bytes[6], bytes[7],
    ])
}

// The word of fewer than eight bytes.
fn last_word(bytes: &[u8]) -> u64
    requires { length bytes.now < 8 }
    ensures { result ≡ from_le_bytes w64 bytes.now }
{
    let mut block = [0; 8];
    block[..bytes.len()].copy_from_slice(bytes);
    u64::from_le_bytes(block)
}

/// Word `k` of 16-bit units: units `4 * k` on, least first, and zeros past the last.
pub fn unit_word(units: &[u16], k: usize) -> u64
    requires { 4 * k < length units.now }
    ensures { result ≡ packing.unit_word units.now k }
{
    unit_or_zero(units, 4 * k) as u64
        + ((unit_or_zero(units, 4 * k + 1) as u64) << 16)
        + ((unit_or_zero(units, 4 * k + 2) as u64) << 32)
        + ((unit_or_zero(units, 4 * k + 3) as u64) << 48)
}

/// Unit `p`, or zero past the last.
pub fn unit_or_zero(units: &[u16], p: usize) -> u16
    ensures { result ≡ slice_index units.now p }
{
    if p < units.len() { units[p] } else { 0 }
}
