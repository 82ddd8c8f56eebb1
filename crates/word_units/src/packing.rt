//! Reading bytes and units out of words, and codes out of bytes and units.
ghost use Rattle.std.specs.Prelude.{◌≡◌, ◌≢◌, ◌+◌, ◌-◌, ◌*◌, ◌/◌, ◌%◌, ◌^◌, ◌<◌, ◌≤◌, ℕ, List, slice_index, IsTrue, ◌↔◌, true, false};
ghost use Rattle.std.specs.Char.{len_utf8};
ghost use Rattle.std.specs.Option.{unwrap_or};
ghost use Rattle.std.specs.Char.Utf16.{lone_unit_char, surrogate_pair_char};
ghost use Rattle.text_spec.specs.Offsets.{len_utf16};
ghost use Rattle.text_spec.specs.Packed.{byte_of, IsPair};

/// The byte at place `p` of the text, out of the word that holds it.
pub(crate) fn byte_in(word: u64, p: u64) -> u8
    ensures { result ≡ (word / 2 ^ (8 * (p % 8))) % 256 }
{
    ((word >> (8 * (p % 8))) % 256) as u8
}

/// The 16-bit unit at place `p` of the text, out of the word that holds it.
pub(crate) fn unit_in(word: u64, p: u64) -> u16
    ensures { result ≡ (word / 2 ^ (16 * (p % 4))) % 65536 }
{
    ((word >> (16 * (p % 4))) % 65536) as u16
}

/// The byte at `q`, out of the word of `p` or that of a place after it.
pub(crate) fn byte_of_two(near: u64, far: u64, p: u64, q: u64) -> u8
    ensures { (words : List ℕ) → near ≡ slice_index words (p / 8) → (q / 8 ≢ p / 8 → far ≡ slice_index words (q / 8))
        → result ≡ byte_of words q }
{
    if q / 8 == p / 8 {
        byte_in(near, q)
    } else {
        byte_in(far, q)
    }
}

/// How many bytes the scalar takes whose UTF-8 begins with `lead` (The Unicode Standard, table 3-6).
pub fn width_of_lead(lead: u8) -> u32
    ensures one { lead < 128 → result ≡ 1 }
    ensures two { 128 ≤ lead → lead < 224 → result ≡ 2 }
    ensures three { 224 ≤ lead → lead < 240 → result ≡ 3 }
    ensures four { 240 ≤ lead → result ≡ 4 }
    ensures some { 1 ≤ result }
    ensures most { result ≤ 4 }
{
    if lead < 128 {
        1
    } else if lead < 224 {
        2
    } else if lead < 240 {
        3
    } else {
        4
    }
}

/// How many UTF-16 units a scalar takes whose UTF-8 takes `width` bytes (The Unicode Standard, section 3.9, D91, D92).
pub fn units_of_width(width: u64) -> u64
    ensures units { (scalar : ℕ) → width ≡ len_utf8 scalar → result ≡ len_utf16 scalar }
    ensures few { (1 ≤ result) × (result ≤ 2) }
    ensures within { 1 ≤ width → result ≤ width }
{
    if width == 4 { 2 } else { 1 }
}

/// The code that four bytes tell, of which the first says how many count (The Unicode Standard, table 3-6).
pub(crate) fn code_of_bytes(lead: u8, second: u8, third: u8, fourth: u8) -> u32
    ensures one { lead < 128 → result ≡ lead }
    ensures two { 128 ≤ lead → lead < 224 → result ≡ lead % 32 * 64 + second % 64 }
    ensures three { 224 ≤ lead → lead < 240 → result ≡ lead % 16 * 4096 + second % 64 * 64 + third % 64 }
    ensures four { 240 ≤ lead → result ≡ lead % 8 * 262144 + second % 64 * 4096 + third % 64 * 64 + fourth % 64 }
{
    let (second, third, fourth) = (second as u32 % 64, third as u32 % 64, fourth as u32 % 64);
    let lead = lead as u32;
    if lead < 128 {
        lead
    } else if lead < 224 {
        lead % 32 * 64 + second
    } else if lead < 240 {
        lead % 16 * 4096 + second * 64 + third
    } else {
        lead % 8 * 262_144 + second * 4096 + third * 64 + fourth
    }
}

/// Whether a unit is the first half of a surrogate pair.
pub(crate) fn is_high_half(unit: u16) -> bool
    ensures { IsTrue result ↔ (0xD800 ≤ unit) × (unit < 0xDC00) }
{
    unit >= 0xD800 && unit < 0xDC00
}

/// Whether a unit is the second half of a surrogate pair.
pub(crate) fn is_low_half(unit: u16) -> bool
    ensures { IsTrue result ↔ (0xDC00 ≤ unit) × (unit < 0xE000) }
{
    unit >= 0xDC00 && unit < 0xE000
}

/// Whether two units are the two halves of a surrogate pair.
pub(crate) fn is_pair(unit: u16, next: u16) -> bool
    ensures { IsTrue result ↔ IsPair unit next }
{
    is_high_half(unit) && is_low_half(next)
}

/// A unit as it is read, where `beside` is the one that would make a pair with it, or 0.
pub(crate) fn repaired_unit(unit: u16, beside: u16) -> u16
    ensures first { IsPair unit beside → result ≡ unit }
    ensures second { IsPair beside unit → result ≡ unit }
    ensures alone { ¬ IsPair unit beside → ¬ IsPair beside unit → result ≡ unwrap_or (lone_unit_char unit) 0xFFFD }
{
    if is_pair(unit, beside) || is_pair(beside, unit) {
        return unit;
    }
    lone_unit(unit)
}

/// What a unit outside of pairs reads as: a surrogate as U+FFFD (ours), another one as itself.
fn lone_unit(unit: u16) -> u16
    ensures { result ≡ unwrap_or (lone_unit_char unit) 0xFFFD }
{
    if is_high_half(unit) || is_low_half(unit) {
        return 0xFFFD;
    }
    unit
}

/// The code of the scalar that begins with `unit`, and how many units it takes; `next` is the unit after it, or 0.
pub(crate) fn code_of_units(unit: u16, next: u16) -> (u32, u32)
    ensures pair { IsPair unit next → (result.0 ≡ surrogate_pair_char unit next) × (result.1 ≡ 2) }
    ensures alone { ¬ IsPair unit next → (result.0 ≡ unwrap_or (lone_unit_char unit) 0xFFFD) × (result.1 ≡ 1) }
{
    if is_pair(unit, next) {
        let high = unit as u32 - 0xD800;
        let low = next as u32 - 0xDC00;
        return (0x1_0000 + high * 0x400 + low, 2);
    }
    (lone_unit(unit) as u32, 1)
}

/// Whether none of the four units of a word is half of a surrogate pair.
pub(crate) fn has_no_half(word: u64) -> bool
    ensures first { result ≡ true → 0xD800 ≤ word % 65536 → 0xE000 ≤ word % 65536 }
    ensures second { result ≡ true → 0xD800 ≤ word / 2 ^ 16 % 65536 → 0xE000 ≤ word / 2 ^ 16 % 65536 }
    ensures third { result ≡ true → 0xD800 ≤ word / 2 ^ 32 % 65536 → 0xE000 ≤ word / 2 ^ 32 % 65536 }
    ensures fourth { result ≡ true → 0xD800 ≤ word / 2 ^ 48 % 65536 → 0xE000 ≤ word / 2 ^ 48 % 65536 }
{
    !is_half(unit_in(word, 0))
        && !is_half(unit_in(word, 1))
        && !is_half(unit_in(word, 2))
        && !is_half(unit_in(word, 3))
}

/// Whether a unit is half of a surrogate pair.
fn is_half(unit: u16) -> bool
    ensures { result ≡ false → 0xD800 ≤ unit → 0xE000 ≤ unit }
{
    is_high_half(unit) || is_low_half(unit)
}

/// How many bytes of UTF-8 the scalar of a code takes (The Unicode Standard, table 3-6).
pub(crate) fn bytes_of_code(code: u32) -> u64
    ensures value { result ≡ len_utf8 code }
    ensures some { 1 ≤ result }
    ensures most { code < 65536 → result ≤ 3 }
{
    if code < 0x80 {
        1
    } else if code < 0x800 {
        2
    } else if code < 0x1_0000 {
        3
    } else {
        4
    }
}

/// How many bytes of UTF-8 the scalars take that the four units of a word spell, none of which is half of a pair.
pub(crate) fn bytes_of_units(word: u64) -> u64
    ensures value { result ≡ len_utf8 (word % 65536) + len_utf8 (word / 2 ^ 16 % 65536) + len_utf8 (word / 2 ^ 32 % 65536) + len_utf8 (word / 2 ^ 48 % 65536) }
    ensures some { 4 ≤ result }
    ensures most { result ≤ 12 }
{
    bytes_of_code(unit_in(word, 0) as u32)
        + bytes_of_code(unit_in(word, 1) as u32)
        + bytes_of_code(unit_in(word, 2) as u32)
        + bytes_of_code(unit_in(word, 3) as u32)
}
