//! Words of eight bytes, made of others.
ghost use Rattle.std.specs.Prelude.{◌≡◌, ℕ, List, ◌+◌, ◌*◌, ◌/◌, ◌%◌, ◌^◌, ◌<◌, ◌≤◌, true, false};
ghost use Rattle.slot_edits.specs.Words.{HoldsAt};

/// One more than the last value of a word.
const WORDS: u128 = 1 << 64;

/// The high bit of each byte of a word: none is set where the eight bytes are ASCII.
const HIGH_BITS: u64 = 0x8080_8080_8080_8080;

/// Byte `p % 8` of a word.
pub(crate) fn byte_in(word: u64, p: u64) -> u8
    ensures { result ≡ (word / 2 ^ (8 * (p % 8))) % 256 }
{
    ((word >> (8 * (p % 8))) % 256) as u8
}

/// The eight bytes from byte `r` on of two words that stand one behind the other.
pub(crate) fn joined(near: u64, far: u64, r: u64) -> u64
    requires { r < 8 }
    ensures { (bytes : List ℕ) (p : ℕ) → HoldsAt bytes p near → HoldsAt bytes (p + 8) far → HoldsAt bytes (p + r) result }
{
    let both = near as u128 + ((far as u128) << 64);
    ((both >> (8 * r)) % WORDS) as u64
}

/// A word with zeros in place of its bytes from number `few` on.
pub(crate) fn first_bytes(word: u64, few: u64) -> u64
    requires { few < 8 }
    ensures kept { (i : ℕ) → i < few → result / 2 ^ (8 * i) % 256 ≡ word / 2 ^ (8 * i) % 256 }
    ensures zero { (i : ℕ) → few ≤ i → result / 2 ^ (8 * i) % 256 ≡ 0 }
{
    word % (1 << (8 * few))
}

/// Whether the eight bytes of a word are ASCII.
pub(crate) fn is_ascii_word(word: u64) -> bool
    ensures all { result ≡ true → (i : ℕ) → i < 8 → word / 2 ^ (8 * i) % 256 < 128 }
    ensures some { result ≡ false → (i : ℕ) × (i < 8) × (128 ≤ word / 2 ^ (8 * i) % 256) }
{
    word & HIGH_BITS == 0
}
