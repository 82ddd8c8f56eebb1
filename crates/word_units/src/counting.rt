//! The scalars that begin in a word of UTF-8, counted at all of its bytes at once.
ghost use Rattle.std.specs.Prelude.{◌≡◌, ◌<◌, ◌≤◌};
ghost use Rattle.word_units.specs.Counting.{scalars_begun, bytes_begun, within, units_within};

/// The lowest bit of each byte of a word.
const LOW_BITS: u64 = 0x0101_0101_0101_0101;

/// The bytes of a word added up.
fn sum_of_bytes(word: u64) -> u64
    requires small { within (λ byte. byte) 8 word < 256 }
    ensures { result ≡ within (λ byte. byte) 8 word }
{
    // The product's highest byte is the sum of all bytes, and of no carry, since none of the sums below it needs a ninth bit.
    word.wrapping_mul(LOW_BITS) >> 56
}

/// How many bytes the scalars take that begin in a word, how many UTF-16 units, and how many they are.
///
/// A byte whose first two bits are 10 begins none of them. Of any other one the ones before the first zero tell how many bytes its
/// scalar takes: one without any, else as many as there are ones, and four take two units (The Unicode Standard, table 3-6).
pub(crate) fn begun_in(word: u64) -> (u64, u64, u64)
    ensures bytes { result.0 ≡ within bytes_begun 8 word }
    ensures units { result.1 ≡ units_within 8 word }
    ensures scalars { result.2 ≡ within scalars_begun 8 word }
    ensures few { result.0 ≤ 32 }
    ensures few_units { result.1 ≤ 16 }
{
    let first = LOW_BITS & (word >> 7);
    let second = first & (word >> 6);
    let third = second & (word >> 5);
    let fourth = third & (word >> 4);
    let begun = LOW_BITS - first + second;
    (
        sum_of_bytes(begun + second + third + fourth),
        sum_of_bytes(begun + fourth),
        sum_of_bytes(begun),
    )
}

/// How many UTF-16 units the scalars take that begin in a word of UTF-8: 0 to 16.
pub fn units_in(word: u64) -> u64
    ensures value { result ≡ units_within 8 word }
    ensures few { result ≤ 16 }
{
    let (_bytes, units, _scalars) = begun_in(word);
    units
}
