//! The index of a text, its fields, and the one order on indices.
ghost use Rattle.std.specs.Prelude.{◌≡◌, ◌^◌, ◌<◌, ◌==◌, ◌↔◌, IsSome, IfSome, true};
ghost use Rattle.std.proofs.Common.{rules};
ghost use Rattle.std.specs.Cmp.{partial_order_from_own_ties};
ghost use Rattle.std.specs.Cmp.Rules.{comparing, hashing};
ghost use Rattle.std.specs.Hash as fed;
ghost use Rattle.std.specs.Ordering.{nat_cmp, on, as_partial_cmp};
ghost use Rattle.index_words.specs.Fields.{IsIndexWord, position_of, transcoded_of, stride_of, is_set, place_of, fields_of, word_of, plain};

use crate::layout::{
    CHARACTER_ALIGNED_BIT, POSITION_SHIFT, POSITION_WIDTH, SCALAR_ALIGNED_BIT, STRIDE_SHIFT,
    STRIDE_WIDTH, TRANSCODED_SHIFT, TRANSCODED_WIDTH, UTF8_BIT, UTF16_BIT, ZERO_SHIFT, ZERO_WIDTH,
    field,
};
use std::cmp::Ordering;
use std::hash::{Hash, Hasher};
use std::marker::Model;
use text_spec::Encoding;

/// A place in a text, as the word that the head of this crate lays out. Contracts see the word.
#[derive(Clone, Copy, Debug)]
pub struct Index {
    word: u64,
}

impl Model for Index {
    ghost use Rattle.std.specs.Prelude.{ℕ};

    ghost Value = { ℕ };

    ghost use Rattle.index_words.specs.Fields.{IsIndexWord};

    ghost view = { λ index. index.word };

    ghost invariant = { λ index. IsIndexWord index.word };

    ghost inverse = { λ word. record { word = word } };
}

impl Index {
    /// The place `transcoded` units of the other encoding into what stands at `position`, marked for `encoding`.
    ///
    /// `position` is in code units of the storage, below 2^48, and `transcoded` is 0 to 3. All other bits are zero.
    pub fn new(position: u64, transcoded: u32, encoding: Encoding) -> Index
        requires position_in { position < 2 ^ POSITION_WIDTH }
        requires transcoded_in { transcoded < 2 ^ TRANSCODED_WIDTH }
        ensures { result ≡ word_of (plain position transcoded encoding) }
    {
        let mark = match encoding {
            Encoding::Utf8 => UTF8_BIT,
            Encoding::Utf16 => UTF16_BIT,
        };
        // The fields are apart, so their sum is the word.
        Index {
            word: (position << POSITION_SHIFT)
                + (u64::from(transcoded) << TRANSCODED_SHIFT)
                + (1 << mark),
        }
    }

    /// The index of the word `bits` from outside; `None` exactly where one of bits 7 to 4 is set.
    pub fn check(bits: u64) -> Option<Index>
        ensures found { IsSome result ↔ IsIndexWord bits }
        ensures same { IfSome result (λ index. index ≡ bits) }
    {
        if field(bits, ZERO_SHIFT, ZERO_WIDTH) == 0 {
            Some(Index { word: bits })
        } else {
            None
        }
    }

    /// The whole word.
    pub fn bits(&self) -> u64
        ensures word { result ≡ self.now }
        ensures zero { IsIndexWord result }
    {
        self.word
    }

    /// The position, in code units of the storage.
    pub fn position(&self) -> u64
        ensures value { result ≡ position_of self.now }
        ensures small { result < 2 ^ POSITION_WIDTH }
    {
        self.word >> POSITION_SHIFT
    }

    /// The transcoded offset, 0 to 3, in code units of the other encoding.
    pub fn transcoded(&self) -> u32
        ensures value { result ≡ transcoded_of self.now }
        ensures small { result < 2 ^ TRANSCODED_WIDTH }
    {
        field(self.word, TRANSCODED_SHIFT, TRANSCODED_WIDTH) as u32
    }

    /// The cached stride, 0 to 63, in code units of the storage; 0 where it isn't known.
    pub fn stride(&self) -> u32
        ensures value { result ≡ stride_of self.now }
        ensures small { result < 2 ^ STRIDE_WIDTH }
    {
        field(self.word, STRIDE_SHIFT, STRIDE_WIDTH) as u32
    }

    /// Whether the index is marked for UTF-8.
    pub fn is_utf8(&self) -> bool
        ensures { result ≡ is_set self.now UTF8_BIT }
    {
        field(self.word, UTF8_BIT, 1) == 1
    }

    /// Whether the index is marked for UTF-16.
    pub fn is_utf16(&self) -> bool
        ensures { result ≡ is_set self.now UTF16_BIT }
    {
        field(self.word, UTF16_BIT, 1) == 1
    }

    /// Whether the maker of the index knew it for a boundary of Unicode scalars.
    pub fn scalar_aligned(&self) -> bool
        ensures { result ≡ is_set self.now SCALAR_ALIGNED_BIT }
    {
        field(self.word, SCALAR_ALIGNED_BIT, 1) == 1
    }

    /// Whether the maker of the index knew it for a boundary of Characters.
    pub fn character_aligned(&self) -> bool
        ensures { result ≡ is_set self.now CHARACTER_ALIGNED_BIT }
    {
        field(self.word, CHARACTER_ALIGNED_BIT, 1) == 1
    }

    /// The same index with the cached stride `n`, 0 to 63 code units of the storage.
    pub fn with_stride(self, n: u32) -> Index
        requires { n < 2 ^ STRIDE_WIDTH }
        ensures { result ≡ word_of (record (fields_of self) { stride = n }) }
    {
        let cached = u64::from(self.stride()) << STRIDE_SHIFT;
        Index {
            word: self.word - cached + (u64::from(n) << STRIDE_SHIFT),
        }
    }

    /// The same index, said to be a boundary of Unicode scalars.
    pub fn with_scalar_aligned(self) -> Index
        ensures { result ≡ word_of (record (fields_of self) { scalar_aligned = true }) }
    {
        let marked = field(self.word, SCALAR_ALIGNED_BIT, 1) << SCALAR_ALIGNED_BIT;
        Index {
            word: self.word - marked + (1 << SCALAR_ALIGNED_BIT),
        }
    }

    /// The same index, said to be a boundary of Characters.
    pub fn with_character_aligned(self) -> Index
        ensures { result ≡ word_of (record (fields_of self) { character_aligned = true }) }
    {
        let marked = field(self.word, CHARACTER_ALIGNED_BIT, 1) << CHARACTER_ALIGNED_BIT;
        Index {
            word: self.word - marked + (1 << CHARACTER_ALIGNED_BIT),
        }
    }
}

impl PartialEq for Index {
    ghost eq = { on place_of (◌==◌) };

    ghost laws = { Prim.search (comparing, rules) };

    fn eq(&self, other: &Index) -> bool {
        self.word >> TRANSCODED_SHIFT == other.word >> TRANSCODED_SHIFT
    }
}

impl Eq for Index {
    ghost laws = { Prim.search (comparing, rules) };
}

impl Ord for Index {
    ghost cmp = { on place_of nat_cmp };

    ghost total = { Prim.search (comparing, rules) };

    ghost matches_partial_cmp = { Prim.search (comparing, rules) };

    ghost matches_eq = { Prim.search (comparing, rules) };

    fn cmp(&self, other: &Index) -> Ordering {
        (self.word >> TRANSCODED_SHIFT).cmp(&(other.word >> TRANSCODED_SHIFT))
    }
}

impl PartialOrd for Index {
    ghost partial_cmp = { as_partial_cmp (on place_of nat_cmp) };

    ghost laws = { partial_order_from_own_ties (Prim.search (comparing, rules)) (Prim.search (comparing, rules)) };

    fn partial_cmp(&self, other: &Index) -> Option<Ordering> {
        Some(self.cmp(other))
    }
}

impl Hash for Index {
    ghost hash_input = { λ index. fed.u64 (place_of index) };

    ghost respects_eq = { Prim.search (hashing, rules) };

    fn hash<H: Hasher>(&self, state: &mut H) {
        state.write_u64(self.word >> TRANSCODED_SHIFT);
    }
}
