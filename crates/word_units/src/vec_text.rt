ghost use Rattle.std.specs.Prelude.{◌≡◌, ◌^◌, ◌<◌, ◌≤◌, ◌↔◌, IsSome, IsNone, IfSome, IfOk, length, chars};
ghost use Rattle.text_spec.specs.declared.encoding.Encoding.TheVariants.{Utf8, Utf16};
ghost use Rattle.text_spec.specs.Packed.{denoted_text};
ghost use Rattle.text_spec.specs.Text.{repair};
ghost use Rattle.word_units.specs.Owned.{text_of};
ghost use Rattle.word_units.specs.Packing.{byte_words, unit_words};
ghost use Rattle.word_units.specs.Parts.{all_of};

use crate::content_words::{byte_word, unit_word};
use crate::steps::Steps;
use crate::text::Text;
use std::alloc::Global;
use std::marker::Model;
use std::sync::ledger::Ledger;
use text_spec::{Encoding, OutOfMemory};

// A text has fewer code units, so that each place has an index.
const MOST_UNITS: u64 = 1 << 48;

/// Words of its own, all of which is the text. Its breadcrumbs are never known, and it is never marked ASCII.
#[derive(Drop)]
pub struct VecText {
    words: Vec<u64>,
    encoding: Encoding,
    count: u64,
}

impl Model for VecText {
    ghost use Rattle.std.specs.Prelude.{ℕ, ◌^◌, ◌<◌, List, IsSome};
    ghost use Rattle.text_spec.specs.declared.encoding.Encoding.{Encoding};
    ghost use Rattle.text_spec.specs.Packed.{denoted_text};

    ghost Value = { List ℕ × Encoding × ℕ };

    ghost view = { λ t. (t.words.items, t.encoding, t.count) };

    ghost invariant = { λ t. (t.count < 2 ^ 48) × IsSome (denoted_text t.encoding t.words.items t.count) };
}

impl VecText {
    /// The text of the first `count` code units of the words.
    ///
    /// `count` is below 2^48, the words hold so many units, and UTF-8 content is well formed. UTF-16 content may be any units.
    pub fn new(words: Vec<u64>, encoding: Encoding, count: u64) -> VecText
        requires small { count < 2 ^ 48 }
        requires denotes { IsSome (denoted_text encoding words.items count) }
        ensures { result ≡ (words.items, encoding, count) }
    {
        VecText {
            words,
            encoding,
            count,
        }
    }

    /// A text as its UTF-8, eight bytes to a word: none where it has 2^48 bytes or more.
    pub fn from_utf8(alloc: Global, text: &str) -> Result<Option<VecText>, OutOfMemory>
        ensures words { IfOk result (λ made. IfSome made (λ t. t ≡ (byte_words text.now, Utf8, length text.now))) }
        ensures text { IfOk result (λ made. IfSome made (λ t. text_of t ≡ chars text.now)) }
        ensures too_long { IfOk result (λ made. IsNone made ↔ (2 ^ 48 ≤ length text.now)) }
    {
        let bytes = text.as_bytes();
        if bytes.len() as u64 >= MOST_UNITS {
            return Ok(None);
        }
        let mut words = Vec::new(alloc);
        for k in 0..(bytes.len() + 7) / 8 {
            words.push(byte_word(bytes, k))?;
        }
        Ok(Some(VecText::new(words, Encoding::Utf8, bytes.len() as u64)))
    }

    /// The text that UTF-16 units spell, kept as these units, four to a word: none where there are 2^48 units or more. A surrogate without
    /// its other half reads as U+FFFD.
    pub fn from_utf16(alloc: Global, units: &[u16]) -> Result<Option<VecText>, OutOfMemory>
        ensures words { IfOk result (λ made. IfSome made (λ t. t ≡ (unit_words units.now, Utf16, length units.now))) }
        ensures text { IfOk result (λ made. IfSome made (λ t. text_of t ≡ repair units.now)) }
        ensures too_long { IfOk result (λ made. IsNone made ↔ (2 ^ 48 ≤ length units.now)) }
    {
        if units.len() as u64 >= MOST_UNITS {
            return Ok(None);
        }
        let mut words = Vec::new(alloc);
        for k in 0..(units.len() + 3) / 4 {
            words.push(unit_word(units, k))?;
        }
        Ok(Some(VecText::new(words, Encoding::Utf16, units.len() as u64)))
    }
}

impl Text for VecText {
    ghost use Rattle.std.specs.Prelude.{false};
    ghost use Rattle.word_units.specs.Owned.{text_of};
    ghost use Rattle.word_units.specs.Parts.{all_of};

    ghost part = { λ t. all_of (t.1) (text_of t) };

    ghost words = { λ t. t.0 };

    ghost knows_crumbs = { λ t. false };

    ghost marked_ascii = { λ t. false };

    ghost STRIDE = { 64 };

    fn stride(&self) -> usize {
        64
    }

    fn encoding(&self) -> Encoding {
        self.encoding
    }

    fn count(&self) -> u64 {
        self.count
    }

    fn low(&self) -> u64 {
        0
    }

    fn high(&self) -> u64 {
        self.count
    }

    fn word<L: Ledger>(&mut self, k: u64, steps: &mut Steps<L>) -> u64 {
        steps.tick();
        self.words[k as usize]
    }

    fn crumbs_known(&self) -> bool {
        false
    }

    fn crumb_word<L: Ledger>(&mut self, j: u64, steps: &mut Steps<L>) -> u64 {
        steps.tick();
        j
    }

    fn ascii(&self) -> bool {
        false
    }
}
