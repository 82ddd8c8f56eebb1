ghost use Rattle.std.specs.Prelude.{◌≡◌, ◌+◌, ◌^◌, ◌<◌, ◌≤◌, ℕ, List, length, slice_index, Bool, true, Some};
ghost use Rattle.text_spec.specs.declared.encoding.Encoding.TheVariants.{Utf8};
ghost use Rattle.index_words.specs.Crumbs.{crumbs};
ghost use Rattle.text_spec.specs.Packed.{content_words, denoted_text};
ghost use Rattle.word_units.specs.Parts.{Part, low_of, high_of, storage_size};

use crate::steps::Steps;
use std::sync::ledger::Ledger;
use text_spec::Encoding;

/// A text that is read word by word: the scalars from one number to another of the whole text that its storage holds.
///
/// Contracts see the part of a storage's text that it is: the encoding, the whole text and two scalar numbers; beside it the content
/// words, which denote the whole text, and what it answers of ASCII and of breadcrumbs. Positions are in code units of the storage: bytes of UTF-8 or 16-bit
/// units of UTF-16. No call changes anything that contracts see of the text, and each of `word` and `crumb_word` counts one step.
pub trait Text {
    // the part of the storage's text that this text is
    ghost part: { Self → Part };

    // the content words, which may be more than the code units take
    ghost words: { Self → List ℕ };

    // whether breadcrumbs are known, and whether the storage is marked ASCII
    ghost knows_crumbs: { Self → Bool };

    ghost marked_ascii: { Self → Bool };

    // the distance of breadcrumbs, in UTF-16 units
    ghost STRIDE: { ℕ };

    /// The distance of this type's breadcrumbs, in UTF-16 units.
    fn stride(&self) -> usize
        ensures { result ≡ STRIDE };

    /// The encoding of the storage.
    fn encoding(&self) -> Encoding
        ensures { result ≡ (part self.now).storage };

    /// The number of code units of the storage, below 2^48.
    fn count(&self) -> u64
        ensures value { result ≡ storage_size (part self.now) }
        ensures small { result < 2 ^ 48 }

        // The content words hold so many code units, and these are the whole text's.
        ensures denotes { denoted_text (part self.now).storage (words self.now) result ≡ Some (part self.now).whole };

    /// Where this text begins in the storage, in code units: a scalar boundary.
    fn low(&self) -> u64
        ensures value { result ≡ low_of (part self.now) }
        ensures order { (part self.now).first ≤ (part self.now).end };

    /// Where this text ends in the storage, in code units: a scalar boundary.
    fn high(&self) -> u64
        ensures value { result ≡ high_of (part self.now) }
        ensures inside { (part self.now).end ≤ length (part self.now).whole };

    /// Content word `k`. `k` is below the number of words that the storage's code units take.
    fn word<L: Ledger>(&mut self, k: u64, steps: &mut Steps<L>) -> u64
        requires { k < content_words (part self.old).storage (storage_size (part self.old)) }
        ensures value { result ≡ slice_index (words self.old) k }
        ensures kept { self.new ≡ self.old }
        ensures cost { steps.new ≡ steps.old + 1 };

    /// Whether the breadcrumbs of this text are known: only where the storage is UTF-8 and the text is all of it.
    fn crumbs_known(&self) -> bool
        ensures value { result ≡ knows_crumbs self.now }
        ensures storage { knows_crumbs self.now ≡ true → (part self.now).storage ≡ Utf8 }
        ensures all { knows_crumbs self.now ≡ true → ((part self.now).first ≡ 0) × ((part self.now).end ≡ length (part self.now).whole) };

    /// Word `j` of the breadcrumb list. Where breadcrumbs aren't known, or `j` isn't below the list's length, the answer says nothing.
    fn crumb_word<L: Ledger>(&mut self, j: u64, steps: &mut Steps<L>) -> u64
        // A condition of the answer, and not of the call: at a type whose breadcrumbs are never known no call could meet it.
        ensures value { knows_crumbs self.old ≡ true → j < length (crumbs (part self.old).whole STRIDE)
            → result ≡ slice_index (crumbs (part self.old).whole STRIDE) j }
        ensures kept { self.new ≡ self.old }
        ensures cost { steps.new ≡ steps.old + 1 };

    /// Whether the storage is marked ASCII: true only where each of its code units is below 0x80, and so each scalar.
    fn ascii(&self) -> bool
        ensures value { result ≡ marked_ascii self.now }
        ensures below { marked_ascii self.now ≡ true → (k : ℕ) → k < length (part self.now).whole → slice_index (part self.now).whole k < 0x80 };
}
