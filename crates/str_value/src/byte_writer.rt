//! UTF-8 on its way into a draft, eight bytes a word.
ghost use Rattle.std.specs.Prelude.{◌≡◌, ◌+◌, ◌*◌, ◌^◌, ◌<◌, ◌≤◌, [], ◌∷◌, ◌++◌, length};
ghost use Rattle.text_spec.specs.Packed.{bytes_of, content_words};
ghost use Rattle.text_spec.specs.declared.encoding.Encoding.TheVariants.{Utf8};
ghost use Rattle.word_units.specs.Packing.{byte_words};

use crate::storage::StrCrumbs;
use slot_table::Draft;
use std::marker::Model;
use word_units::byte_word;

/// How many bytes one word has.
const WORD_BYTES: usize = 8;

/// One more than the last value of a word.
const WORDS: u128 = 1 << 64;

/// A draft into which UTF-8 is written behind a count word. Bytes that don't fill a word yet wait, least first.
///
/// Contracts see the draft as it was with the count word alone, and the bytes so far.
#[derive(Drop)]
pub(crate) struct ByteWriter<'h> {
    draft: Draft<'h, StrCrumbs>,
    word: u64,
    waiting: usize,
}

impl<'h> Model for ByteWriter<'h> {
    ghost use Rattle.str_value.specs.Drafting.{Writing, IsWriting, writing};

    ghost Value = { Writing };

    ghost view = { λ w. writing w.draft w.word w.waiting };

    ghost invariant = { λ w. IsWriting w.draft.written w.word w.waiting };
}

impl<'h> ByteWriter<'h> {
    /// A writer into an empty draft, behind this count word.
    pub(crate) fn begin(draft: Draft<'h, StrCrumbs>, head: u64) -> ByteWriter<'h>
        requires empty { draft.written ≡ [] }
        requires room { 0 < draft.heap.layout.capacity_words }
        ensures { result ≡ record { start = record draft.entry { written = head ∷ [] }; bytes = [] } }
    {
        let mut draft = draft;
        draft.write(head);
        ByteWriter {
            draft,
            word: 0,
            waiting: 0,
        }
    }

    /// Appends the first `count` bytes of a word, behind which it has zeros. They have room in the slot with those before.
    pub(crate) fn push_word(&mut self, word: u64, count: usize)
        requires few { count ≤ 8 }
        requires small { word < 2 ^ (8 * count) }
        requires room { content_words Utf8 (length self.old.bytes + count) + 1 ≤ self.old.start.heap.layout.capacity_words }
        ensures { self.new ≡ record self.old { bytes = self.old.bytes ++ bytes_of (word ∷ []) count } }
    {
        let both = self.word as u128 + ((word as u128) << (8 * self.waiting));
        let filled = self.waiting + count;
        let first = (both % WORDS) as u64;
        if filled < WORD_BYTES {
            self.word = first;
            self.waiting = filled;
        } else {
            self.draft.write(first);
            self.word = (both >> 64) as u64;
            self.waiting = filled - WORD_BYTES;
        }
    }

    /// Appends bytes, which have room in the slot with those before.
    pub(crate) fn push(&mut self, bytes: &[u8])
        requires room { content_words Utf8 (length self.old.bytes + length bytes.now) + 1 ≤ self.old.start.heap.layout.capacity_words }
        ensures { self.new ≡ record self.old { bytes = self.old.bytes ++ bytes.now } }
    {
        let words = (bytes.len() + 7) / WORD_BYTES;
        for k in 0..words {
            let count = (bytes.len() - WORD_BYTES * k).min(WORD_BYTES);
            self.push_word(byte_word(bytes, k), count);
        }
    }

    /// The draft with all bytes, zeros behind the last in its word.
    pub(crate) fn finish(self) -> Draft<'h, StrCrumbs>
        requires room { content_words Utf8 (length self.bytes) + 1 ≤ self.start.heap.layout.capacity_words }
        ensures { result ≡ record self.entry.start { written = self.entry.start.written ++ byte_words self.entry.bytes } }
    {
        let ByteWriter {
            draft,
            word,
            waiting,
        } = self;
        let mut draft = draft;
        if waiting > 0 {
            draft.write(word);
        }
        draft
    }
}
