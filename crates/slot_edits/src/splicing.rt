//! A text in a slot with other bytes in place of a part of it, by reads and writes of its words.
ghost use Rattle.std.specs.Prelude.{◌≡◌, ℕ, ◌+◌, ◌-◌, ◌/◌, ◌^◌, ◌<◌, ◌≤◌, length, true};
ghost use Rattle.object_words.specs.Rows as rows;
ghost use Rattle.slot_edits.specs.Writes.{Wrote};
ghost use Rattle.slot_edits.specs.Words.{content_bytes};
ghost use Rattle.slot_edits.specs.Parts.{Fits, IsPart, new_count, spliced};
ghost use Rattle.slot_edits.specs.Texts.{IsText, IsObjectOf, Edited};

use crate::packing::is_ascii_word;
use crate::part::Part;
use crate::reading::new_word;
use crate::rewriting::{rewrite_downward, rewrite_upward};
use object_words::Object;
use slot_model::Attach;
use slot_table::Ref;

/// How many bytes the new text has.
pub(crate) fn new_length(part: Part, with: &[u8]) -> u64
    requires order { part.low ≤ part.high }
    requires inside { part.high ≤ part.count }
    requires small { (part.count < 2 ^ 36) × (length with.now < 2 ^ 36) }
    ensures { result ≡ new_count part with.now }
{
    part.count - (part.high - part.low) + with.len() as u64
}

/// Whether all bytes of the new text are ASCII, where `marked` says it of the old one.
///
/// The text is read for it only where it isn't ASCII before and what is added is, and up to its first byte that isn't.
pub(crate) fn ascii_after<'h, A: Attach>(
    reference: &mut Ref<'h, A>,
    part: Part,
    with: &[u8],
    marked: bool,
) -> bool
    requires part { IsPart reference.old.known part with.now }
    requires marked { marked ≡ rows.is_ascii (content_bytes reference.old.known part.count) }
    ensures kept { reference.new ≡ reference.old }
    ensures ascii { result ≡ rows.is_ascii (spliced reference.old.known part with.now) }
{
    let added = with.is_ascii();
    if marked || !added {
        return added;
    }
    is_ascii_between(reference, part, with)
}

// Whether all bytes of the new text are ASCII, by its words.
fn is_ascii_between<'h, A: Attach>(reference: &mut Ref<'h, A>, part: Part, with: &[u8]) -> bool
    requires part { IsPart reference.old.known part with.now }
    ensures kept { reference.new ≡ reference.old }
    ensures ascii { result ≡ rows.is_ascii (spliced reference.old.known part with.now) }
{
    let words = (new_length(part, with) + 7) / 8;
    for k in 0..words {
        let word = new_word(reference, part, with, k);
        if !is_ascii_word(word) {
            return false;
        }
    }
    true
}

/// Writes the content words of the new text where they differ in place from the old ones, each at most once.
fn splice_words<'h, A: Attach>(reference: &mut Ref<'h, A>, part: Part, with: &[u8])
    requires part { IsPart reference.old.known part with.now }
    requires bare { reference.old.bare ≡ true }
    requires fits { Fits (new_count part with.now) reference.old.heap.layout.capacity_words }
    requires few { reference.old.heap.layout.capacity_words < 2 ^ 32 }
    requires most { length reference.old.known ≤ reference.old.heap.layout.capacity_words }
    ensures bytes { content_bytes reference.new.known (length (spliced reference.old.known part with.now)) ≡ spliced reference.old.known part with.now }
    ensures room { Fits (length (spliced reference.old.known part with.now)) (length reference.new.known) }
    ensures most { length reference.new.known ≤ reference.old.heap.layout.capacity_words }
    ensures wrote { (n : ℕ) × (n ≤ (length (spliced reference.old.known part with.now) + 7) / 8 - part.low / 8) × Wrote n reference.old reference.new }
{
    let end = part.low + with.len() as u64;
    let first = part.low / 8;
    let words = (new_length(part, with) + 7) / 8;
    if end < part.high {
        rewrite_upward(reference, part, with, first, words);
    } else if end == part.high {
        rewrite_upward(reference, part, with, first, (end + 7) / 8);
    } else {
        // The words behind the old end first, then the others from the last one on.
        let old_words = (part.count + 7) / 8;
        rewrite_upward(reference, part, with, old_words, words);
        rewrite_downward(reference, part, with, first, old_words);
    }
}

/// Writes the new text in place of the old one, its content words first and its count word last. The two words of the value.
pub(crate) fn splice<'h, A: Attach>(
    reference: &mut Ref<'h, A>,
    part: Part,
    with: &[u8],
    marked: bool,
) -> Object
    requires part { IsPart reference.old.known part with.now }
    requires text { IsText reference.old.known part.count marked }
    requires bare { reference.old.bare ≡ true }
    requires fits { Fits (new_count part with.now) reference.old.heap.layout.capacity_words }
    requires few { reference.old.heap.layout.capacity_words < 2 ^ 32 }
    requires most { length reference.old.known ≤ reference.old.heap.layout.capacity_words }
    ensures edited { Edited reference.old.known part with.now reference.new.known }
    ensures object { IsObjectOf (spliced reference.old.known part with.now) reference.old.slot result }
    ensures most { length reference.new.known ≤ reference.old.heap.layout.capacity_words }
    ensures wrote { (n : ℕ) × (n ≤ (length (spliced reference.old.known part with.now) + 7) / 8 - part.low / 8) × Wrote (n + 1) reference.old reference.new }
{
    let ascii = ascii_after(reference, part, with, marked);
    let count = new_length(part, with);
    splice_words(reference, part, with);
    let object = Object::native(ascii, ascii, count, reference.slot());
    reference.write(0, object.w0());
    object
}
