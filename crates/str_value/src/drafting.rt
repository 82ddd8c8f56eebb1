//! The edited text of a value in a new slot, straight out of the old one, so that no memory is taken.
ghost use Rattle.std.specs.Prelude.{◌≡◌, ℕ, true, false, ◌+◌, ◌-◌, ◌*◌, ◌/◌, ◌%◌, ◌^◌, ◌<◌, ◌≤◌, [], ◌∷◌, ◌++◌, length, take, drop, chars, IfSome, IfNone, IsUtf8};
ghost use Rattle.text_spec.specs.Boundaries.{IsScalarBoundary};
ghost use Rattle.text_spec.specs.Packed.{content_words};
ghost use Rattle.text_spec.specs.Text.{utf8};
ghost use Rattle.text_spec.specs.Views.{width_in};
ghost use Rattle.text_spec.specs.declared.encoding.Encoding.TheVariants.{Utf8};
ghost use Rattle.object_words.specs.Rows as rows;
ghost use Rattle.object_words.specs.Rows.{native, Describes};
ghost use Rattle.slot_table.specs.Owners.{RefSeen};
ghost use Rattle.slot_accounts.specs.Account.{Did, Keeps};
ghost use Rattle.word_units.specs.Packing.{byte_words};
ghost use Rattle.str_value.specs.Meaning.{storage_of, OfHeap, credit_of, byte_place, shared};
ghost use Rattle.str_value.specs.Making.{IsPublishedUtf8, HasRoom, making};
ghost use Rattle.str_value.specs.Editing.{new_bytes};
ghost use Rattle.str_value.specs.Drafting.{utf8_from};

use crate::byte_writer::ByteWriter;
use crate::limits::MAX_TEXT_BYTES;
use crate::making_utf8::is_ascii;
use crate::storage::{Storage, StrCrumbs, StrPass};
use crate::text::content_word;
use crate::value::Str;
use object_words::Object;
use slot_accounts::{draw, publish};
use slot_edits::Part;
use slot_table::Draft;
use std::marker::Brand;
use std::sync::ledger::{Blank, Ledger};
use text_spec::Encoding;
use word_units::{Steps, Text, fill_forward};

// The high bit of each byte of a word: none is set where the eight bytes are ASCII.
const HIGH_BITS: u64 = 0x8080_8080_8080_8080;

// The value of a text with bytes in place of a part of its UTF-8, in a new slot, where one has room and the pass shows it.
//
// The part ends at place `high` of the storage. The text is read once, and before that, for the mark of ASCII, as far as it is ASCII
// where it isn't all ASCII and what is added is.
pub(crate) fn publish_spliced<'h>(
    value: &mut Str<'h>,
    pass: &mut StrPass<'h>,
    part: Part,
    high: u64,
    with: &[u8],
) -> Option<Str<'h>>
    requires order { part.low ≤ part.high }
    requires inside { part.high ≤ part.count }
    requires count { part.count ≡ length (utf8 value.old.text) }
    requires high { IsScalarBoundary (width_in (storage_of value.old.row)) value.old.text high }
    requires high8 { part.high ≡ byte_place value.old high }
    requires utf8 { IsUtf8 (new_bytes value.old part with.now) }
    requires limit { length (new_bytes value.old part with.now) ≤ MAX_TEXT_BYTES }
    ensures none { IfNone result (¬ HasRoom pass.old Utf8 (length (new_bytes value.old part with.now)) × (pass.new ≡ pass.old)) }
    ensures text { IfSome result (λ s. s.text ≡ chars (new_bytes value.old part with.now)) }
    ensures published { IfSome result (λ s. (r : RefSeen) × (s.place ≡ shared r) × IsPublishedUtf8 pass.old pass.new (new_bytes value.old part with.now) r s.row) }
    ensures did { IfSome result (λ s. Did (making s.place) pass.old pass.new) }
    ensures credits { IfSome result (λ s. Keeps pass.old 0 pass.new (credit_of s.place)) }
    ensures one_heap { pass.new.heap ≡ pass.old.heap }
    ensures heap { IfSome result (λ s. OfHeap pass.new s.place) }
    ensures kept { value.new ≡ value.old }
{
    let length = (part.count - (part.high - part.low)) as usize + with.len();
    if (length + 7) / 8 >= pass.capacity_words() as usize {
        return None;
    }
    let draft = draw(pass)?;
    let (object, draft) = draft_spliced::<Brand>(value, draft, part, high, with, Blank::new(1));
    let reference = publish(pass, draft);
    Some(Str {
        object,
        storage: Storage::Native(reference, 0),
    })
}

// Writes the count word and the bytes of the new text into a draft. The two words of its value.
fn draft_spliced<'h, L: Ledger>(
    value: &mut Str<'h>,
    draft: Draft<'h, StrCrumbs>,
    part: Part,
    high: u64,
    with: &[u8],
    blank: Blank,
) -> (Object, Draft<'h, StrCrumbs>)
    requires name { blank.name ≡ L.name }
    requires parts { blank.parts ≡ L.parts }
    requires one { blank.parts ≡ 1 }
    requires order { part.low ≤ part.high }
    requires inside { part.high ≤ part.count }
    requires count { part.count ≡ length (utf8 value.old.text) }
    requires high { IsScalarBoundary (width_in (storage_of value.old.row)) value.old.text high }
    requires high8 { part.high ≡ byte_place value.old high }
    requires limit { length (new_bytes value.old part with.now) ≤ MAX_TEXT_BYTES }
    requires empty { draft.written ≡ [] }
    requires room { content_words Utf8 (length (new_bytes value.old part with.now)) + 1 ≤ draft.heap.layout.capacity_words }
    ensures object { Describes (native (rows.is_ascii (new_bytes value.old part with.now))
        (rows.is_ascii (new_bytes value.old part with.now))
        (length (new_bytes value.old part with.now)) draft.entry.slot) result.0 }
    ensures fits { result.0.1 < 2 ^ 64 }
    ensures words { result.1 ≡ record draft.entry { written = result.0.0 ∷ byte_words (new_bytes value.old part with.now) } }
    ensures kept { value.new ≡ value.old }
{
    let mut steps = Steps::<L>::from_blank(blank);
    let length = (part.count - (part.high - part.low)) as usize + with.len();
    let ascii = is_ascii_spliced(value, part, high, with, &mut steps);
    let object = Object::native(ascii, ascii, length as u64, draft.slot());
    let mut writer = ByteWriter::begin(draft, object.w0());
    push_text(value, 0, part.low as usize, &mut writer, &mut steps);
    writer.push(with);
    push_text(
        value,
        high,
        (part.count - part.high) as usize,
        &mut writer,
        &mut steps,
    );
    (object, writer.finish())
}

// Whether all bytes of the new text are ASCII. The text is read for it only where it isn't ASCII before and what is added is.
fn is_ascii_spliced<L: Ledger>(
    value: &mut Str,
    part: Part,
    high: u64,
    with: &[u8],
    steps: &mut Steps<L>,
) -> bool
    requires order { part.low ≤ part.high }
    requires inside { part.high ≤ part.count }
    requires count { part.count ≡ length (utf8 value.old.text) }
    requires high { IsScalarBoundary (width_in (storage_of value.old.row)) value.old.text high }
    requires high8 { part.high ≡ byte_place value.old high }
    ensures ascii { result ≡ rows.is_ascii (new_bytes value.old part with.now) }
    ensures kept { value.new ≡ value.old }
{
    let added = is_ascii(with);
    if value.ascii() || !added {
        return added;
    }
    is_ascii_text(value, 0, part.low as usize, steps)
        && is_ascii_text(value, high, (part.count - part.high) as usize, steps)
}

// Whether all of so many bytes of the text's UTF-8 from a scalar boundary on are ASCII, up to the first that isn't.
fn is_ascii_text<L: Ledger>(value: &mut Str, from: u64, count: usize, steps: &mut Steps<L>) -> bool
    requires boundary { IsScalarBoundary (width_in (storage_of value.old.row)) value.old.text from }
    requires inside { byte_place value.old from + count ≤ length (utf8 value.old.text) }
    ensures ascii { result ≡ rows.is_ascii (utf8_from value.old from count) }
    ensures kept { value.new ≡ value.old }
{
    match value.encoding() {
        Encoding::Utf8 => is_ascii_stored(value, from, count),
        Encoding::Utf16 => is_ascii_pieces(value, from, count, steps),
    }
}

// The same of UTF-8 storage, by its words.
fn is_ascii_stored(value: &mut Str, from: u64, count: usize) -> bool
    requires storage { storage_of value.old.row ≡ Utf8 }
    requires inside { from + count ≤ length (utf8 value.old.text) }
    ensures ascii { result ≡ rows.is_ascii (take count (drop from (utf8 value.old.text))) }
    ensures kept { value.new ≡ value.old }
{
    // What the value keeps to is known where it is looked at.
    let _object = value.object;
    let mut at = from;
    let mut left = count;
    'words: while left > 0 {
        let skip = (at % 8) as usize;
        let size = (8 - skip).min(left);
        let word = content_word(value, at / 8) >> (8 * skip);
        if !is_ascii_word(first_bytes(word, size)) {
            return false;
        }
        left -= size;
        at += size as u64;
    }
    true
}

// Whether the eight bytes of a word are ASCII.
fn is_ascii_word(word: u64) -> bool
    ensures all { result ≡ true → (i : ℕ) → i < 8 → word / 2 ^ (8 * i) % 256 < 128 }
    ensures some { result ≡ false → (i : ℕ) × (i < 8) × (128 ≤ word / 2 ^ (8 * i) % 256) }
{
    word & HIGH_BITS == 0
}

// The same by pieces, scalar by scalar, whatever the encoding.
fn is_ascii_pieces<L: Ledger>(
    value: &mut Str,
    from: u64,
    count: usize,
    steps: &mut Steps<L>,
) -> bool
    requires boundary { IsScalarBoundary (width_in (storage_of value.old.row)) value.old.text from }
    requires inside { byte_place value.old from + count ≤ length (utf8 value.old.text) }
    ensures ascii { result ≡ rows.is_ascii (utf8_from value.old from count) }
    ensures kept { value.new ≡ value.old }
{
    let mut piece = [0; 64];
    let mut at = from;
    let mut left = count;
    'pieces: while left > 0 {
        let (size, next) = next_piece(value, at, left, &mut piece, steps);
        if !is_ascii(&piece[..size]) {
            return false;
        }
        left -= size;
        at = next;
    }
    true
}

// Appends so many bytes of the text's UTF-8 from a scalar boundary on.
fn push_text<'h, L: Ledger>(
    value: &mut Str<'h>,
    from: u64,
    count: usize,
    writer: &mut ByteWriter<'h>,
    steps: &mut Steps<L>,
)
    requires boundary { IsScalarBoundary (width_in (storage_of value.old.row)) value.old.text from }
    requires inside { byte_place value.old from + count ≤ length (utf8 value.old.text) }
    requires room { content_words Utf8 (length writer.old.bytes + count) + 1 ≤ writer.old.start.heap.layout.capacity_words }
    ensures bytes { writer.new ≡ record writer.old { bytes = writer.old.bytes ++ utf8_from value.old from count } }
    ensures kept { value.new ≡ value.old }
{
    match value.encoding() {
        Encoding::Utf8 => push_stored(value, from, count, writer),
        Encoding::Utf16 => push_pieces(value, from, count, writer, steps),
    }
}

// The same of UTF-8 storage, by its words.
fn push_stored<'h>(value: &mut Str<'h>, from: u64, count: usize, writer: &mut ByteWriter<'h>)
    requires storage { storage_of value.old.row ≡ Utf8 }
    requires inside { from + count ≤ length (utf8 value.old.text) }
    requires room { content_words Utf8 (length writer.old.bytes + count) + 1 ≤ writer.old.start.heap.layout.capacity_words }
    ensures bytes { writer.new ≡ record writer.old { bytes = writer.old.bytes ++ take count (drop from (utf8 value.old.text)) } }
    ensures kept { value.new ≡ value.old }
{
    // What the value keeps to is known where it is looked at.
    let _object = value.object;
    let mut at = from;
    let mut left = count;
    'words: while left > 0 {
        let skip = (at % 8) as usize;
        let size = (8 - skip).min(left);
        let word = content_word(value, at / 8) >> (8 * skip);
        writer.push_word(first_bytes(word, size), size);
        left -= size;
        at += size as u64;
    }
}

// A word with zeros in place of its bytes from number `count` on.
fn first_bytes(word: u64, count: usize) -> u64
    requires { count ≤ 8 }
    ensures { result ≡ word % 2 ^ (8 * count) }
{
    if count < 8 {
        word % (1 << (8 * count))
    } else {
        word
    }
}

// The same by pieces, scalar by scalar, whatever the encoding.
fn push_pieces<'h, L: Ledger>(
    value: &mut Str<'h>,
    from: u64,
    count: usize,
    writer: &mut ByteWriter<'h>,
    steps: &mut Steps<L>,
)
    requires boundary { IsScalarBoundary (width_in (storage_of value.old.row)) value.old.text from }
    requires inside { byte_place value.old from + count ≤ length (utf8 value.old.text) }
    requires room { content_words Utf8 (length writer.old.bytes + count) + 1 ≤ writer.old.start.heap.layout.capacity_words }
    ensures bytes { writer.new ≡ record writer.old { bytes = writer.old.bytes ++ utf8_from value.old from count } }
    ensures kept { value.new ≡ value.old }
{
    let mut piece = [0; 64];
    let mut at = from;
    let mut left = count;
    'pieces: while left > 0 {
        let (size, next) = next_piece(value, at, left, &mut piece, steps);
        writer.push(&piece[..size]);
        left -= size;
        at = next;
    }
}

// Writes the next bytes of the text's UTF-8 into the front of a buffer, at most `left` of them.
//
// They begin at the scalar boundary `at` of the storage. Answers how many they are and, where they are fewer, the place behind them.
fn next_piece<L: Ledger>(
    value: &mut Str,
    at: u64,
    left: usize,
    piece: &mut [u8; 64],
    steps: &mut Steps<L>,
) -> (usize, u64)
    requires boundary { IsScalarBoundary (width_in (storage_of value.old.row)) value.old.text at }
    requires some { 0 < left }
    requires inside { byte_place value.old at + left ≤ length (utf8 value.old.text) }
    ensures bytes { take result.0 piece.new ≡ utf8_from value.old at result.0 }
    ensures some { 0 < result.0 }
    ensures most { (result.0 ≤ left) × (result.0 ≤ 64) }
    ensures boundary { IsScalarBoundary (width_in (storage_of value.old.row)) value.old.text result.1 }
    ensures next { result.0 < left → byte_place value.old result.1 ≡ byte_place value.old at + result.0 }
    ensures kept { value.new ≡ value.old }
{
    let (size, next) = fill_forward(value, at, piece, steps);
    (size.min(left), next)
}
