//! Values made of UTF-8.
ghost use Rattle.std.specs.Prelude.{◌≡◌, ◌≢◌, ℕ, ◌+◌, ◌<◌, ◌≤◌, ◌↔◌, [], ◌∷◌, length, chars, IfOk, IfErr, IsSome, IfSome, IfNone, IsUtf8, false};
ghost use Rattle.text_spec.specs.Packed.{content_words};
ghost use Rattle.text_spec.specs.declared.encoding.Encoding.TheVariants.{Utf8};
ghost use Rattle.word_units.specs.Packing.{byte_words};
ghost use Rattle.object_words.specs.Rows as rows;
ghost use Rattle.slot_accounts.specs.Account.{Did, Keeps};
ghost use Rattle.str_value.specs.Meaning.{OfHeap, credit_of, own};
ghost use Rattle.str_value.specs.Making.{MadeOfUtf8, HasRoom, making};

use crate::error::MakeError;
use crate::limits::MAX_TEXT_BYTES;
use crate::storage::{Storage, StrPass};
use crate::value::Str;
use object_words::{Object, SMALL_CAPACITY};
use slot_accounts::{draw, publish};
use slot_model::Attach;
use slot_table::Draft;
use std::alloc::Global;
use word_units::byte_word;

// The value of bytes that are known to be UTF-8.
pub(crate) fn make<'h>(
    alloc: Global,
    pass: &mut StrPass<'h>,
    bytes: &[u8],
) -> Result<Str<'h>, MakeError>
    requires { IsUtf8 bytes.now }
    ensures text { IfOk result (λ s. s.text ≡ chars bytes.now) }
    ensures made { IfOk result (λ s. MadeOfUtf8 pass.old pass.new bytes.now s.place s.row) }
    ensures did { IfOk result (λ s. Did (making s.place) pass.old pass.new) }
    ensures credits { IfOk result (λ s. Keeps pass.old 0 pass.new (credit_of s.place)) }
    ensures one_heap { pass.new.heap ≡ pass.old.heap }
    ensures heap { IfOk result (λ s. OfHeap pass.new s.place) }
    ensures too_long { (n : ℕ) → (result ≡ Err (MakeError.TooLong n)) ↔ ((n ≡ length bytes.now) × (MAX_TEXT_BYTES < n)) }
    ensures utf8 { (n : ℕ) → result ≢ Err (MakeError.NotUtf8 n) }
    ensures free { result ≡ Err MakeError.OutOfMemory → (SMALL_CAPACITY < length bytes.now) × ¬ HasRoom pass.old Utf8 (length bytes.now) }
    ensures refused { IfErr result (λ e. pass.new ≡ pass.old) }
{
    if bytes.len() > MAX_TEXT_BYTES {
        return Err(MakeError::TooLong {
            len: bytes.len() as u64,
        });
    }
    if let Some(value) = small(bytes) {
        return Ok(value);
    }
    if let Some(value) = publish_utf8(pass, bytes) {
        return Ok(value);
    }
    own_utf8(alloc, bytes)
}

// The value of at most 15 bytes, which stand in its words; `None` where they are more.
pub(crate) fn small<'h>(bytes: &[u8]) -> Option<Str<'h>>
    requires { IsUtf8 bytes.now }
    ensures found { IsSome result ↔ (length bytes.now ≤ SMALL_CAPACITY) }
    ensures text { IfSome result (λ s. s.text ≡ chars bytes.now) }
    ensures row { IfSome result (λ s. s.row ≡ rows.small bytes.now) }
    ensures place { IfSome result (λ s. s.place ≡ own) }
{
    let object = Object::small(bytes)?;
    Some(Str {
        object,
        storage: Storage::Words,
    })
}

// The value of more bytes in a slot, where they fit one and the pass shows it.
pub(crate) fn publish_utf8<'h>(pass: &mut StrPass<'h>, bytes: &[u8]) -> Option<Str<'h>>
    requires utf8 { IsUtf8 bytes.now }
    requires long { SMALL_CAPACITY < length bytes.now }
    requires limit { length bytes.now ≤ MAX_TEXT_BYTES }
    ensures none { IfNone result (¬ HasRoom pass.old Utf8 (length bytes.now) × (pass.new ≡ pass.old)) }
    ensures text { IfSome result (λ s. s.text ≡ chars bytes.now) }
    ensures made { IfSome result (λ s. MadeOfUtf8 pass.old pass.new bytes.now s.place s.row) }
    ensures did { IfSome result (λ s. Did (making s.place) pass.old pass.new) }
    ensures credits { IfSome result (λ s. Keeps pass.old 0 pass.new (credit_of s.place)) }
    ensures one_heap { pass.new.heap ≡ pass.old.heap }
    ensures heap { IfSome result (λ s. OfHeap pass.new s.place) }
{
    if (bytes.len() + 7) / 8 >= pass.capacity_words() as usize {
        return None;
    }
    let mut draft = draw(pass)?;
    let ascii = is_ascii(bytes);
    let object = Object::native(ascii, ascii, bytes.len() as u64, draft.slot());
    write_utf8(&mut draft, object.w0(), bytes);
    let reference = publish(pass, draft);
    Some(Str {
        object,
        storage: Storage::Native(reference, 0),
    })
}

// Writes a count word and the bytes into a draft, eight bytes a word, with zeros behind the last.
fn write_utf8<A: Attach>(draft: &mut Draft<'_, A>, head: u64, bytes: &[u8])
    requires empty { draft.old.written ≡ [] }
    requires room { content_words Utf8 (length bytes.now) + 1 ≤ draft.old.heap.layout.capacity_words }
    ensures { draft.new ≡ record draft.old { written = head ∷ byte_words bytes.now } }
{
    draft.write(head);
    let count = (bytes.len() + 7) / 8;
    for k in 0..count {
        draft.write(byte_word(bytes, k));
    }
}

// The value of more bytes, in a vector of its own.
fn own_utf8<'h>(alloc: Global, bytes: &[u8]) -> Result<Str<'h>, MakeError>
    requires utf8 { IsUtf8 bytes.now }
    requires limit { length bytes.now ≤ MAX_TEXT_BYTES }
    ensures text { IfOk result (λ s. s.text ≡ chars bytes.now) }
    ensures row { IfOk result (λ s. s.row ≡ rows.owned false (rows.is_ascii bytes.now) (rows.is_ascii bytes.now) (length bytes.now)) }
    ensures place { IfOk result (λ s. s.place ≡ own) }
    ensures memory { IfErr result (λ e. e ≡ MakeError.OutOfMemory) }
{
    let ascii = is_ascii(bytes);
    let object = Object::owned(ascii, ascii, false, bytes.len() as u64);
    let copy = Vec::from_slice(alloc, bytes)?;
    Ok(Str {
        object,
        storage: Storage::Bytes(copy),
    })
}

// Whether all bytes are ASCII, a word at a time.
pub(crate) fn is_ascii(bytes: &[u8]) -> bool
    ensures { result ≡ rows.is_ascii bytes.now }
{
    bytes.is_ascii()
}
