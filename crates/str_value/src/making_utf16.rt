//! Values made of UTF-16.
ghost use Rattle.std.specs.Prelude.{◌≡◌, ◌+◌, ◌≤◌, [], ◌∷◌, length, true, IfOk, IfErr, IfSome, IfNone};
ghost use Rattle.text_spec.specs.Packed.{content_words};
ghost use Rattle.text_spec.specs.Text.{utf8, repair};
ghost use Rattle.text_spec.specs.declared.encoding.Encoding.TheVariants.{Utf16};
ghost use Rattle.word_units.specs.Packing.{unit_words};
ghost use Rattle.object_words.specs.Rows as rows;
ghost use Rattle.slot_accounts.specs.Account.{Did, Keeps};
ghost use Rattle.str_value.specs.Meaning.{OfHeap, credit_of, own};
ghost use Rattle.str_value.specs.Making.{MadeOfUtf16, HasRoom, making};

use crate::error::MakeError;
use crate::limits::MAX_TEXT_BYTES;
use crate::storage::{Storage, StrPass};
use crate::units::are_ascii;
use crate::value::Str;
use object_words::Object;
use slot_accounts::{draw, publish};
use slot_model::Attach;
use slot_table::Draft;
use std::alloc::Global;
use word_units::unit_word;

// The value of UTF-16 units in a slot, where they fit one and the pass shows it.
pub(crate) fn publish_utf16<'h>(pass: &mut StrPass<'h>, units: &[u16]) -> Option<Str<'h>>
    requires limit { length (utf8 (repair units.now)) ≤ MAX_TEXT_BYTES }
    ensures none { IfNone result (¬ HasRoom pass.old Utf16 (length units.now) × (pass.new ≡ pass.old)) }
    ensures text { IfSome result (λ s. s.text ≡ repair units.now) }
    ensures made { IfSome result (λ s. MadeOfUtf16 pass.old pass.new units.now s.place s.row) }
    ensures did { IfSome result (λ s. Did (making s.place) pass.old pass.new) }
    ensures credits { IfSome result (λ s. Keeps pass.old 0 pass.new (credit_of s.place)) }
    ensures one_heap { pass.new.heap ≡ pass.old.heap }
    ensures heap { IfSome result (λ s. OfHeap pass.new s.place) }
{
    if (units.len() + 3) / 4 >= pass.capacity_words() as usize {
        return None;
    }
    let mut draft = draw(pass)?;
    let ascii = are_ascii(units);
    let object = Object::foreign(ascii, units.len() as u64, draft.slot());
    write_utf16(&mut draft, object.w0(), units);
    let reference = publish(pass, draft);
    Some(Str {
        object,
        storage: Storage::Foreign(reference),
    })
}

// Writes a count word and the units into a draft, four units a word, with zeros behind the last.
fn write_utf16<A: Attach>(draft: &mut Draft<'_, A>, head: u64, units: &[u16])
    requires empty { draft.old.written ≡ [] }
    requires room { content_words Utf16 (length units.now) + 1 ≤ draft.old.heap.layout.capacity_words }
    ensures { draft.new ≡ record draft.old { written = head ∷ unit_words units.now } }
{
    draft.write(head);
    let count = (units.len() + 3) / 4;
    for k in 0..count {
        draft.write(unit_word(units, k));
    }
}

// The value of UTF-16 units, in a vector of its own.
pub(crate) fn own_utf16<'h>(alloc: Global, units: &[u16]) -> Result<Str<'h>, MakeError>
    requires { length (utf8 (repair units.now)) ≤ MAX_TEXT_BYTES }
    ensures text { IfOk result (λ s. s.text ≡ repair units.now) }
    ensures row { IfOk result (λ s. s.row ≡ rows.owned true (rows.is_ascii units.now) (rows.is_ascii units.now) (length units.now)) }
    ensures place { IfOk result (λ s. s.place ≡ own) }
    ensures memory { IfErr result (λ e. e ≡ MakeError.OutOfMemory) }
{
    let ascii = are_ascii(units);
    let object = Object::owned(ascii, ascii, true, units.len() as u64);
    let copy = Vec::from_slice(alloc, units)?;
    Ok(Str {
        object,
        storage: Storage::Units(copy),
    })
}
