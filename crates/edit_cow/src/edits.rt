//! The three calls.
ghost use Rattle.std.specs.Prelude.{◌≡◌, ◌≢◌, ℕ, ◌+◌, ◌*◌, ◌<◌, ◌≤◌, ◌⊎◌, true, false, List, length, Some, OnOk, OnErr, IfOk, IfErr};
ghost use Rattle.std.specs.Char.{len_utf8};
ghost use Rattle.text_spec.specs.declared.encoding.Encoding.TheVariants.{Utf8, Utf16};
ghost use Rattle.text_spec.specs.Offsets.{start};
ghost use Rattle.text_spec.specs.Text.{utf8};
ghost use Rattle.rounding.specs.Refusals.{scalar_of};
ghost use Rattle.rounding.specs.Resolving.{reads_other};
ghost use Rattle.object_words.specs.Rows.{form_of};
ghost use Rattle.object_words.specs.declared.form.Form.TheVariants as forms;
ghost use Rattle.object_words.specs.declared.layout.TheConstants.{SMALL_CAPACITY};
ghost use Rattle.word_units.specs.Parts.{IsBoundaryIn};
ghost use Rattle.str_value.specs.Meaning.{storage_of, own_part, byte_place, OfHeap};
ghost use Rattle.str_value.specs.Making.{HasRoom};
ghost use Rattle.str_value.specs.Editing.{IsWritten, IsReserved, IsNotReserved};
ghost use Rattle.edit_cow.specs.declared.error.EditError.{EditError};
ghost use Rattle.edit_cow.specs.declared.error.EditError.TheVariants as refusal;
ghost use Rattle.edit_cow.specs.Edits.{rewritten_between, edited, appended, IsLeft};

use crate::error::EditError;
use index_words::Index;
use rounding::scalar_boundary;
use std::alloc::Global;
use std::sync::ledger::Ledger;
use str_value::{Str, StrPass, Wrote};
use word_units::{Steps, Text};

/// Puts the text whose UTF-8 is `with` in place of the text between two indices, each resolved on the value and rounded down to a
/// scalar boundary.
///
/// The answer tells where the new text stands, by the first rule that holds: `InPlace` where the value is Native, the text fits its slot and
/// the value is the slot's only holder, which is asked unless it is known; `Small` where it has at most 15 bytes; `Copied` where it fits a
/// slot and the pass shows a free slot and a credit; and else `Owned`. In place, breadcrumbs are taken away first, and nothing before the
/// edited place is touched. What isn't written in place is made first, and the old value is given up then. After `InPlace` and `Copied` the
/// value is known to be its slot's only holder, without breadcrumbs. Only Owned takes memory, and where the value has a vector of UTF-8
/// only where it grows.
///
/// Refused, in this order, the value and the pass being as they were: `OutOfBounds` exactly where `rounding::resolve` refuses `a`, and then
/// where it refuses `b`, with its three numbers; `Reversed` exactly where the boundary of `a` is after that of `b`, with both as they were
/// handed in; `NotUtf8` exactly where no text has the bytes `with`; `TooLong` exactly where the new text has more than
/// `str_value::MAX_TEXT_BYTES` of UTF-8, with its length; and `OutOfMemory`, where the slot may have been asked for. At most two words a
/// scalar are read for an index that is read in the other encoding, and 264 besides.
pub fn replace<'h, L: Ledger>(
    alloc: Global,
    s: &mut Str<'h>,
    pass: &mut StrPass<'h>,
    a: Index,
    b: Index,
    with: &[u8],
    steps: &mut Steps<L>,
) -> Result<Wrote, EditError>
    requires { OfHeap pass.old s.old.place }
    ensures text { OnOk result (edited s.old a b with.now ≡ Ok s.new.text) }
    ensures written { IfOk result (λ wrote. (i : ℕ) × (scalar_of (own_part s.old) a ≡ Some i) × IsWritten wrote pass.old s.old (start len_utf8 s.old.text i) (utf8 s.new.text) pass.new s.new) }
    ensures one_heap { pass.new.heap ≡ pass.old.heap }
    ensures heap { OfHeap pass.new s.new.place }

    // Refused for want of memory, or for the first cause that stands, and for that each time.
    ensures refused { IfErr result (λ e. (e ≡ EditError.OutOfMemory) ⊎ (edited s.old a b with.now ≡ Err e)) }
    ensures cause { (e : EditError) → edited s.old a b with.now ≡ Err e → result ≡ Err e }
    ensures copied_is_free { result ≡ Err EditError.OutOfMemory → (text : List ℕ) → edited s.old a b with.now ≡ Ok text
        → (SMALL_CAPACITY < length (utf8 text)) × ¬ HasRoom pass.old Utf8 (length (utf8 text)) }
    ensures no_longer_is_free { result ≡ Err EditError.OutOfMemory → (text : List ℕ) → edited s.old a b with.now ≡ Ok text
        → (storage_of s.old.row ≡ Utf16) ⊎ (form_of s.old.row ≢ forms.Owned) ⊎ (length (utf8 s.old.text) < length (utf8 text)) }
    ensures left { OnErr result (IsLeft pass.old s.old (edited s.old a b with.now) pass.new s.new) }

    ensures cost { steps.new ≤ steps.old + 4 * length s.old.text + 264 }
    ensures near { reads_other (storage_of s.old.row) a ≡ false → reads_other (storage_of s.old.row) b ≡ false → steps.new ≤ steps.old + 264 }
{
    let from = scalar_boundary(s, a, steps)?;
    let to = scalar_boundary(s, b, steps)?;
    if to < from {
        return Err(EditError::Reversed { a, b });
    }
    rewrite(alloc, s, pass, from, to, with, steps)
}

/// Puts the text whose UTF-8 is `with` after the value's text.
///
/// As `replace` at the end of the text, with its answers and its refusals but `OutOfBounds` and `Reversed`, which never come. At most
/// 260 words are read.
pub fn append<'h, L: Ledger>(
    alloc: Global,
    s: &mut Str<'h>,
    pass: &mut StrPass<'h>,
    with: &[u8],
    steps: &mut Steps<L>,
) -> Result<Wrote, EditError>
    requires { OfHeap pass.old s.old.place }
    ensures text { OnOk result (appended s.old.text with.now ≡ Ok s.new.text) }
    ensures written { IfOk result (λ wrote. IsWritten wrote pass.old s.old (length (utf8 s.old.text)) (utf8 s.new.text) pass.new s.new) }
    ensures one_heap { pass.new.heap ≡ pass.old.heap }
    ensures heap { OfHeap pass.new s.new.place }

    ensures refused { IfErr result (λ e. (e ≡ EditError.OutOfMemory) ⊎ (appended s.old.text with.now ≡ Err e)) }
    ensures cause { (e : EditError) → appended s.old.text with.now ≡ Err e → result ≡ Err e }
    ensures copied_is_free { result ≡ Err EditError.OutOfMemory → (text : List ℕ) → appended s.old.text with.now ≡ Ok text
        → (SMALL_CAPACITY < length (utf8 text)) × ¬ HasRoom pass.old Utf8 (length (utf8 text)) }
    ensures no_longer_is_free { result ≡ Err EditError.OutOfMemory → (text : List ℕ) → appended s.old.text with.now ≡ Ok text
        → (storage_of s.old.row ≡ Utf16) ⊎ (form_of s.old.row ≢ forms.Owned) ⊎ (length (utf8 s.old.text) < length (utf8 text)) }
    ensures left { OnErr result (IsLeft pass.old s.old (appended s.old.text with.now) pass.new s.new) }

    ensures cost { steps.new ≤ steps.old + 260 }
{
    let end = s.count();
    rewrite(alloc, s, pass, end, end, with, steps)
}

/// Makes the value one that an edit writes in place, as `Str::reserve` does: Native, its slot's only holder, without breadcrumbs. Whether it
/// is.
///
/// `false` exactly where the text's UTF-8 doesn't fit a slot, or the pass shows no free slot or no credit and the value isn't Native or was
/// asked in vain whether it is its slot's only holder. The text stays. No memory.
pub fn reserve<'h>(s: &mut Str<'h>, pass: &mut StrPass<'h>) -> bool
    requires { OfHeap pass.old s.old.place }
    ensures text { s.new.text ≡ s.old.text }
    ensures reserved { result ≡ true → IsReserved pass.old s.old pass.new s.new }
    ensures not { result ≡ false → IsNotReserved pass.old s.old pass.new s.new }
    ensures one_heap { pass.new.heap ≡ pass.old.heap }
    ensures heap { OfHeap pass.new s.new.place }
{
    s.reserve(pass)
}

// Puts bytes in place of the text between two scalar boundaries of the storage.
fn rewrite<'h, L: Ledger>(
    alloc: Global,
    s: &mut Str<'h>,
    pass: &mut StrPass<'h>,
    low: u64,
    high: u64,
    with: &[u8],
    steps: &mut Steps<L>,
) -> Result<Wrote, EditError>
    requires heap { OfHeap pass.old s.old.place }
    requires low { IsBoundaryIn (own_part s.old) low }
    requires high { IsBoundaryIn (own_part s.old) high }
    requires order { low ≤ high }
    ensures text { OnOk result (rewritten_between s.old low high with.now ≡ Ok s.new.text) }
    ensures written { IfOk result (λ wrote. IsWritten wrote pass.old s.old (byte_place s.old low) (utf8 s.new.text) pass.new s.new) }
    ensures one_heap { pass.new.heap ≡ pass.old.heap }
    ensures heap { OfHeap pass.new s.new.place }
    ensures refused { IfErr result (λ e. (e ≡ EditError.OutOfMemory) ⊎ (rewritten_between s.old low high with.now ≡ Err e)) }
    ensures cause { (e : EditError) → rewritten_between s.old low high with.now ≡ Err e → result ≡ Err e }
    ensures copied_is_free { result ≡ Err EditError.OutOfMemory → (text : List ℕ) → rewritten_between s.old low high with.now ≡ Ok text
        → (SMALL_CAPACITY < length (utf8 text)) × ¬ HasRoom pass.old Utf8 (length (utf8 text)) }
    ensures no_longer_is_free { result ≡ Err EditError.OutOfMemory → (text : List ℕ) → rewritten_between s.old low high with.now ≡ Ok text
        → (storage_of s.old.row ≡ Utf16) ⊎ (form_of s.old.row ≢ forms.Owned) ⊎ (length (utf8 s.old.text) < length (utf8 text)) }
    ensures left { OnErr result (IsLeft pass.old s.old (rewritten_between s.old low high with.now) pass.new s.new) }
    ensures cost { steps.new ≤ steps.old + 260 }
{
    let text = match simdutf8::compat::from_utf8(with) {
        Ok(text) => text,
        Err(fault) => {
            return Err(EditError::NotUtf8 {
                valid_up_to: fault.valid_up_to(),
            });
        }
    };
    Ok(s.splice(alloc, pass, low, high, text, steps)?)
}
