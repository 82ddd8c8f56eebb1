//! Edits into a new slot, each with the account of its events.
ghost use Rattle.std.specs.Prelude.{◌≡◌, ◌+◌, ◌*◌, ◌^◌, ◌<◌, ◌≤◌, [], ◌∷◌, length, IfSome, IfNone};
ghost use Rattle.slot_model.specs.declared.event.Event.TheVariants.{Publish};
ghost use Rattle.slot_accounts.specs.Account.{Shows, Did, Keeps, new_reference};
ghost use Rattle.slot_edits.specs.Parts.{Fits, IsPart, new_count, spliced};
ghost use Rattle.slot_edits.specs.Texts.{IsText, IsObjectOf, begun, native_words};
ghost use Rattle.slot_edits.specs.Edits.{WritesCopy};

use crate::packing::joined;
use crate::part::Part;
use crate::reading::{new_word, word_of};
use crate::rewriting::first_moved;
use crate::splicing::{ascii_after, new_length};
use object_words::Object;
use slot_accounts::{draw, let_go, publish};
use slot_model::Attach;
use slot_table::{Draft, Pass, Ref};

/// Writes the words of the new text into a draft, straight from those of the old one and `with`. The two words of the value.
fn fill<'h, A: Attach>(
    draft: &mut Draft<'h, A>,
    reference: &mut Ref<'h, A>,
    part: Part,
    with: &[u8],
    marked: bool,
) -> Object
    requires part { IsPart reference.old.known part with.now }
    requires text { IsText reference.old.known part.count marked }
    requires none { draft.old.written ≡ [] }
    requires fits { Fits (new_count part with.now) draft.old.heap.layout.capacity_words }
    ensures kept { reference.new ≡ reference.old }
    ensures words { draft.new ≡ record draft.old { written = native_words (spliced reference.old.known part with.now) } }
    ensures object { IsObjectOf (spliced reference.old.known part with.now) draft.old.slot result }
{
    let ascii = ascii_after(reference, part, with, marked);
    let count = new_length(part, with);
    let object = Object::native(ascii, ascii, count, draft.slot());
    draft.write(object.w0());
    let words = (count + 7) / 8;
    let middle = first_moved(part, with, 0, words);
    fill_mixed(draft, reference, part, with, 0, middle);
    if middle < words {
        fill_moved(draft, reference, part, with, middle, words);
    }
    object
}

// Writes content words `from` to before `to` of the new text into a draft that has those before.
fn fill_mixed<'h, A: Attach>(
    draft: &mut Draft<'h, A>,
    reference: &mut Ref<'h, A>,
    part: Part,
    with: &[u8],
    from: u64,
    to: u64,
)
    requires part { IsPart reference.old.known part with.now }
    requires begun { draft.old.written ≡ begun (spliced reference.old.known part with.now) from }
    requires order { from ≤ to }
    requires room { (to < draft.old.heap.layout.capacity_words) × (to < 2 ^ 36) }
    ensures kept { reference.new ≡ reference.old }
    ensures words { draft.new ≡ record draft.old { written = begun (spliced reference.old.known part with.now) to } }
{
    for k in from..to {
        let word = new_word(reference, part, with, k);
        draft.write(word);
    }
}

// The same where all bytes of these words come from behind the part: each old word is read once.
fn fill_moved<'h, A: Attach>(
    draft: &mut Draft<'h, A>,
    reference: &mut Ref<'h, A>,
    part: Part,
    with: &[u8],
    from: u64,
    to: u64,
)
    requires part { IsPart reference.old.known part with.now }
    requires begun { draft.old.written ≡ begun (spliced reference.old.known part with.now) from }
    requires order { from ≤ to }
    requires room { (to < draft.old.heap.layout.capacity_words) × (to < 2 ^ 36) }
    requires moved { part.low + length with.now ≤ 8 * from }
    ensures kept { reference.new ≡ reference.old }
    ensures words { draft.new ≡ record draft.old { written = begun (spliced reference.old.known part with.now) to } }
{
    let end = part.low + with.len() as u64;
    let first = part.high + (8 * from - end);
    let mut near = word_of(reference, part.count, first / 8);
    for k in from..to {
        let far = word_of(reference, part.count, first / 8 + (k - from) + 1);
        let word = joined(near, far, first % 8);
        draft.write(word);
        near = far;
    }
}

/// Publishes the new text in a new slot, where the pass shows a free slot and a credit.
fn publish_spliced<'h, A: Attach>(
    pass: &mut Pass<'h, A>,
    reference: &mut Ref<'h, A>,
    part: Part,
    with: &[u8],
    marked: bool,
) -> Option<(Ref<'h, A>, Object)>
    requires part { IsPart reference.old.known part with.now }
    requires text { IsText reference.old.known part.count marked }
    requires fits { Fits (new_count part with.now) pass.old.heap.layout.capacity_words }
    ensures heap { pass.new.heap ≡ pass.old.heap }
    ensures kept { reference.new ≡ reference.old }
    ensures none { IfNone result ((pass.new ≡ pass.old) × ¬ Shows pass.old) }
    ensures shows { IfSome result (λ _. Shows pass.old) }
    ensures did { IfSome result (λ t. Did (Publish t.0.slot (native_words (spliced reference.old.known part with.now)) ∷ []) pass.old pass.new) }
    ensures credits { IfSome result (λ _. Keeps pass.old 0 pass.new 1) }
    ensures object { IfSome result (λ t. IsObjectOf (spliced reference.old.known part with.now) t.0.slot t.1) }
    ensures fresh { IfSome result (λ t. t.0 ≡ new_reference pass.old.heap t.0.front t.0.slot (native_words (spliced reference.old.known part with.now))) }
{
    let mut draft = draw(pass)?;
    let object = fill(&mut draft, reference, part, with, marked);
    Some((publish(pass, draft), object))
}

/// Puts bytes in place of a part of the text in a new slot, and gives the old reference up: the two words of the value then. `None`
/// exactly where the pass shows no free slot or no spendable credit, and nothing is done then.
///
/// The events are a Publish of the new text, and behind it the old reference's Release, with a Detach after its slot's last. `marked` says
/// whether the old text is ASCII. The new text fits a slot with its count word: its bytes and 8 are at most 8 times the heap's
/// `capacity_words`. `pass` is of the same heap. No memory.
pub fn replace_copied<'h, A: Attach>(
    pass: &mut Pass<'h, A>,
    reference: Ref<'h, A>,
    part: Part,
    with: &[u8],
    marked: bool,
) -> (Ref<'h, A>, Option<Object>)
    requires heap { reference.heap ≡ pass.old.heap }
    requires clean { reference.places ≡ [] }
    requires part { IsPart reference.known part with.now }
    requires text { IsText reference.known part.count marked }
    requires fits { Fits (new_count part with.now) pass.old.heap.layout.capacity_words }
    ensures heap { pass.new.heap ≡ pass.old.heap }
    ensures same_heap { result.0.heap ≡ pass.new.heap }
    ensures copied { IfSome result.1 (λ _. WritesCopy [] pass.old reference.entry part with.now pass.new result.0) }
    ensures object { IfSome result.1 (IsObjectOf (spliced reference.entry.known part with.now) result.0.slot) }
    ensures none { IfNone result.1 ((pass.new ≡ pass.old) × (result.0 ≡ reference.entry) × ¬ Shows pass.old) }
    ensures credits { pass.new.credits ≡ pass.old.credits }
{
    let mut reference = reference;
    match publish_spliced(pass, &mut reference, part, with, marked) {
        None => (reference, None),
        Some((new, object)) => {
            let _last = let_go(pass, reference);
            (new, Some(object))
        }
    }
}
