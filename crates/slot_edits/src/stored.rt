//! An edit of a text in a slot, in place or into a new slot, and what readies a text for edits in place.
ghost use Rattle.std.specs.Prelude.{◌≡◌, ℕ, ◌≤◌, [], ◌∷◌, length, false};
ghost use Rattle.slot_model.specs.declared.event.Event.TheVariants.{Sole};
ghost use Rattle.slot_accounts.specs.Account.{Shows};
ghost use Rattle.slot_edits.specs.Parts.{Fits, IsPart, new_count, nothing_of, spliced};
ghost use Rattle.slot_edits.specs.Texts.{IsText, IsObjectOf};
ghost use Rattle.slot_edits.specs.Edits.{WritesInPlace, WritesCopy, IsShared, IsReadied};
ghost use Rattle.slot_edits.specs.Words.{content_bytes};
ghost use Rattle.slot_edits.specs.declared.stored.Outcome.TheVariants as outcome;
ghost use Rattle.slot_edits.specs.declared.stored.Readied.TheVariants as readied;

use crate::copying::replace_copied;
use crate::in_place::{ready, replace_in_place};
use crate::part::Part;
use object_words::Object;
use slot_model::Attach;
use slot_table::{Pass, Ref};

/// Where the text of an edit stands.
#[derive(Clone, Copy, Debug)]
pub enum Outcome {
    /// In the slot of the old text, with these two words of the value.
    InPlace(Object),
    /// In a new slot, with these two words of the value.
    Copied(Object),
    /// Nowhere: the slot has another reference, and the pass shows no free slot or no spendable credit.
    Left,
}

/// How a text is readied for edits in place.
#[derive(Clone, Copy, Debug)]
pub enum Readied {
    /// Its reference is its slot's only one, and there is no side.
    Alone,
    /// It was copied into a new slot, with these two words of the value.
    Copied(Object),
    /// It isn't: the slot has another reference, and the pass shows no free slot or no spendable credit.
    Left,
}

/// Puts bytes in place of a part of the text: in place where the reference is its slot's only one, and else in a new slot.
///
/// The events are those of `replace_in_place`; where there is another reference, its Sole and then those of `replace_copied`. `Left`
/// tells of that Sole alone. The conditions are those of `replace_in_place`. No memory.
pub fn replace<'h, A: Attach>(
    pass: &mut Pass<'h, A>,
    reference: Ref<'h, A>,
    part: Part,
    with: &[u8],
    marked: bool,
) -> (Ref<'h, A>, Outcome)
    requires heap { reference.heap ≡ pass.old.heap }
    requires clean { reference.places ≡ [] }
    requires part { IsPart reference.known part with.now }
    requires text { IsText reference.known part.count marked }
    requires fits { Fits (new_count part with.now) pass.old.heap.layout.capacity_words }
    requires most { length reference.known ≤ pass.old.heap.layout.capacity_words }
    ensures heap { pass.new.heap ≡ pass.old.heap }
    ensures same_heap { result.0.heap ≡ pass.new.heap }
    ensures in_place { (object : ℕ × ℕ) → result.1 ≡ outcome.InPlace object → WritesInPlace pass.old reference.entry part with.now pass.new result.0
        × IsObjectOf (spliced reference.entry.known part with.now) reference.entry.slot object }
    ensures copied { (object : ℕ × ℕ) → result.1 ≡ outcome.Copied object → (reference.entry.sole ≡ false)
        × WritesCopy (Sole reference.entry.slot false ∷ []) pass.old reference.entry part with.now pass.new result.0
        × IsObjectOf (spliced reference.entry.known part with.now) result.0.slot object }
    ensures left { result.1 ≡ outcome.Left → IsShared pass.old reference.entry pass.new result.0 × ¬ Shows pass.old }
    ensures credits { pass.new.credits ≡ pass.old.credits }
{
    let (reference, written) = replace_in_place(pass, reference, part, with, marked);
    match written {
        Some(object) => (reference, Outcome::InPlace(object)),
        None => {
            let (reference, copied) = replace_copied(pass, reference, part, with, marked);
            match copied {
                Some(object) => (reference, Outcome::Copied(object)),
                None => (reference, Outcome::Left),
            }
        }
    }
}

/// Readies a text of `count` bytes for edits in place: its reference is its slot's only one then, and there is no side.
///
/// The events are a Sole, unless the reference is known to be alone, and a Detach, unless there is known to be no side; where there is
/// another reference, the Sole, a Publish of the same text and the old reference's Release. `Left` tells of that Sole alone. `marked`
/// says whether the text is ASCII. `pass` is of the same heap. No memory.
pub fn reserve<'h, A: Attach>(
    pass: &mut Pass<'h, A>,
    reference: Ref<'h, A>,
    count: u64,
    marked: bool,
) -> (Ref<'h, A>, Readied)
    requires heap { reference.heap ≡ pass.old.heap }
    requires clean { reference.places ≡ [] }
    requires text { IsText reference.known count marked }
    requires most { length reference.known ≤ pass.old.heap.layout.capacity_words }
    ensures heap { pass.new.heap ≡ pass.old.heap }
    ensures same_heap { result.0.heap ≡ pass.new.heap }
    ensures alone { result.1 ≡ readied.Alone → IsReadied pass.old reference.entry pass.new result.0 }
    ensures copied { (object : ℕ × ℕ) → result.1 ≡ readied.Copied object → (reference.entry.sole ≡ false)
        × WritesCopy (Sole reference.entry.slot false ∷ []) pass.old reference.entry (nothing_of count) [] pass.new result.0
        × IsObjectOf (content_bytes reference.entry.known count) result.0.slot object }
    ensures left { result.1 ≡ readied.Left → IsShared pass.old reference.entry pass.new result.0 × ¬ Shows pass.old }
    ensures credits { pass.new.credits ≡ pass.old.credits }
{
    let _ = pass.capacity_words();
    let (reference, alone) = ready(pass, reference);
    if alone {
        return (reference, Readied::Alone);
    }
    let part = Part {
        low: 0,
        high: 0,
        count,
    };
    let (reference, copied) = replace_copied(pass, reference, part, &[], marked);
    match copied {
        Some(object) => (reference, Readied::Copied(object)),
        None => (reference, Readied::Left),
    }
}
